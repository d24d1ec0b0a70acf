// The steps that visit names: step 12, a stitch's name; step 6, a flow's parameters; step 5, a function's first byte, and then its own list.
ghost use Rattle.std.specs.Prelude.{◌≡◌, [], ◌∷◌, ◌<◌, length, drop};
ghost use Rattle.records.specs.declared.sorts.Sort.TheVariants.{StitchName as stitch_name};
ghost use Rattle.story.specs.Story.{Flow};
ghost use Rattle.story.specs.Flows.{counted_in};
ghost use Rattle.items.specs.Bodies.{kept_story};
ghost use Rattle.rules.specs.Rules as rules;
ghost use Rattle.rules.specs.Steps.{s5, s6, s12, over, name_item, param_items, purity_items};
ghost use Rattle.broken.specs.Scopes.{Ready};
ghost use Rattle.steps.specs.Heard.{heard, hear_runs};
ghost use Rattle.steps.specs.Turns.{ScopeIs};
ghost use Rattle.steps.specs.Headings.{named, name_visit, NameHeard, FlowIs};

use crate::Tally;
use crate::brackets::Step;
use crate::nodes::{Turn, validate_nodes};
use crate::visits::{Visit, visit_thing};
use broken::asked::Story;
use broken::{At, Site, Thing};
use records::sorts::Sort;
use searches::name_views::counted;

// A heading: the site of the steps on it, the place of the stitch's name or of the flow's first byte, whether the flow is a function, and what
// was heard before.
#[derive(Clone, Copy)]
pub struct Heading {
    pub site: Site,
    pub at: usize,
    pub function: bool,
    pub tally: Tally,
}

// A name to visit: the step at hand, the name's sort, the place of the breach, and the place of the name.
#[derive(Clone, Copy)]
pub struct NameVisit {
    pub turn: Turn,
    pub sort: Sort,
    pub place: usize,
    pub named: usize,
}

// The visit of a name, before which no item stands.
fn name_visit(v: NameVisit) -> Visit
    ensures { result ≡ name_visit v }
{
    let turn = v.turn;
    let thing = Thing {
        sort: v.sort,
        name: v.named,
        branch: false,
        leaves: false,
    };
    let at = At {
        site: turn.site,
        thing,
        number: 0,
    };
    Visit {
        at,
        place: v.place,
        named: v.named,
        tally: turn.tally,
    }
}

// Visits one name: each rule of the step that is broken there is heard.
fn visit_name(
    story: &Story<'_>,
    knot: &[u32],
    body: &[u32],
    list: &mut [u32],
    v: NameVisit,
) -> Tally
    requires { Ready story.now.file.now story.now.kept.now knot.now body.now v.turn.site 0 }
    ensures { NameHeard story.now.view.sections story.now.file.now story.now.kept.now list.old v result list.new }
{
    let turn = v.turn;
    let rules = turn.step.rules();
    let visit = name_visit(v);
    visit_thing(story, knot, body, rules, list, visit)
}

// STEP 12: the stitch's name at the heading's place.
pub fn validate_stitch_name(
    story: &Story<'_>,
    knot: &[u32],
    body: &[u32],
    list: &mut [u32],
    h: Heading,
) -> Tally
    requires { Ready story.now.file.now story.now.kept.now knot.now body.now h.site 0 }
    ensures { (s : rules.Scope) → ScopeIs story.now.file.now story.now.kept.now story.now.view.sections h.site.scope s → heard result list.new ≡ hear_runs (kept_story story.now.view.sections story.now.file.now) (heard h.tally list.old) (over s (name_item stitch_name h.at (named story.now.file.now h.at) ∷ []) (s12 ∷ [])) }
{
    let turn = Turn {
        site: h.site,
        step: Step::StitchName,
        tally: h.tally,
    };
    let v = NameVisit {
        turn,
        sort: Sort::StitchName,
        place: h.at,
        named: h.at,
    };
    visit_name(story, knot, body, list, v).next_run()
}

// STEP 6: the names that the count byte of the parameters counts.
pub fn validate_flow_parameter_names(
    story: &Story<'_>,
    knot: &[u32],
    body: &[u32],
    list: &mut [u32],
    h: Heading,
) -> Tally
    requires heading_ready { Ready story.now.file.now story.now.kept.now knot.now body.now h.site 0 }
    requires params_in_bounds { h.site.scope.params < length story.now.file.now }
    ensures { (s : rules.Scope) → ScopeIs story.now.file.now story.now.kept.now story.now.view.sections h.site.scope s → heard result list.new ≡ hear_runs (kept_story story.now.view.sections story.now.file.now) (heard h.tally list.old) (over s (param_items (counted_in h.site.scope.params (drop h.site.scope.params story.now.file.now))) (s6 ∷ [])) }
{
    let mut tally = h.tally;
    for name in counted(story.file, h.site.scope.params) {
        if tally.is_full() {
            return tally;
        }
        let turn = Turn {
            site: h.site,
            step: Step::Parameters,
            tally,
        };
        let v = NameVisit {
            turn,
            sort: Sort::Parameter,
            place: name.at,
            named: name.at,
        };
        tally = visit_name(story, knot, body, list, v);
    }
    tally.next_run()
}

// STEP 5: of a function its first byte, then its own list; of another flow nothing.
pub fn validate_function_purity(
    story: &Story<'_>,
    knot: &[u32],
    body: &mut [u32],
    list: &mut [u32],
    h: Heading,
) -> Tally
    requires { Ready story.now.file.now story.now.kept.now knot.now body.old h.site 0 }
    ensures list_after { (s : rules.Scope) (f : Flow) → ScopeIs story.now.file.now story.now.kept.now story.now.view.sections h.site.scope s → FlowIs story.now.file.now story.now.kept.now h f → heard result list.new ≡ hear_runs (kept_story story.now.view.sections story.now.file.now) (heard h.tally list.old) (over s (purity_items h.function f) (s5 ∷ [])) }
    ensures body_unchanged { body.new ≡ body.old }
{
    let tally = h.tally;
    if h.function {
        let first = Turn {
            site: h.site,
            step: Step::Purity,
            tally,
        };
        let flow = h.site.scope.flow;
        let v = NameVisit {
            turn: first,
            sort: Sort::FlowStart,
            place: h.at,
            named: flow,
        };
        let after = visit_name(story, knot, body, list, v);
        let turn = Turn {
            tally: after,
            ..first
        };
        return validate_nodes(story, knot, body, list, turn);
    }
    tally.next_run()
}
