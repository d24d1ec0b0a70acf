// One step along the items of a body.
ghost use Rattle.std.specs.Prelude.{◌≡◌, false, [], ◌∷◌, ◌+◌, ◌<◌, length};
ghost use Rattle.items.specs.declared.named.Sought.TheVariants as sought;
ghost use Rattle.items.specs.Bodies.{kept_story};
ghost use Rattle.sets.specs.Members.{Members, MembersPut};
ghost use Rattle.rules.specs.Rules as rules;
ghost use Rattle.broken.specs.Scopes.{Ready};
ghost use Rattle.steps.specs.Brackets.{step_of, on_gathers};
ghost use Rattle.steps.specs.Heard.{heard, hear_runs};
ghost use Rattle.steps.specs.Turns.{ScopeIs, turn_run, numbered_run, visit_of};

use crate::Tally;
use crate::brackets::Step;
use crate::visits::{Visit, at_item, thing_of, visit_thing};
use broken::asked::Story;
use broken::{Rests, Site};
use items::items::{named_at, place_in};
use items::named::Sought;
use sets::Class;
use sets::members::NamedItems;

// A step at its site, and what was heard before.
#[derive(Clone, Copy)]
pub struct Turn {
    pub site: Site,
    pub step: Step,
    pub tally: Tally,
}

// The visit of a kept item, before which so many stand.
fn visit_of(turn: Turn, tally: Tally, gathers: usize, number: usize, item: u32) -> Visit
    ensures { result ≡ visit_of turn tally gathers number item }
{
    Visit {
        at: at_item(turn.site, gathers, thing_of(item), number),
        place: place_in(item),
        named: named_at(item),
        tally,
    }
}

// Passes item number i: in a step on gathers its name is put into the body's set where it is a gather. The answer is the number of the item from
// which on no gather is in the set.
fn pass_gather(step: Step, items: NamedItems<'_>, i: usize, rest: usize, body: &mut [u32]) -> usize
    requires i_in_bounds { i < length items.items.now }
    requires members { Members sought.Gather items.file.now 2 items.items.now i body.old rest }
    ensures members_put { MembersPut sought.Gather items.entry.file.now 2 items.entry.items.now (i + 1) body.old body.new result }
    ensures body_unchanged { on_gathers (step_of step) ≡ false → body.new ≡ body.old }
{
    if step.is_on_gathers() {
        return items.put_next(Sought::Gather, i, rest, Class::Gather, body);
    }
    rest
}

// THE STEP along the body's items: each is visited, and where the step is one on gathers, its gather is put into the body's set after its visit.
pub fn validate_nodes(
    story: &Story<'_>,
    knot: &[u32],
    body: &mut [u32],
    list: &mut [u32],
    turn: Turn,
) -> Tally
    requires { Ready story.now.file.now story.now.kept.now knot.now body.old turn.site 0 }
    ensures list_after { (s : rules.Scope) → ScopeIs story.now.file.now story.now.kept.now story.now.view.sections turn.site.scope s → heard result list.new ≡ hear_runs (kept_story story.now.view.sections story.now.file.now) (heard turn.tally list.old) (turn_run story.now.file.now story.now.kept.now turn s ∷ []) }
    ensures body_unchanged { on_gathers (step_of turn.step) ≡ false → body.new ≡ body.old }
{
    let first = turn.site.scope.first;
    let last = turn.site.scope.last;
    let items = NamedItems {
        file: story.file,
        items: &story.kept[first..last],
    };
    let rules = turn.step.rules();
    let mut tally = turn.tally;
    let mut gathers = turn.site.rests.gathers;
    for (i, &item) in items.items.iter().enumerate() {
        if tally.is_full() {
            return tally;
        }
        let v = visit_of(turn, tally, gathers, i, item);
        tally = visit_thing(story, knot, body, rules, list, v);
        gathers = pass_gather(turn.step, items, i, gathers, body);
    }
    tally.next_run()
}

// The number before the first step's.
const NO_STEP: u8 = 0;

// A step by its number at its site, and what was heard before.
#[derive(Clone, Copy)]
pub struct NumberedTurn {
    pub site: Site,
    pub step: u8,
    pub tally: Tally,
}

// THE STEP of the number along the body's items; any number but 1 to 20 has the last step. For 0 it runs on a set without slots, and the lent one
// stays as it is.
pub fn validate_nodes_by_number(
    story: &Story<'_>,
    knot: &[u32],
    body: &mut [u32],
    list: &mut [u32],
    turn: NumberedTurn,
) -> Tally
    requires { Ready story.now.file.now story.now.kept.now knot.now body.old turn.site 0 }
    ensures list_after { (s : rules.Scope) → ScopeIs story.now.file.now story.now.kept.now story.now.view.sections turn.site.scope s → heard result list.new ≡ hear_runs (kept_story story.now.view.sections story.now.file.now) (heard turn.tally list.old) (numbered_run story.now.file.now story.now.kept.now turn s ∷ []) }
    ensures body_unchanged { turn.step < 18 → body.new ≡ body.old }
{
    let NumberedTurn {
        site,
        step: number,
        tally,
    } = turn;
    let step = Step::of(number);
    if number == NO_STEP {
        let rests = Rests {
            own: 0,
            gathers: 0,
            ..site.rests
        };
        let site = Site { rests, ..site };
        let unlent = Turn { site, step, tally };
        return validate_nodes(story, knot, &mut [], list, unlent);
    }
    let turn = Turn { site, step, tally };
    validate_nodes(story, knot, body, list, turn)
}
