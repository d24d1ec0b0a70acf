// The twenty steps in order (context.rs).
ghost use Rattle.std.specs.Prelude.{◌≡◌, ◌≤◌, length};
ghost use Rattle.names.specs.Words.{each};
ghost use Rattle.story.specs.File.{story_in};
ghost use Rattle.items.specs.Bodies.{Kept, kept_story, kept_stitch, kept_flow};
ghost use Rattle.rules.specs.Steps.{stitch_runs, flow_runs, verdict};
ghost use Rattle.checks.specs.Context.{Ready};
ghost use Rattle.context.specs.Found.{found_of, found_runs};
ghost use Rattle.context.specs.Scopes.{root_view, FlowReady, StitchReady, passes_found, first_runs, later_runs};

use crate::BreachAt;
use crate::passes::{FLOW, GATHERS, ROOT, STITCH, WHOLE_FLOW, filter_room};
use crate::scopes::{knot_scope, root_scope, stitch_scope};
use crate::structure::{validate_flow_parameter_names, validate_stitch_name};
use crate::view::{KnotView, StepView, WholeView};
use checks::view::{BodyView, IndexView, StoryView};
use filters::declared::put_declared;
use filters::labels::split_at;
use filters::view::DeclaredView;
use items::runs::KeptNumbers;
use searches::views::{FlowView, StitchView, flow_view, stitch_view};
use story::{FileView, Sections};
use symbols::targets::EntryIndex;

impl KnotView<'_, '_> {
    // Steps 5 and 6, of a flow.
    #[tactic(auto, using(crate::proofs::Runs::purity_found))]
    fn validate_first_steps(&self, gathers: &mut [u8]) -> Option<BreachAt>
        ensures { let b = self.now.knot.place.body in result ≡ found_runs (kept_story self.now.knot.index.story.source.sections b.file.now) (first_runs (kept_flow b.file.now b.kept.numbers.now self.now.flow)) }
    {
        if let Some(breach) = self.validate_function_purity(gathers) {
            return Some(breach);
        }
        validate_flow_parameter_names(&self.knot.index.story, self.flow.name, self.flow.params)
    }

    // Steps 12 to 18, of a stitch.
    fn validate_stitch(&self, w: StitchView, gathers: &mut [u8]) -> Option<BreachAt>
        requires { StitchReady self.now.knot.place.body.file.now w }
        ensures { let b = self.now.knot.place.body in result ≡ found_runs (kept_story self.now.knot.index.story.source.sections b.file.now) (stitch_runs (kept_flow b.file.now b.kept.numbers.now self.now.flow) (kept_stitch b.file.now b.kept.numbers.now w)) }
    {
        if let Some(breach) = validate_stitch_name(
            &self.knot.index.story.source,
            self.flow.name,
            w.name,
        ) {
            return Some(breach);
        }
        let scope = stitch_scope(self.flow, w);
        let file = self.knot.place.body.file;
        let kept = self.knot.place.body.kept;
        let body = BodyView { file, kept, scope };
        let place = DeclaredView {
            body,
            names: self.knot.place.names,
            labels: self.knot.place.labels,
        };
        let step = StepView {
            index: self.knot.index,
            place,
        };
        step.validate_passes(&STITCH, gathers)
    }

    // Steps 12 to 18, of the stitches of a flow one after the other.
    fn validate_stitches(&self, gathers: &mut [u8]) -> Option<BreachAt>
        ensures { let b = self.now.knot.place.body in let f = kept_flow b.file.now b.kept.numbers.now self.now.flow in result ≡ found_runs (kept_story self.now.knot.index.story.source.sections b.file.now) (each (stitch_runs f) f.stitches) }
    {
        let file = self.knot.place.body.file;
        let end = self.flow.end;
        let mut at = self.flow.stitches;
        while let Some(w) = stitch_view(file, at, end) {
            if let Some(breach) = self.validate_stitch(w, gathers) {
                return Some(breach);
            }
            at = w.end;
        }
        None
    }

    // Steps 7 to 19, of a flow, one after the other.
    #[tactic(auto, using(crate::proofs::Runs::own_found, crate::proofs::Runs::stitches_found, crate::proofs::Runs::stitches_passed))]
    fn validate_unclear_flow(&self, gathers: &mut [u8]) -> Option<BreachAt>
        ensures { let b = self.now.knot.place.body in result ≡ found_runs (kept_story self.now.knot.index.story.source.sections b.file.now) (later_runs (kept_flow b.file.now b.kept.numbers.now self.now.flow)) }
    {
        self.knot
            .find_in_passes(&FLOW)
            .or_else(|| self.validate_stitches(gathers))
            .or_else(|| self.knot.validate_passes(&GATHERS, gathers))
    }

    // Steps 7 to 19, of a flow and its stitches: where one look finds the body clear of its own steps, the stitches are left.
    #[tactic(auto, using(crate::proofs::Runs::stitches_left))]
    fn validate_later_steps(&self, gathers: &mut [u8]) -> Option<BreachAt>
        ensures { let b = self.now.knot.place.body in result ≡ found_runs (kept_story self.now.knot.index.story.source.sections b.file.now) (later_runs (kept_flow b.file.now b.kept.numbers.now self.now.flow)) }
    {
        if self.knot.is_clear(&WHOLE_FLOW, gathers) {
            return self.validate_stitches(gathers);
        }
        self.validate_unclear_flow(gathers)
    }

    // Steps 5 to 19, of a flow and its stitches.
    #[tactic(auto, using(crate::proofs::Runs::first_found, crate::proofs::Runs::first_passed))]
    fn validate_all_steps(&self, gathers: &mut [u8]) -> Option<BreachAt>
        ensures { let b = self.now.knot.place.body in result ≡ found_runs (kept_story self.now.knot.index.story.source.sections b.file.now) (flow_runs (kept_flow b.file.now b.kept.numbers.now self.now.flow)) }
    {
        self.validate_first_steps(gathers)
            .or_else(|| self.validate_later_steps(gathers))
    }
}

// Steps 5 to 19, of a flow and its stitches. The filter gets the flow's names.
fn validate_whole_flow<'a>(
    index: &IndexView<'a>,
    kept: KeptNumbers<'a>,
    flow: FlowView,
    declared: &mut [u8],
    gathers: &mut [u8],
) -> Option<BreachAt>
    requires { FlowReady index.now.story.source.file.now kept.numbers.now flow }
    ensures { let c = index.now.story.source in result ≡ found_runs (kept_story c.sections c.file.now) (flow_runs (kept_flow c.file.now kept.entry.numbers.now flow)) }
{
    let file = index.story.source.file;
    let scope = knot_scope(flow);
    put_declared(file, kept, scope, declared);
    let body = BodyView { file, kept, scope };
    let filter = &declared[..];
    let split = split_at(filter.len(), scope.stitches, scope.end);
    let place = DeclaredView {
        body,
        names: &filter[..split],
        labels: &filter[split..],
    };
    let knot = StepView {
        index: *index,
        place,
    };
    let view = KnotView { knot, flow };
    view.validate_all_steps(gathers)
}

// How much of a filter for the names of the flow is used, of so many bytes: no more than its body and its stitches have. None where it has
// no stitches and a short body, which is searched as it is.
fn declared_room(v: FlowView, bytes: usize) -> usize
    requires { v.from ≤ v.end }
    ensures { result ≤ bytes }
{
    let length = v.end - v.from;
    if v.stitches == v.end && length < 1024 {
        return 0;
    }
    length.min(bytes)
}

impl WholeView<'_> {
    // Steps 1 to 4, at the root. The filter gets the root's labels.
    fn validate_root(&self, declared: &mut [u8], gathers: &mut [u8]) -> Option<BreachAt>
        ensures { let c = self.now.index.story.source in result ≡ passes_found c.file.now self.now.kept.numbers.now c.sections (root_view c.sections (length c.file.now)) ROOT }
    {
        let index = self.index;
        let kept = self.kept;
        let file = index.story.source.file;
        let scope = root_scope(index.story.source.sections, file.len());
        put_declared(file, kept, scope, declared);
        let body = BodyView { file, kept, scope };
        let filter = &declared[..];
        let split = split_at(filter.len(), scope.stitches, scope.end);
        let place = DeclaredView {
            body,
            names: &filter[..split],
            labels: &filter[split..],
        };
        let root = StepView { index, place };
        root.validate_passes(&ROOT, gathers)
    }

    // Steps 5 to 19, of the flows one after the other.
    fn validate_flows(&self, declared: &mut [u8], gathers: &mut [u8]) -> Option<BreachAt>
        ensures { let c = self.now.index.story.source in result ≡ found_runs (kept_story c.sections c.file.now) (each flow_runs (kept_story c.sections c.file.now).flows) }
    {
        let file = self.index.story.source.file;
        let end = self.index.story.source.sections.end;
        let mut at = self.index.story.source.sections.flows;
        let mut rest = self.kept;
        while let Some(v) = flow_view(file, at, end) {
            let room = declared_room(v, declared.len());
            if let Some(breach) = validate_whole_flow(
                &self.index,
                rest,
                v,
                &mut declared[..room],
                gathers,
            ) {
                return Some(breach);
            }
            at = v.end;
            rest = rest.items_from(at);
        }
        None
    }

    // Step 20, at the root.
    fn validate_root_gathers(&self, gathers: &mut [u8]) -> Option<BreachAt>
        ensures { let c = self.now.index.story.source in result ≡ passes_found c.file.now self.now.kept.numbers.now c.sections (root_view c.sections (length c.file.now)) GATHERS }
    {
        let index = self.index;
        let kept = self.kept;
        let file = index.story.source.file;
        let scope = root_scope(index.story.source.sections, file.len());
        let body = BodyView { file, kept, scope };
        let place = DeclaredView {
            body,
            names: &file[..0],
            labels: &file[..0],
        };
        let root = StepView { index, place };
        root.validate_passes(&GATHERS, gathers)
    }

    // The steps over a story: 1 to 4 at the root, 5 to 19 of each flow, 20 at the root.
    #[tactic(auto, using(crate::proofs::Runs::root_found, crate::proofs::Runs::flows_found, crate::proofs::Runs::flows_passed))]
    fn validate_steps(&self, declared: &mut [u8], gathers: &mut [u8]) -> Option<BreachAt>
        ensures { let c = self.now.index.story.source in result ≡ found_of (verdict (story_in c.sections c.file.now)) }
    {
        let source = self.index.story.source;
        let scope = root_scope(source.sections, source.file.len());
        let room = filter_room(scope, declared.len());
        self.validate_root(&mut declared[..room], gathers)
            .or_else(|| self.validate_flows(declared, gathers))
            .or_else(|| self.validate_root_gathers(gathers))
    }
}

// What is written of a story before its steps: the index, how many entries it has, the functions, and hints into the index.
#[derive(Clone, Copy)]
pub struct Tables<'a> {
    pub index: &'a [u32],
    pub count: usize,
    pub functions: &'a [u32],
    pub hints: &'a [u32],
}

// THE TWENTY STEPS: 1 to 4 at the root, 5 to 19 of each flow, 20 at the root. The first breach, or none.
pub fn validate_story<'a>(
    file: &'a [u8],
    sections: Sections,
    kept: &'a [u32],
    tables: Tables<'a>,
    declared: &mut [u8],
    gathers: &mut [u8],
) -> Option<BreachAt>
    requires ready { Ready file.now sections tables.index.now tables.count tables.functions.now }
    requires kept { Kept file.now sections kept.now }
    ensures { result ≡ found_of (verdict (story_in sections file.now)) }
{
    let source = FileView { file, sections };
    let story = StoryView {
        source,
        functions: tables.functions,
    };
    let entries = EntryIndex {
        file,
        numbers: tables.index,
        count: tables.count,
    };
    let index = IndexView {
        story,
        entries,
        hints: tables.hints,
    };
    let whole = WholeView {
        index,
        kept: KeptNumbers { numbers: kept },
    };
    whole.validate_steps(declared, gathers)
}
