// The twenty steps in order (context.rs).
ghost use Rattle.std.specs.Prelude.{◌≡◌, ◌≤◌};
ghost use Rattle.std.proofs.Props.{props};
ghost use Rattle.names.specs.Words.{each};
ghost use Rattle.items.specs.Bodies.{kept_story, kept_stitch, kept_flow, rising_prop};
ghost use Rattle.rules.specs.Steps.{stitch_runs, flow_runs, runs};
ghost use Rattle.steps.specs.Heard.{heard, hear_runs};
ghost use Rattle.steps.specs.Stories.{first_heard, KnotReady, StitchTurnReady, FlowTurnReady, StoryTurnReady};

use crate::Tally;
use crate::bodies::{Body, Course, room};
use crate::brackets::Along;
use crate::fillings::put_knot;
use crate::headings::{
    Heading, validate_flow_parameter_names, validate_function_purity, validate_stitch_name,
};
use crate::scopes::{index_from, knot_scope, root_scope, stitch_scope};
use broken::asked::Story;
use broken::{Rests, Site};
use items::runs::KeptNumbers;
use searches::views::{FlowView, StitchView, flow_view, stitch_view};
use sets::members::NamedItems;
use story::FileView;

// A knot: the flow, and the site of its steps.
#[derive(Clone, Copy)]
pub struct Knot {
    pub flow: FlowView,
    pub site: Site,
}

// A stitch, the number of a kept item before its own, and what was heard before.
#[derive(Clone, Copy)]
pub struct StitchTurn {
    pub stitch: StitchView,
    pub start: usize,
    pub tally: Tally,
}

// A knot of a story at hand, with its set filled: its steps can run.
#[derive(Clone, Copy)]
pub struct FilledKnot<'a, 'b> {
    pub story: &'a Story<'b>,
    pub set: &'a [u32],
    pub knot: Knot,
    pub ghost ready: { KnotReady story.now.file.now story.now.kept.now set.now knot } by { Prim.hlevel (props, rising_prop) },
}

impl FilledKnot<'_, '_> {
    // Steps 12 to 18, of a stitch of it.
    fn validate_stitch(&self, body: &mut [u32], list: &mut [u32], t: StitchTurn) -> Tally
        requires { StitchTurnReady self.now.story.now.file.now self.now.story.now.kept.now t }
        ensures { heard result list.new ≡ hear_runs (kept_story self.now.story.now.view.sections self.now.story.now.file.now) (heard t.tally list.old) (stitch_runs (kept_flow self.now.story.now.file.now self.now.story.now.kept.now self.now.knot.flow) (kept_stitch self.now.story.now.file.now self.now.story.now.kept.now t.stitch)) }
    {
        let story = self.story;
        let knot = self.set;
        let kept = KeptNumbers {
            numbers: story.kept,
        };
        let scope = stitch_scope(kept, self.knot.site.scope, t.stitch, t.start);
        let site = Site {
            scope,
            ..self.knot.site
        };
        let heading = Heading {
            site,
            at: t.stitch.name,
            function: false,
            tally: t.tally,
        };
        let first = validate_stitch_name(story, knot, &knot[..0], list, heading);
        let course = Course {
            site,
            inner: true,
            function: false,
            tally: first,
        };
        let own = Body {
            story,
            knot,
            course,
            steps: Along::Stitch.steps(),
        };
        own.validate(body, list)
    }

    // Steps 12 to 18, of its stitches one after the other, until it is full.
    fn validate_stitches(&self, body: &mut [u32], list: &mut [u32], before: Tally) -> Tally
        ensures { heard result list.new ≡ hear_runs (kept_story self.now.story.now.view.sections self.now.story.now.file.now) (heard before list.old) (each (stitch_runs (kept_flow self.now.story.now.file.now self.now.story.now.kept.now self.now.knot.flow)) (kept_flow self.now.story.now.file.now self.now.story.now.kept.now self.now.knot.flow).stitches) }
    {
        let story = self.story;
        let k = self.knot;
        let mut tally = before;
        let kept = KeptNumbers {
            numbers: story.kept,
        };
        let mut at = k.flow.stitches;
        let mut start = k.site.scope.own;
        while let Some(w) = stitch_view(story.file, at, k.flow.end) {
            if tally.is_full() {
                return tally;
            }
            let t = StitchTurn {
                stitch: w,
                start,
                tally,
            };
            tally = self.validate_stitch(body, list, t);
            at = w.end;
            start = index_from(kept, start, at);
        }
        tally
    }

    // Steps 5 and 6, of its flow: nothing is asked of a body's set.
    fn validate_first_steps(&self, body: &mut [u32], list: &mut [u32], tally: Tally) -> Tally
        ensures { heard result list.new ≡ first_heard self.now.story.now.view.sections self.now.story.now.file.now self.now.story.now.kept.now self.now.knot (heard tally list.old) }
    {
        let story = self.story;
        let knot = self.set;
        let Knot { flow, site } = self.knot;
        let heading = Heading {
            site,
            at: flow.at,
            function: flow.function,
            tally,
        };
        let purity = validate_function_purity(story, knot, &mut body[..0], list, heading);
        let params = Heading {
            tally: purity,
            ..heading
        };
        validate_flow_parameter_names(story, knot, &knot[..0], list, params)
    }

    // Steps 5 to 19, of its flow: where one look finds its own list clear, its steps are passed.
    fn validate(&self, body: &mut [u32], list: &mut [u32], before: Tally) -> Tally
        ensures { heard result list.new ≡ hear_runs (kept_story self.now.story.now.view.sections self.now.story.now.file.now) (heard before list.old) (flow_runs (kept_flow self.now.story.now.file.now self.now.story.now.kept.now self.now.knot.flow)) }
    {
        let story = self.story;
        let knot = self.set;
        let site = self.knot.site;
        let function = self.knot.flow.function;
        let first = self.validate_first_steps(body, list, before);
        let own = Body {
            story,
            knot,
            course: Course::own(site, function, first),
            steps: Along::Flow.steps(),
        };
        if own.is_clear(body) {
            let passed = first.pass_runs(Along::Flow.many());
            let tally = self.validate_stitches(body, list, passed);
            return tally.pass_runs(Along::FlowGathers.many());
        }
        let after = own.validate_steps(body, list);
        let tally = self.validate_stitches(body, list, after);
        let gathers = Body {
            story,
            knot,
            course: Course::own(site, function, tally),
            steps: Along::FlowGathers.steps(),
        };
        gathers.validate_steps(body, list)
    }
}

// A flow, the number of a kept item before its own, and what was heard before.
#[derive(Clone, Copy)]
pub struct FlowTurn {
    pub flow: FlowView,
    pub start: usize,
    pub tally: Tally,
}

// Steps 5 to 19, of a flow: its set is filled first.
fn validate_flow(
    story: &Story<'_>,
    knot: &mut [u32],
    body: &mut [u32],
    list: &mut [u32],
    t: FlowTurn,
) -> Tally
    requires { FlowTurnReady story.now.file.now story.now.kept.now t }
    ensures { heard result list.new ≡ hear_runs (kept_story story.now.view.sections story.now.file.now) (heard t.tally list.old) (flow_runs (kept_flow story.now.file.now story.now.kept.now t.flow)) }
{
    let flow = t.flow;
    let scope = knot_scope(story.file, story.kept, flow, t.start);
    let rests = put_knot(story.items(), scope, knot);
    let filled = FilledKnot {
        story,
        set: knot,
        knot: Knot {
            flow,
            site: Site { scope, rests },
        },
    };
    filled.validate(body, list, t.tally)
}

// The number of a kept item before those of the flows, and what was heard before.
#[derive(Clone, Copy)]
pub struct StoryTurn {
    pub start: usize,
    pub tally: Tally,
}

// Steps 5 to 19, of the flows one after the other, until it is full.
fn validate_flows(
    story: &Story<'_>,
    knot: &mut [u32],
    body: &mut [u32],
    list: &mut [u32],
    t: StoryTurn,
) -> Tally
    requires { StoryTurnReady story.now.view.sections story.now.file.now story.now.kept.now t }
    ensures { heard result list.new ≡ hear_runs (kept_story story.now.view.sections story.now.file.now) (heard t.tally list.old) (each flow_runs (kept_story story.now.view.sections story.now.file.now).flows) }
{
    let mut tally = t.tally;
    let kept = KeptNumbers {
        numbers: story.kept,
    };
    let mut at = story.view.sections.flows;
    let mut start = t.start;
    while let Some(flow) = flow_view(story.file, at, story.view.sections.end) {
        if tally.is_full() {
            return tally;
        }
        // The flow's items have six bytes at least.
        let slots = room(knot.len(), (flow.end - flow.from) / 6);
        let turn = FlowTurn { flow, start, tally };
        tally = validate_flow(story, &mut knot[..slots], body, list, turn);
        at = flow.end;
        start = index_from(kept, start, at);
    }
    tally
}

// THE TWENTY STEPS: 1 to 4 at the root, 5 to 19 of each flow, 20 at the root, for which no name of the knot is asked.
pub fn validate_story(
    story: &Story<'_>,
    knot: &mut [u32],
    body: &mut [u32],
    list: &mut [u32],
    t: StoryTurn,
) -> Tally
    requires { StoryTurnReady story.now.view.sections story.now.file.now story.now.kept.now t }
    ensures { heard result list.new ≡ hear_runs (kept_story story.now.view.sections story.now.file.now) (heard t.tally list.old) (runs (kept_story story.now.view.sections story.now.file.now)) }
{
    let tally = t.tally;
    let source = FileView {
        file: story.file,
        sections: story.view.sections,
    };
    let numbers = KeptNumbers {
        numbers: story.kept,
    };
    let scope = root_scope(source, numbers);
    let rests = put_knot(story.items(), scope, knot);
    let site = Site { scope, rests };
    let root = Body {
        story,
        knot,
        course: Course::own(site, false, tally),
        steps: Along::Root.steps(),
    };
    let first = root.validate(body, list);
    let turn = StoryTurn {
        start: scope.last,
        tally: first,
    };
    let flows = validate_flows(story, knot, body, list, turn);
    let bare = Site {
        rests: Rests::default(),
        ..site
    };
    let gathers = Body {
        story,
        knot: &story.names[..0],
        course: Course::own(bare, false, flows),
        steps: Along::RootGathers.steps(),
    };
    gathers.validate(body, list)
}
