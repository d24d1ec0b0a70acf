// The steps along one body, one after the other.
ghost use Rattle.std.specs.Prelude.{◌≡◌, true, [], ◌≤◌, map};
ghost use Rattle.names.specs.Words.{each};
ghost use Rattle.items.specs.Bodies.{items_at, kept_story};
ghost use Rattle.rules.specs.Rules as rules;
ghost use Rattle.rules.specs.Steps.{bracket, over};
ghost use Rattle.broken.specs.Scopes.{known_in, here_in, body_run};
ghost use Rattle.steps.specs.Heard.{heard, hear_runs};
ghost use Rattle.steps.specs.Clear.{clear_along, among};
ghost use Rattle.steps.specs.Looks.{look_rules};
ghost use Rattle.steps.specs.Turns.{ScopeIs};
ghost use Rattle.steps.specs.Brackets.{step_of, gathers_last};
ghost use Rattle.steps.specs.Courses.{own_course, CourseReady, steps_from, NumberedReady};

use crate::Tally;
use crate::brackets::Step;
use crate::fillings::put_body;
use crate::looks::{Look, is_body_clear};
use crate::nodes::{NumberedTurn, Turn, validate_nodes, validate_nodes_by_number};
use broken::Site;
use broken::asked::Story;
use sets::members::NamedItems;

// Where steps along a body run: the site, whether the body is a stitch's and whether it is a function's own list, and what was heard before.
#[derive(Clone, Copy)]
pub struct Course {
    pub site: Site,
    pub inner: bool,
    pub function: bool,
    pub tally: Tally,
}

impl Course {
    // Steps along the root or the own list of a flow, after what was heard.
    pub fn own(site: Site, function: bool, tally: Tally) -> Course
        ensures { result ≡ own_course site function tally }
    {
        Course {
            site,
            inner: false,
            function,
            tally,
        }
    }
}

// A body with the steps along it, of a story at hand, and the set of its knot: all that the steps may ask is ready but for the body's set, and
// only the last of them is one on gathers.
#[derive(Clone, Copy)]
pub struct Body<'a, 'b> {
    pub story: &'a Story<'b>,
    pub knot: &'a [u32],
    pub course: Course,
    pub steps: &'a [Step],
    pub ghost ready: { CourseReady story.now.file.now story.now.kept.now knot.now course },
    pub ghost gathers_last: { gathers_last (map step_of steps.now) ≡ true },
}

// Of so many slots, those that so many items need.
pub fn room(slots: usize, items: usize) -> usize
    ensures { result ≤ slots }
{
    if items < slots / 2 {
        return 2 * items + 1;
    }
    slots
}

impl Body<'_, '_> {
    // THE STEPS along the body's items, one after the other, until it is full. A step on gathers is the last, so the body's set is filled once.
    pub fn validate_steps(&self, body: &mut [u32], list: &mut [u32]) -> Tally
        ensures { (s : rules.Scope) → ScopeIs self.now.story.now.file.now self.now.story.now.kept.now self.now.story.now.view.sections self.now.course.site.scope s → heard result list.new ≡ hear_runs (kept_story self.now.story.now.view.sections self.now.story.now.file.now) (heard self.now.course.tally list.old) (over s (items_at self.now.story.now.file.now (body_run self.now.story.now.kept.now self.now.course.site.scope)) (map step_of self.now.steps.now)) }
    {
        let story = self.story;
        let c = self.course;
        let rests = put_body(story.items(), c.site, c.inner, body);
        let site = Site { rests, ..c.site };
        let mut tally = c.tally;
        for &step in self.steps {
            if tally.is_full() {
                return tally;
            }
            let turn = Turn { site, step, tally };
            tally = validate_nodes(story, self.knot, body, list, turn);
        }
        tally
    }

    // Fills the body's set, and looks once at its items: no rule of the look is broken at any of them.
    fn is_clear_in(&self, body: &mut [u32]) -> bool
        ensures { result ≡ clear_along (known_in self.now.story.now.view.sections self.now.story.now.file.now) (here_in self.now.story.now.file.now self.now.story.now.kept.now self.now.course.site.scope) (look_rules self.now.course.inner self.now.course.function) [] (items_at self.now.story.now.file.now (body_run self.now.story.now.kept.now self.now.course.site.scope)) }
    {
        let story = self.story;
        let c = self.course;
        let rests = put_body(story.items(), c.site, c.inner, body);
        let site = Site { rests, ..c.site };
        let look = Look {
            inner: c.inner,
            function: c.function,
        };
        is_body_clear(look, story, self.knot, body, site)
    }

    // No rule of the look is broken at any item of the body. Only as many slots of the body's set are used as its items need.
    pub fn is_clear(&self, body: &mut [u32]) -> bool
        ensures { result ≡ clear_along (known_in self.now.story.now.view.sections self.now.story.now.file.now) (here_in self.now.story.now.file.now self.now.story.now.kept.now self.now.course.site.scope) (look_rules self.now.course.inner self.now.course.function) [] (items_at self.now.story.now.file.now (body_run self.now.story.now.kept.now self.now.course.site.scope)) }
    {
        let scope = self.course.site.scope;
        let slots = room(body.len(), scope.last - scope.first);
        self.is_clear_in(&mut body[..slots])
    }

    // THE STEPS along the body's items, those that find nothing by one look, which tests all their rules.
    pub fn validate(&self, body: &mut [u32], list: &mut [u32]) -> Tally
        requires { among (each bracket (map step_of self.now.steps.now)) (look_rules self.now.course.inner self.now.course.function) ≡ true }
        ensures { (s : rules.Scope) → ScopeIs self.now.story.now.file.now self.now.story.now.kept.now self.now.story.now.view.sections self.now.course.site.scope s → heard result list.new ≡ hear_runs (kept_story self.now.story.now.view.sections self.now.story.now.file.now) (heard self.now.course.tally list.old) (over s (items_at self.now.story.now.file.now (body_run self.now.story.now.kept.now self.now.course.site.scope)) (map step_of self.now.steps.now)) }
    {
        if self.is_clear(body) {
            return self.course.tally.pass_runs(self.steps.len());
        }
        self.validate_steps(body, list)
    }
}

// A course with the steps along it by their numbers: so many, from the first on.
#[derive(Clone, Copy)]
pub struct NumberedCourse {
    pub course: Course,
    pub first: u8,
    pub many: u8,
}

// THE STEPS of the numbers along the body's items, one after the other, until it is full. Only the last has a number from 18 on, so the body's set is
// filled once.
pub fn validate_steps_by_number(
    story: &Story<'_>,
    knot: &[u32],
    body: &mut [u32],
    list: &mut [u32],
    c: NumberedCourse,
) -> Tally
    requires { NumberedReady story.now.file.now story.now.kept.now knot.now c }
    ensures { (s : rules.Scope) → ScopeIs story.now.file.now story.now.kept.now story.now.view.sections c.course.site.scope s → heard result list.new ≡ hear_runs (kept_story story.now.view.sections story.now.file.now) (heard c.course.tally list.old) (over s (items_at story.now.file.now (body_run story.now.kept.now c.course.site.scope)) (steps_from c.first c.many)) }
{
    let course = c.course;
    let rests = put_body(story.items(), course.site, course.inner, body);
    let site = Site {
        rests,
        ..course.site
    };
    let mut tally = course.tally;
    for i in 0..c.many {
        if tally.is_full() {
            return tally;
        }
        let turn = NumberedTurn {
            site,
            step: c.first + i,
            tally,
        };
        tally = validate_nodes_by_number(story, knot, body, list, turn);
    }
    tally
}

// THE STEPS of the numbers along the body's items, those that find nothing by one look, which tests all their rules.
pub fn validate_body_by_number(
    story: &Story<'_>,
    knot: &[u32],
    body: &mut [u32],
    list: &mut [u32],
    c: NumberedCourse,
) -> Tally
    requires course_ready { NumberedReady story.now.file.now story.now.kept.now knot.now c }
    requires rules_tested { among (each bracket (steps_from c.first c.many)) (look_rules c.course.inner c.course.function) ≡ true }
    ensures { (s : rules.Scope) → ScopeIs story.now.file.now story.now.kept.now story.now.view.sections c.course.site.scope s → heard result list.new ≡ hear_runs (kept_story story.now.view.sections story.now.file.now) (heard c.course.tally list.old) (over s (items_at story.now.file.now (body_run story.now.kept.now c.course.site.scope)) (steps_from c.first c.many)) }
{
    let own = Body {
        story,
        knot,
        course: c.course,
        steps: &[],
    };
    if own.is_clear(body) {
        return c.course.tally.pass_runs(usize::from(c.many));
    }
    validate_steps_by_number(story, knot, body, list, c)
}
