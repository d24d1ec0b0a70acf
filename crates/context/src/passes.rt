// The steps that go along a body: one loop over its items, for every step.
ghost use Rattle.std.specs.Prelude.{◌≡◌, false, List, [], ℕ, ◌≤◌, take, None};
ghost use Rattle.records.specs.Items.{What};
ghost use Rattle.story.specs.Story.{whats};
ghost use Rattle.records.specs.Numbers.{item_in};
ghost use Rattle.items.specs.Bodies.{kept_in};
ghost use Rattle.rules.specs.Rules.{Known, Here};
ghost use Rattle.checks.specs.Judged.{judged_by};
ghost use Rattle.checks.specs.Context.{known_in, here_at, what_at};
ghost use Rattle.filters.specs.Names.{Gathered};
ghost use Rattle.context.specs.Found.{rules_of, found_along, clear_at};
ghost use Rattle.context.specs.Scopes.{passes_found, passes_clear};

use crate::breaches::breach_at;
use crate::view::StepView;
use crate::{BreachAt, Pass};
use checks::diverts::validate_node_variable_divert_target;
use checks::structure::{
    check_function_body_purity, check_no_direct_choice_in_branch, has_target, is_sort,
};
use checks::{ScopeView, Slot};
use filters::gathers::{check_gather_label, pass_item};
use filters::words::clear_filter;
use items::items::{named_at, place_in};
use items::runs::KeptBody;
use records::sorts::Sort;
use rules::Rule;

// Steps 1 to 4.
pub const ROOT: [Pass; 4] = [Pass::Temps, Pass::Targets, Pass::Calls, Pass::Choices];

// Steps 7 to 11.
pub const FLOW: [Pass; 5] = [
    Pass::Temps,
    Pass::Targets,
    Pass::Calls,
    Pass::Choices,
    Pass::VariableDiverts,
];

// Steps 7 to 11 and 19.
pub const WHOLE_FLOW: [Pass; 6] = [
    Pass::Temps,
    Pass::Targets,
    Pass::Calls,
    Pass::Choices,
    Pass::VariableDiverts,
    Pass::Gathers,
];

// Steps 13 to 18.
pub const STITCH: [Pass; 6] = [
    Pass::Temps,
    Pass::Targets,
    Pass::Calls,
    Pass::VariableDiverts,
    Pass::Variables,
    Pass::Gathers,
];

// Steps 19 and 20.
pub const GATHERS: [Pass; 1] = [Pass::Gathers];

// Step 5.
pub const PURITY: [Pass; 1] = [Pass::Purity];

// The pass tests items of such a sort. Where it does not, the item breaks no rule of it.
#[tactic(auto, using(checks::proofs::Recorded::recorded_judged), unfolding(crate::specs::Found::rules_of))]
fn is_concerned(pass: Pass, item: u32) -> bool
    ensures { result ≡ false → (file : List ℕ) (k : Known) (h : Here) (before : List What) → None ≡ judged_by k h (rules_of pass) before (item_in file item).what }
{
    match pass {
        Pass::Temps => is_sort(item, Sort::Temp),
        Pass::Targets => has_target(item),
        Pass::Calls => is_sort(item, Sort::Call),
        Pass::Choices => is_sort(item, Sort::Choice),
        Pass::VariableDiverts => has_target(item) || is_sort(item, Sort::Argument),
        Pass::Variables => is_sort(item, Sort::Variable),
        Pass::Gathers => is_sort(item, Sort::Gather),
        Pass::Purity => is_sort(item, Sort::Choice) || is_sort(item, Sort::Divert),
    }
}

// How much of a filter for the body of the scope is used, of so many bytes: no more than the body has.
pub fn filter_room(scope: ScopeView, bytes: usize) -> usize
    requires { scope.from ≤ scope.to }
    ensures { result ≤ bytes }
{
    (scope.to - scope.from).min(bytes)
}

impl StepView<'_, '_> {
    // The rule of the pass that an item breaks first.
    #[tactic(auto, unfolding(crate::specs::Found::rules_of))]
    fn judge(&self, pass: Pass, slot: Slot, gathers: &[u8]) -> Option<Rule>
        requires { let b = self.now.place.body in Gathered b.file.now b.kept.numbers.now b.scope.from b.scope.to slot.number gathers.now }
        ensures { let b = self.now.place.body in let c = self.now.index.story.source.sections in result ≡ judged_by (known_in c b.file.now) (here_at b.file.now b.kept.numbers.now b.scope) (rules_of pass) (take slot.number (whats (kept_in b.file.now b.kept.numbers.now b.scope.from b.scope.to))) (what_at b.file.now slot) }
    {
        let item = slot.item;
        let file = self.place.body.file;
        let scope = self.place.body.scope;
        let body = KeptBody {
            file,
            kept: self.place.body.kept,
            from: scope.from,
            to: scope.to,
        };
        match pass {
            Pass::Temps => self.place.validate_temp_name(&self.index.story, item),
            Pass::Targets => self.index.validate_node_divert(item),
            Pass::Calls => self.index.story.validate_node_function_calls(item),
            Pass::Choices => check_no_direct_choice_in_branch(item),
            Pass::VariableDiverts => validate_node_variable_divert_target(file, scope, item),
            Pass::Variables => self.place.validate_node_vars(item),
            Pass::Gathers => check_gather_label(&body, slot, gathers),
            Pass::Purity => check_function_body_purity(file, item),
        }
    }

    // The rule of the pass that an item breaks first, which is judged only where the pass is concerned.
    fn judge_item(&self, pass: Pass, slot: Slot, gathers: &[u8]) -> Option<Rule>
        requires { let b = self.now.place.body in Gathered b.file.now b.kept.numbers.now b.scope.from b.scope.to slot.number gathers.now }
        ensures { let b = self.now.place.body in let c = self.now.index.story.source.sections in result ≡ judged_by (known_in c b.file.now) (here_at b.file.now b.kept.numbers.now b.scope) (rules_of pass) (take slot.number (whats (kept_in b.file.now b.kept.numbers.now b.scope.from b.scope.to))) (what_at b.file.now slot) }
    {
        if is_concerned(pass, slot.item) {
            return self.judge(pass, slot, gathers);
        }
        None
    }

    // The first breach of a pass along the body.
    fn validate_nodes(&self, pass: Pass) -> Option<BreachAt>
        ensures { let b = self.now.place.body in let c = self.now.index.story.source.sections in result ≡ found_along (known_in c b.file.now) (here_at b.file.now b.kept.numbers.now b.scope) b.scope.flow (rules_of pass) [] (kept_in b.file.now b.kept.numbers.now b.scope.from b.scope.to) }
    {
        let scope = self.place.body.scope;
        let items = self.place.body.kept.body_items(scope.from, scope.to);
        for (i, &item) in items.iter().enumerate() {
            if let Some(rule) = self.judge(pass, Slot { number: i, item }, &[]) {
                return Some(breach_at(rule, place_in(item), scope.flow, named_at(item)));
            }
        }
        None
    }

    // The item breaks no rule of the passes.
    fn is_item_clear(&self, passes: &[Pass], slot: Slot, gathers: &[u8]) -> bool
        requires { let b = self.now.place.body in Gathered b.file.now b.kept.numbers.now b.scope.from b.scope.to slot.number gathers.now }
        ensures { let b = self.now.place.body in let c = self.now.index.story.source.sections in result ≡ clear_at (known_in c b.file.now) (here_at b.file.now b.kept.numbers.now b.scope) passes.now (take slot.number (whats (kept_in b.file.now b.kept.numbers.now b.scope.from b.scope.to))) (what_at b.file.now slot) }
    {
        passes
            .iter()
            .all(|&pass| self.judge_item(pass, slot, gathers).is_none())
    }

    // No item of the body breaks a rule of the passes.
    fn is_body_clear(&self, passes: &[Pass], gathers: &mut [u8]) -> bool
        ensures { let b = self.now.place.body in result ≡ passes_clear b.file.now b.kept.numbers.now self.now.index.story.source.sections b.scope passes.now }
    {
        clear_filter(gathers);
        let file = self.place.body.file;
        let scope = self.place.body.scope;
        let items = self.place.body.kept.body_items(scope.from, scope.to);
        for (i, &item) in items.iter().enumerate() {
            if !self.is_item_clear(passes, Slot { number: i, item }, gathers) {
                return false;
            }
            pass_item(file, item, gathers);
        }
        true
    }

    // No item of the body breaks a rule of the passes, as one look at each item finds.
    pub fn is_clear(&self, passes: &[Pass], gathers: &mut [u8]) -> bool
        ensures { let b = self.now.place.body in result ≡ passes_clear b.file.now b.kept.numbers.now self.now.index.story.source.sections b.scope passes.now }
    {
        let room = filter_room(self.place.body.scope, gathers.len());
        self.is_body_clear(passes, &mut gathers[..room])
    }

    // The first breach of the passes, one pass after the other along the same body.
    #[tactic(auto, using(crate::proofs::Walks::quiet_start, crate::proofs::Walks::quiet_end, crate::proofs::Walks::quiet_next))]
    pub fn find_in_passes(&self, passes: &[Pass]) -> Option<BreachAt>
        ensures { let b = self.now.place.body in result ≡ passes_found b.file.now b.kept.numbers.now self.now.index.story.source.sections b.scope passes.now }
    {
        for &pass in passes {
            if let Some(breach) = self.validate_nodes(pass) {
                return Some(breach);
            }
        }
        None
    }

    // The first breach of the passes along the same body; none where one look at each item finds none.
    #[tactic(auto, using(crate::proofs::Clear::clear_passes))]
    pub fn validate_passes(&self, passes: &[Pass], gathers: &mut [u8]) -> Option<BreachAt>
        ensures { let b = self.now.place.body in result ≡ passes_found b.file.now b.kept.numbers.now self.now.index.story.source.sections b.scope passes.now }
    {
        if self.is_clear(passes, gathers) {
            return None;
        }
        self.find_in_passes(passes)
    }
}
