// Targets, calls and variable diverts: rules 1, 2, 3, 8 and 9 (diverts.rs).
ghost use Rattle.std.specs.Prelude.{◌≡◌, List, ℕ};
ghost use Rattle.records.specs.Items.{What};
ghost use Rattle.records.specs.Numbers.{item_in};
ghost use Rattle.rules.specs.Rules.{Known, Here};
ghost use Rattle.rules.specs.Steps.{targets, calls, variable_diverts};
ghost use Rattle.checks.specs.Judged.{judged_by, target_judged, call_judged, variable_divert_judged, argument_judged};
ghost use Rattle.checks.specs.Context.{known_in, here_at};

use crate::ScopeView;
use crate::known::{is_external, is_flow};
use crate::structure::{has_target, is_sort};
use crate::view::{IndexView, StoryView};
use items::items::item_name;
use names::{is_builtin_function, passes};
use records::sorts::Sort;
use rules::Rule;
use searches::is_counted;

impl IndexView<'_> {
    // A target: rules 1 and 2.
    fn check_target(&self, target: &[u8]) -> Option<Rule>
        ensures { result ≡ target_judged (known_in self.now.story.source.sections self.now.story.source.file.now) target.now }
    {
        if passes(target) {
            return None;
        }
        if self.story.is_function(target) {
            return Some(Rule::FunctionDivertedTo);
        }
        if self.is_target(target) {
            return None;
        }
        Some(Rule::TargetNotFound)
    }

    // The target of an item, of kinds 3, 4 and 5: rules 1 and 2.
    #[tactic(auto, using(crate::proofs::Cases::targets_judged))]
    pub fn validate_node_divert(&self, item: u32) -> Option<Rule>
        ensures { (h : Here) (before : List What) → result ≡ judged_by (known_in self.now.story.source.sections self.now.story.source.file.now) h targets before (item_in self.now.story.source.file.now item).what }
    {
        if has_target(item) {
            return self.check_target(item_name(self.story.source.file, item));
        }
        None
    }
}

impl StoryView<'_> {
    // A call name: rule 3.
    fn check_function_call_target(&self, name: &[u8]) -> Option<Rule>
        ensures { result ≡ call_judged (known_in self.now.source.sections self.now.source.file.now) name.now }
    {
        if self.is_function(name) || is_external(&self.source, name) || is_builtin_function(name) {
            return None;
        }
        if is_flow(&self.source, name) {
            return Some(Rule::FlowCalled);
        }
        None
    }

    // The call name of an item, of kind 16, condition 1 or expression 5: rule 3.
    #[tactic(auto, using(crate::proofs::Cases::calls_judged))]
    pub fn validate_node_function_calls(&self, item: u32) -> Option<Rule>
        ensures { (h : Here) (before : List What) → result ≡ judged_by (known_in self.now.source.sections self.now.source.file.now) h calls before (item_in self.now.source.file.now item).what }
    {
        if is_sort(item, Sort::Call) {
            return self.check_function_call_target(item_name(self.source.file, item));
        }
        None
    }
}

// A target that may be a parameter: rule 8.
#[tactic(auto, unfolding(crate::specs::Context::here_at))]
fn check_variable_divert_target(file: &[u8], scope: ScopeView, target: &[u8]) -> Option<Rule>
    ensures { (kept : List ℕ) → result ≡ variable_divert_judged (here_at file.now kept scope) target.now }
{
    if is_counted(file, scope.params, target) && !is_counted(file, scope.marks, target) {
        return Some(Rule::ParameterUnmarked);
    }
    None
}

// An argument that may be a DivertTarget of a divert parameter: rule 9.
#[tactic(auto, unfolding(crate::specs::Context::here_at))]
fn check_divert_target_arg(file: &[u8], scope: ScopeView, name: &[u8]) -> Option<Rule>
    ensures { (kept : List ℕ) → result ≡ argument_judged (here_at file.now kept scope) name.now }
{
    if is_counted(file, scope.marks, name) {
        return Some(Rule::ParameterAlreadyMarked);
    }
    None
}

// The target or the argument of an item: rules 8 and 9.
#[tactic(auto, using(crate::proofs::Cases::variable_diverts_judged))]
pub fn validate_node_variable_divert_target(
    file: &[u8],
    scope: ScopeView,
    item: u32,
) -> Option<Rule>
    ensures { (k : Known) (kept : List ℕ) (before : List What) → result ≡ judged_by k (here_at file.now kept scope) variable_diverts before (item_in file.now item).what }
{
    if has_target(item) {
        return check_variable_divert_target(file, scope, item_name(file, item));
    }
    if is_sort(item, Sort::Argument) {
        return check_divert_target_arg(file, scope, item_name(file, item));
    }
    None
}
