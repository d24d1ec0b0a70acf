// Choices, functions, parameters and stitch names: rules 4, 5 and 11 to 14 (structure.rs).
ghost use Rattle.std.specs.Prelude.{◌≡◌, List, ℕ, ◌==◌};
ghost use Rattle.records.specs.Items.{What, code, is};
ghost use Rattle.records.specs.Numbers.{item_in};
ghost use Rattle.rules.specs.Rules.{Known, Here, target};
ghost use Rattle.rules.specs.Steps.{bracket, Step, choices};
ghost use Rattle.checks.specs.Judged.{judged_by, param_judged, stitch_judged};
ghost use Rattle.checks.specs.Context.{known_in};

use crate::known::is_global;
use crate::view::StoryView;
use items::items::{choice_has_explicit_divert, in_branch, item_name, sort_in};
use names::is_end_or_done;
use records::sorts::Sort;
use rules::Rule;
use story::FileView;

// The item is of the sort.
#[tactic(auto, using(records::proofs::Codes::same_code))]
pub fn is_sort(item: u32, sort: Sort) -> bool
    ensures { (file : List ℕ) → result ≡ is sort (item_in file item).what }
{
    sort == sort_in(item)
}

// The item is of the sort that has the number.
#[tactic(auto, using(records::proofs::Codes::tag_code))]
pub fn has_sort_number(item: u32, number: u8) -> bool
    ensures { (file : List ℕ) → result ≡ (number == code (item_in file item).what.kind) }
{
    number == sort_in(item) as u8
}

// The item has a target: it is a divert, a tunnel or a thread.
pub fn has_target(item: u32) -> bool
    ensures { (file : List ℕ) → result ≡ target (item_in file item).what }
{
    is_sort(item, Sort::Divert) || is_sort(item, Sort::Tunnel) || is_sort(item, Sort::Thread)
}

// A choice directly in a branch that does not leave it: rule 11.
#[tactic(auto, using(crate::proofs::Cases::choices_judged))]
pub fn check_no_direct_choice_in_branch(item: u32) -> Option<Rule>
    ensures { (file : List ℕ) (k : Known) (h : Here) (before : List What) → result ≡ judged_by k h choices before (item_in file item).what }
{
    if is_sort(item, Sort::Choice) && in_branch(item) && !choice_has_explicit_divert(item) {
        return Some(Rule::ChoiceUndiverted);
    }
    None
}

// A choice, or a divert to neither END nor DONE, in a function: rules 13 and 14.
#[tactic(auto, using(crate::proofs::Recorded::purity_at))]
pub fn check_function_body_purity(file: &[u8], item: u32) -> Option<Rule>
    ensures { (k : Known) (h : Here) (before : List What) → result ≡ judged_by k h (bracket Step.s5) before (item_in file.now item).what }
{
    if is_sort(item, Sort::Choice) {
        return Some(Rule::FunctionWithChoice);
    }
    if is_sort(item, Sort::Divert) && !is_end_or_done(item_name(file, item)) {
        return Some(Rule::FunctionWithDivert);
    }
    None
}

// A stitch's name: rule 5.
pub fn check_stitch_name(source: &FileView<'_>, name: &[u8]) -> Option<Rule>
    ensures { result ≡ stitch_judged (known_in source.now.sections source.now.file.now) name.now }
{
    if is_global(source, name) {
        return Some(Rule::NameIsGlobal);
    }
    None
}

impl StoryView<'_> {
    // A parameter's name: rules 4 and 5.
    pub fn check_parameter_name(&self, name: &[u8]) -> Option<Rule>
        ensures { result ≡ param_judged (known_in self.now.source.sections self.now.source.file.now) name.now }
    {
        if self.is_function(name) {
            return Some(Rule::NameIsFunction);
        }
        if is_global(&self.source, name) {
            return Some(Rule::NameIsGlobal);
        }
        None
    }
}
