// Targets, calls and variable diverts: rules 1, 2, 3, 8 and 9 (diverts.rs).
#![tactic(auto, using(crate::proofs::Answered::names_asked), unfolding(rules::specs::Rules::broken, crate::specs::Scopes::here_in))]

ghost use Rattle.std.specs.Prelude.{◌≡◌, List, ℕ};
ghost use Rattle.records.specs.Items.{What};
ghost use Rattle.rules.specs.declared.Rule.TheVariants as Rule;
ghost use Rattle.rules.specs.Rules as rules;
ghost use Rattle.rules.specs.Rules.{broken};
ghost use Rattle.broken.specs.Things.{ThingIs};
ghost use Rattle.broken.specs.Scopes.{known_in, here_in};

use crate::asked::Story;
use crate::known::{call_passes, is_target};
use crate::{Scope, Thing};
use names::{name_at, passes};
use records::sorts::Sort;
use searches::is_counted;
use sets::known::Known;

impl Thing {
    // Rule 1: a function diverted to.
    pub fn is_function_diverted_to(&self, known: &Known<'_>) -> bool
        ensures { (h : rules.Here) (before : List What) (w : What) → ThingIs known.now.source.file.now self.now w → result ≡ broken (known_in known.now.source.sections known.now.source.file.now) h before Rule.FunctionDivertedTo w }
    {
        if self.has_target() {
            let target = name_at(known.source.file, self.name);
            return !passes(target) && known.is_function(target);
        }
        false
    }

    // Rule 2: a target that is not found.
    pub fn is_target_not_found(&self, story: &Story<'_>) -> bool
        ensures { (h : rules.Here) (before : List What) (w : What) → ThingIs story.now.file.now self.now w → result ≡ broken (known_in story.now.view.sections story.now.file.now) h before Rule.TargetNotFound w }
    {
        if self.has_target() {
            let target = name_at(story.file, self.name);
            return !passes(target)
                && !story.known().is_function(target)
                && !is_target(story.file, story.kept, story.targets, story.view, target);
        }
        false
    }

    // Rule 3: a flow called that is no function.
    pub fn is_flow_called(&self, known: &Known<'_>) -> bool
        ensures { (h : rules.Here) (before : List What) (w : What) → ThingIs known.now.source.file.now self.now w → result ≡ broken (known_in known.now.source.sections known.now.source.file.now) h before Rule.FlowCalled w }
    {
        if self.is(Sort::Call) {
            let name = name_at(known.source.file, self.name);
            return !call_passes(known, name) && known.is_flow(name);
        }
        false
    }

    // Rule 8: a target that is a parameter without divert mark.
    pub fn is_parameter_unmarked(&self, file: &[u8], scope: Scope) -> bool
        ensures { (k : rules.Known) (kept : List ℕ) (before : List What) (w : What) → ThingIs file.now self.now w → result ≡ broken k (here_in file.now kept scope) before Rule.ParameterUnmarked w }
    {
        if self.has_target() {
            let target = name_at(file, self.name);
            return is_counted(file, scope.params, target) && !is_counted(file, scope.marks, target);
        }
        false
    }

    // Rule 9: an argument that is directly a DivertTarget of a divert parameter.
    pub fn is_parameter_already_marked(&self, file: &[u8], scope: Scope) -> bool
        ensures { (k : rules.Known) (kept : List ℕ) (before : List What) (w : What) → ThingIs file.now self.now w → result ≡ broken k (here_in file.now kept scope) before Rule.ParameterAlreadyMarked w }
    {
        self.is(Sort::Argument) && is_counted(file, scope.marks, name_at(file, self.name))
    }
}
