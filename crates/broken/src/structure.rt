// Names, labels, gathers, choices and functions: rules 4 to 7 and 10 to 14 (structure.rs).
#![tactic(auto, using(crate::proofs::Answered::names_asked), unfolding(rules::specs::Rules::broken, crate::specs::Scopes::here_in))]

ghost use Rattle.std.specs.Prelude.{◌≡◌, List, ℕ, take};
ghost use Rattle.records.specs.Items.{What};
ghost use Rattle.story.specs.Story.{whats};
ghost use Rattle.items.specs.Bodies.{items_at};
ghost use Rattle.rules.specs.declared.Rule.TheVariants as Rule;
ghost use Rattle.rules.specs.Rules as rules;
ghost use Rattle.rules.specs.Rules.{broken};
ghost use Rattle.broken.specs.Things.{ThingIs};
ghost use Rattle.broken.specs.Scopes.{known_in, here_in, body_run, KnotSet, BodySet};

use crate::asked::Here;
use crate::{Scope, Thing};
use items::named::Sought;
use names::{is_end_or_done, name_at};
use records::sorts::Sort;
use searches::is_counted;
use sets::Class;
use sets::known::Known;
use sets::members::Among;

impl Thing {
    // Rule 4: a temp or a parameter with a function's name.
    pub fn is_name_of_function(&self, known: &Known<'_>) -> bool
        ensures { (h : rules.Here) (before : List What) (w : What) → ThingIs known.now.source.file.now self.now w → result ≡ broken (known_in known.now.source.sections known.now.source.file.now) h before Rule.NameIsFunction w }
    {
        (self.is(Sort::Temp) || self.is(Sort::Parameter))
            && known.is_function(name_at(known.source.file, self.name))
    }

    // Rule 5: a parameter or a stitch with a global's name.
    pub fn is_name_of_global(&self, known: &Known<'_>) -> bool
        ensures { (h : rules.Here) (before : List What) (w : What) → ThingIs known.now.source.file.now self.now w → result ≡ broken (known_in known.now.source.sections known.now.source.file.now) h before Rule.NameIsGlobal w }
    {
        (self.is(Sort::Parameter) || self.is(Sort::StitchName))
            && known.is_global(name_at(known.source.file, self.name))
    }

    // Rule 6: a temp with a parameter's name.
    pub fn is_temp_parameter(&self, file: &[u8], scope: Scope) -> bool
        ensures { (k : rules.Known) (kept : List ℕ) (before : List What) (w : What) → ThingIs file.now self.now w → result ≡ broken k (here_in file.now kept scope) before Rule.TempIsParameter w }
    {
        self.is(Sort::Temp) && is_counted(file, scope.params, name_at(file, self.name))
    }

    // Rule 11: a choice directly in a branch that does not leave.
    pub fn is_choice_undiverted(&self) -> bool
        ensures { (file : List ℕ) (k : rules.Known) (h : rules.Here) (before : List What) (w : What) → ThingIs file self.now w → result ≡ broken k h before Rule.ChoiceUndiverted w }
    {
        self.is(Sort::Choice) && self.branch && !self.leaves
    }

    // Rule 12: a function with stitches.
    pub fn is_function_with_stitches(&self, scope: Scope) -> bool
        ensures { (file kept : List ℕ) (k : rules.Known) (before : List What) (w : What) → ThingIs file self.now w → result ≡ broken k (here_in file kept scope) before Rule.FunctionWithStitches w }
    {
        self.is(Sort::FlowStart) && scope.stitched
    }

    // Rule 13: a function with a choice.
    pub fn is_function_with_choice(&self) -> bool
        ensures { (file : List ℕ) (k : rules.Known) (h : rules.Here) (before : List What) (w : What) → ThingIs file self.now w → result ≡ broken k h before Rule.FunctionWithChoice w }
    {
        self.is(Sort::Choice)
    }

    // Rule 14: a function with a Divert other than END or DONE.
    pub fn is_function_with_divert(&self, file: &[u8]) -> bool
        ensures { (k : rules.Known) (h : rules.Here) (before : List What) (w : What) → ThingIs file.now self.now w → result ≡ broken k h before Rule.FunctionWithDivert w }
    {
        self.is(Sort::Divert) && !is_end_or_done(name_at(file, self.name))
    }
}

impl Here<'_> {
    // Rule 7: a temp with a label's name.
    #[tactic(auto, using(crate::proofs::Among::labels_among), unfolding(rules::specs::Rules::broken, crate::specs::Scopes::here_in, story::specs::Flows::part))]
    pub fn is_temp_label(&self, knot: &[u32], t: Thing) -> bool
        requires { KnotSet self.now.file.now self.now.kept.now self.now.site knot.now }
        ensures { (k : rules.Known) (before : List What) (w : What) → ThingIs self.now.file.now t w → result ≡ broken k (here_in self.now.file.now self.now.kept.now self.now.site.scope) before Rule.TempIsLabel w }
    {
        if t.is(Sort::Temp) {
            let first = self.site.scope.knot;
            let end = self.site.scope.end;
            let items = &self.kept[first..end];
            let labels = Among {
                sought: Sought::Label,
                file: self.file,
                items,
                passed: items.len(),
                rest: self.site.rests.labels,
                class: Class::Label,
                set: knot,
            };
            return labels.has(name_at(self.file, t.name));
        }
        false
    }

    // Rule 10: a gather whose label another had earlier in the body, where so many items stand before it.
    #[tactic(auto, unfolding(rules::specs::Rules::broken, crate::specs::Scopes::here_in, story::specs::Flows::part))]
    pub fn is_gather_repeated(&self, body: &[u32], number: usize, t: Thing) -> bool
        requires { BodySet self.now.file.now self.now.kept.now self.now.site number body.now }
        ensures { (k : rules.Known) (h : rules.Here) (w : What) → ThingIs self.now.file.now t w → result ≡ broken k h (take number (whats (items_at self.now.file.now (body_run self.now.kept.now self.now.site.scope)))) Rule.GatherRepeated w }
    {
        if t.is(Sort::Gather) {
            let first = self.site.scope.first;
            let last = self.site.scope.last;
            let gathers = Among {
                sought: Sought::Gather,
                file: self.file,
                items: &self.kept[first..last],
                passed: number,
                rest: self.site.rests.gathers,
                class: Class::Gather,
                set: body,
            };
            return gathers.has(name_at(self.file, t.name));
        }
        false
    }
}
