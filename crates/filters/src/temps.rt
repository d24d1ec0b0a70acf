// Temps: rules 4, 6 and 7 (structure.rs). The filter has the labels of the knot.
ghost use Rattle.std.specs.Prelude.{◌≡◌, List};
ghost use Rattle.records.specs.Items.{What};
ghost use Rattle.records.specs.Numbers.{item_in};
ghost use Rattle.rules.specs.Steps.{temps};
ghost use Rattle.checks.specs.Judged.{judged_by, temp_judged};
ghost use Rattle.checks.specs.Context.{known_in, here_at};

use crate::view::DeclaredView;
use checks::structure::is_sort;
use checks::view::StoryView;
use items::items::item_name;
use records::sorts::Sort;
use rules::Rule;
use searches::is_counted;

impl DeclaredView<'_, '_> {
    // A temp's name: rules 4, 6 and 7.
    #[tactic(auto, unfolding(checks::specs::Context::here_at))]
    fn check_temp_name(&self, story: &StoryView<'_>, name: &[u8]) -> Option<Rule>
        ensures { result ≡ temp_judged (known_in story.now.source.sections story.now.source.file.now) (here_at self.now.body.file.now self.now.body.kept.numbers.now self.now.body.scope) name.now }
    {
        if story.is_function(name) {
            return Some(Rule::NameIsFunction);
        }
        if is_counted(self.body.file, self.body.scope.params, name) {
            return Some(Rule::TempIsParameter);
        }
        if self.is_label_in(name) {
            return Some(Rule::TempIsLabel);
        }
        None
    }

    // The name of an item that is a temp: rules 4, 6 and 7.
    #[tactic(auto, using(checks::proofs::Recorded::temps_at))]
    pub fn validate_temp_name(&self, story: &StoryView<'_>, item: u32) -> Option<Rule>
        ensures { (before : List What) → result ≡ judged_by (known_in story.now.source.sections story.now.source.file.now) (here_at self.now.body.file.now self.now.body.kept.numbers.now self.now.body.scope) temps before (item_in self.now.body.file.now item).what }
    {
        if is_sort(item, Sort::Temp) {
            return self.check_temp_name(story, item_name(self.body.file, item));
        }
        None
    }
}
