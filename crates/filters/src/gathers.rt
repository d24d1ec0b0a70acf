// A filter over the gathers that a pass has met in a body: rule 10 (structure.rs).
ghost use Rattle.std.specs.Prelude.{◌≡◌, take};
ghost use Rattle.story.specs.Story.{whats};
ghost use Rattle.records.specs.Numbers.{item_in};
ghost use Rattle.items.specs.Bodies.{kept_in};
ghost use Rattle.items.specs.Search.{gather_among};
ghost use Rattle.rules.specs.Rules.{Known, Here};
ghost use Rattle.rules.specs.Steps.{gathers};
ghost use Rattle.checks.specs.Judged.{judged_by};
ghost use Rattle.checks.specs.Context.{what_at};
ghost use Rattle.filters.specs.Names.{Gathered, passed};

use crate::Wanted;
use crate::words::{add_item, lacks_word};
use checks::Slot;
use checks::structure::is_sort;
use items::items::item_name;
use items::named::has_gather_before;
use items::runs::KeptBody;
use records::sorts::Sort;
use rules::Rule;

// Adds the name of the item where it is a gather.
#[tactic(auto, unfolding(crate::specs::Names::passed))]
pub fn pass_item(file: &[u8], item: u32, filter: &mut [u8])
    ensures { filter.new ≡ passed filter.old (item_in file.now item).what }
{
    add_item(filter, Wanted::Sort(Sort::Gather), file, item);
}

// The name is the label of a gather before item number i of the body. Not searched for where the filter lacks it.
#[tactic(auto, using(crate::proofs::Bodies::no_gather))]
pub fn has_gather_in(body: &KeptBody<'_>, i: usize, filter: &[u8], name: &[u8]) -> bool
    requires { Gathered body.now.file.now body.now.kept.numbers.now body.now.from body.now.to i filter.now }
    ensures { result ≡ gather_among (take i (whats (kept_in body.now.file.now body.now.kept.numbers.now body.now.from body.now.to))) name.now }
{
    !lacks_word(filter, name) && has_gather_before(body.file, body.items(), i, name)
}

// The label of an item that is a gather, in the body: rule 10. The filter has the gathers before it.
#[tactic(auto, using(checks::proofs::Cases::gathers_judged))]
pub fn check_gather_label(body: &KeptBody<'_>, slot: Slot, filter: &[u8]) -> Option<Rule>
    requires { Gathered body.now.file.now body.now.kept.numbers.now body.now.from body.now.to slot.number filter.now }
    ensures { (k : Known) (h : Here) → result ≡ judged_by k h gathers (take slot.number (whats (kept_in body.now.file.now body.now.kept.numbers.now body.now.from body.now.to))) (what_at body.now.file.now slot) }
{
    if is_sort(slot.item, Sort::Gather) {
        let name = item_name(body.file, slot.item);
        if has_gather_in(body, slot.number, filter, name) {
            return Some(Rule::GatherRepeated);
        }
    }
    None
}
