// A filter over words in a lent buffer: a word that was added has a 1 at its slot, and a 0 there says that it was not.
ghost use Rattle.std.specs.Prelude.{◌≡◌, List, ℕ};
ghost use Rattle.names.specs.Words.{each};
ghost use Rattle.story.specs.Flows.{counted_in};
ghost use Rattle.story.specs.Story.{words, whats};
ghost use Rattle.records.specs.Numbers.{item_in};
ghost use Rattle.records.specs.Buffers.{cleared};
ghost use Rattle.items.specs.Bodies.{items_at};
ghost use Rattle.filters.specs.Words.{added, added_all, lacks, wants, named, sort_named};

use crate::Wanted;
use checks::structure::{has_sort_number, is_sort};
use items::items::{is_labelled, item_name};
use searches::name_views::counted;
use tables::hashes::{hash_of, slot_of};

// Adds a word. A filter without slots stays.
#[tactic(auto, using(crate::proofs::Slots::added_none, crate::proofs::Slots::added_at))]
pub fn add_word(filter: &mut [u8], word: &[u8])
    ensures { filter.new ≡ added filter.old word.now }
{
    if filter.len() == 0 {
        return;
    }
    let slot = slot_of(hash_of(word), filter.len());
    filter[slot] = 1;
}

// The word was not added. A filter without slots says it of none.
#[tactic(auto, using(crate::proofs::Slots::lacks_none, crate::proofs::Slots::lacks_at))]
pub fn lacks_word(filter: &[u8], word: &[u8]) -> bool
    ensures { result ≡ lacks filter.now word.now }
{
    if filter.len() == 0 {
        return false;
    }
    let slot = slot_of(hash_of(word), filter.len());
    filter[slot] == 0
}

// Empties the filter.
#[tactic(auto, unfolding(records::specs::Buffers::cleared))]
pub fn clear_filter(filter: &mut [u8])
    ensures { filter.new ≡ cleared filter.old }
{
    filter.fill(0);
}

// Adds the names that the count byte at the front of s counts.
pub fn add_counted(filter: &mut [u8], s: &[u8])
    ensures { filter.new ≡ added_all filter.old (words (counted_in 0 s.now)) }
{
    for name in counted(s, 0) {
        add_word(filter, name.bytes);
    }
}

// The item is one of those wanted.
fn is_wanted(wanted: Wanted, item: u32) -> bool
    ensures { (file : List ℕ) → result ≡ wants wanted (item_in file item).what }
{
    match wanted {
        Wanted::Sort(sort) => is_sort(item, sort),
        Wanted::Label => is_labelled(item),
    }
}

// Adds the name of the item where it is wanted.
#[tactic(auto, using(crate::proofs::Adding::item_added, crate::proofs::Adding::item_passed))]
pub fn add_item(filter: &mut [u8], wanted: Wanted, file: &[u8], item: u32)
    ensures { filter.new ≡ added_all filter.old (named wanted (item_in file.now item).what) }
{
    if is_wanted(wanted, item) {
        add_word(filter, item_name(file, item));
    }
}

// Adds the name of the item where it is of the sort that has the number.
#[tactic(auto, using(crate::proofs::Adding::numbered_added, crate::proofs::Adding::numbered_passed))]
pub fn add_item_of_number(filter: &mut [u8], number: u8, file: &[u8], item: u32)
    ensures { filter.new ≡ added_all filter.old (sort_named number (item_in file.now item).what) }
{
    if has_sort_number(item, number) {
        add_word(filter, item_name(file, item));
    }
}

// Adds the names of those items that are wanted.
pub fn add_items(filter: &mut [u8], wanted: Wanted, file: &[u8], items: &[u32])
    ensures { filter.new ≡ added_all filter.old (each (named wanted) (whats (items_at file.now items.now))) }
{
    for &item in items {
        add_item(filter, wanted, file, item);
    }
}
