// Searches in a body for an item that bears a name.
ghost use Rattle.std.specs.Prelude.{◌≡◌, List, ℕ, take};
ghost use Rattle.story.specs.Story.{whats};
ghost use Rattle.records.specs.Numbers.{item_in};
ghost use Rattle.items.specs.Bodies.{items_at};
ghost use Rattle.items.specs.Search.{label_in, temp_in, gather_among, of_sort, bears, found_among};

use crate::items::{is_labelled, item_name, sort_in};
use names::same_name;
use records::sorts::Sort;

// What is sought: a label, a temp, or the label of a gather.
#[derive(Clone, Copy)]
pub enum Sought {
    Label,
    Temp,
    Gather,
}

// The item is of the sought sort.
#[tactic(auto, using(records::proofs::Codes::same_code), unfolding(crate::specs::Search::of_sort))]
pub fn is_of_sort(sought: Sought, item: u32) -> bool
    ensures { (file : List ℕ) → result ≡ of_sort sought (item_in file item).what }
{
    match sought {
        Sought::Label => is_labelled(item),
        Sought::Temp => Sort::Temp == sort_in(item),
        Sought::Gather => Sort::Gather == sort_in(item),
    }
}

// The item is of the sought sort and bears the name.
fn bears_name(sought: Sought, file: &[u8], item: u32, name: &[u8]) -> bool
    ensures { result ≡ bears sought name.now (item_in file.now item).what }
{
    is_of_sort(sought, item) && same_name(name, item_name(file, item))
}

// Some of the items is of the sought sort and bears the name.
pub fn found_in(sought: Sought, file: &[u8], items: &[u32], name: &[u8]) -> bool
    ensures { result ≡ found_among sought (whats (items_at file.now items.now)) name.now }
{
    items
        .iter()
        .any(|&item| bears_name(sought, file, item, name))
}

// The name is a label of one of the items.
pub fn has_label(file: &[u8], items: &[u32], name: &[u8]) -> bool
    ensures { result ≡ label_in (items_at file.now items.now) name.now }
{
    found_in(Sought::Label, file, items, name)
}

// The name is that of a temp among the items.
pub fn has_temp(file: &[u8], items: &[u32], name: &[u8]) -> bool
    ensures { result ≡ temp_in (items_at file.now items.now) name.now }
{
    found_in(Sought::Temp, file, items, name)
}

// The name is the label of a gather among the first so many items.
pub fn has_gather_before(file: &[u8], items: &[u32], i: usize, name: &[u8]) -> bool
    ensures { result ≡ gather_among (take i (whats (items_at file.now items.now))) name.now }
{
    found_in(Sought::Gather, file, &items[..i.min(items.len())], name)
}
