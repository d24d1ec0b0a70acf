// What one kept item is to the rules: by its number, and by the file at its place.
ghost use Rattle.std.specs.Prelude.{◌≡◌, List, ℕ, ◌<◌, drop};
ghost use Rattle.records.specs.Items.{name_start, nameless};
ghost use Rattle.records.specs.Numbers.{place_in, payload_at, item_in};

use fields::read_head;
use names::name_at;
use records::sorts::{Sort, is_flagged};

// The place of the item.
pub fn place_in(item: u32) -> usize
    ensures { (result ≡ place_in item) × ((file : List ℕ) → result ≡ (item_in file item).place) × (result < 1048576) }
{
    (item % 1048576) as usize
}

// The sort of the item.
#[tactic(auto, unfolding(records::specs::Numbers::item_in, records::specs::Numbers::sort_in))]
pub fn sort_in(item: u32) -> Sort
    ensures { (file : List ℕ) → result ≡ (item_in file item).what.kind }
{
    Sort::of(item / 1048576 % 16)
}

// The item stands directly in a branch of a conditional or a switch.
pub fn in_branch(item: u32) -> bool
    ensures { (file : List ℕ) → result ≡ (item_in file item).what.branch }
{
    item / 1048576 / 16 % 2 == 1
}

// The name of the item is a label.
pub fn is_labelled(item: u32) -> bool
    ensures { (file : List ℕ) → result ≡ (item_in file item).what.labels }
{
    item / 1048576 / 32 % 2 == 1
}

// The item is a choice whose body's last node that is no Newline leaves.
pub fn choice_has_explicit_divert(item: u32) -> bool
    ensures { (file : List ℕ) → result ≡ (item_in file item).what.leaves }
{
    item / 1048576 / 64 == 1
}

// What follows the first bytes.
fn tail<'a>(s: &'a [u8], at: usize) -> &'a [u8]
    ensures { result.now ≡ drop at s.now }
{
    &s[at.min(s.len())..]
}

// The payload of the record whose kind byte stands at the place.
fn payload_at<'a>(file: &'a [u8], place: usize) -> &'a [u8]
    ensures { result.now ≡ payload_at file.now place }
{
    let s = tail(file, place);
    let Ok((_kind, e)) = read_head(s) else {
        return &s[s.len()..];
    };
    &s[5..e]
}

// Where in the payload of an item of the sort its name begins.
#[tactic(auto, using(records::proofs::Codes::other_code), unfolding(records::specs::Items::name_start))]
fn name_start(sort: Sort) -> usize
    ensures { result ≡ name_start sort }
{
    match sort {
        Sort::Temp => 1,
        Sort::Choice => 1,
        _ => 0,
    }
}

// An item of the sort has no name.
#[tactic(auto, using(records::proofs::Codes::other_code), unfolding(records::specs::Items::nameless))]
fn is_nameless(sort: Sort, payload: &[u8]) -> bool
    ensures { result ≡ nameless sort payload.now }
{
    match sort {
        Sort::Plain => true,
        Sort::Choice => !is_flagged(payload),
        _ => false,
    }
}

// The name of the item: empty where it has none.
pub fn item_name<'a>(file: &'a [u8], item: u32) -> &'a [u8]
    ensures { result.now ≡ (item_in file.now item).what.name }
{
    let payload = payload_at(file, place_in(item));
    let sort = sort_in(item);
    if is_nameless(sort, payload) {
        return &payload[payload.len()..];
    }
    name_at(payload, name_start(sort))
}

// The place of the name's count byte.
pub fn named_at(item: u32) -> usize
    ensures { ((file : List ℕ) → result ≡ (item_in file item).named) × (result < 1048582) }
{
    place_in(item) + (5 + name_start(sort_in(item)))
}
