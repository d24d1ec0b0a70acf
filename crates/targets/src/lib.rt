// The targets that a story's entries answer, in a set: the dotted ends of their spellings. A slot is 0, or has an end: 1 + the place of its first
// name, the numbers of the second and the third, 20 bits each, and above that how many dots of the first name come before the end. The number
// of a place is 1 + the place, and 0 is the number of none.
#![tactic(auto)]

ghost use Rattle.std.specs.Prelude.{Some, ◌≡◌, [], ◌∷◌, ◌<◌, length, is_err};
ghost use Rattle.names.specs.Words.{one_of};
ghost use Rattle.sets.specs.Hashes.{hash_of};
ghost use Rattle.sets.specs.Sets.{held, Empty, Reachable, Looked, Ended};
ghost use Rattle.targets.specs.Slots.{numbered, InSlot, end_word, end_slots};
ghost use Rattle.targets.specs.Put.{PlaceFits, EndFits, Compared, Probed, Gained};
ghost use Rattle.targets.specs.Entries.{PlacesFit, EntryPut};

use ends::{hash_end, same_end, same_parts};
use entries::put_all_ends;
use sets::hashes::{hash_of, home_of};
use sets::{Full, Look, Sought, walk};
use symbols::Places;

pub mod ends;
pub mod entries;

// An end of a spelling: what follows so many dots of the name at the place `first`, and the names at the other two places after it, where there
// are such, each with a dot before it.
#[derive(Clone, Copy, PartialEq, Eq)]
pub struct DottedEnd {
    pub first: usize,
    pub second: Option<usize>,
    pub third: Option<usize>,
    pub dots: usize,
}

// The number of a place in a slot.
fn number_of(place: Option<usize>) -> usize
    requires { PlaceFits place }
    ensures { (numbered result ≡ place) × (result < 1048576) }
{
    match place {
        None => 0,
        Some(at) => at + 1,
    }
}

// The place of this number.
fn numbered(number: usize) -> Option<usize>
    ensures { result ≡ numbered number }
{
    if number == 0 {
        return None;
    }
    Some(number - 1)
}

impl DottedEnd {
    // The end that a slot has, or none where it is empty.
    pub fn in_slot(slot: u64) -> Option<DottedEnd>
        ensures { InSlot slot result }
    {
        if slot == 0 {
            return None;
        }
        let number = slot as usize - 1;
        Some(DottedEnd {
            first: number % 1048576,
            second: numbered(number / 1048576 % 1048576),
            third: numbered(number / 1099511627776 % 1048576),
            dots: number / 1152921504606846976,
        })
    }

    // The slot that has the end.
    pub fn slot(self) -> u64
        requires { EndFits self }
        ensures { InSlot result (Some self) }
    {
        let second = number_of(self.second);
        let third = number_of(self.third);
        (1 + (self.first
            + second * 1048576
            + third * 1099511627776
            + self.dots * 1152921504606846976)) as u64
    }
}

// Makes every slot of a set empty.
pub fn clear(set: &mut [u64])
    ensures { Empty set.new }
{
    set.fill(0);
}

// Goes over the slots of a word with this hash, from its home up to the word or an empty slot.
fn seek(file: &[u8], set: &[u64], word: &[u8], hash: u32) -> Sought
    requires hash_value { hash ≡ hash_of word.now }
    requires reachable { Reachable (end_slots file.now) set.now }
    ensures { Ended (end_slots file.now) set.now word.now result }
{
    let look = |at: usize| -> Look
        requires { at < length set.now }
        ensures { Looked (end_slots file.entry.now) set.entry.now word.entry.now at result }
    {
        match DottedEnd::in_slot(set[at]) {
            None => Look::Empty,
            Some(e) if same_end(file, e, word) => Look::Met,
            Some(_) => Look::Other,
        }
    };
    walk(home_of(hash, set.len()), set.len(), look)
}

// The word is one of those that the set holds.
pub fn has(file: &[u8], set: &[u64], word: &[u8]) -> bool
    requires { Reachable (end_slots file.now) set.now }
    ensures { result ≡ one_of word.now (held (end_slots file.now) set.now) }
{
    let found = seek(file, set, word, hash_of(word));
    found == Sought::Found
}

// Goes over the slots of an end with this hash, from its home up to the same names or an empty slot.
fn seek_end(file: &[u8], set: &[u64], e: DottedEnd, hash: u32) -> Sought
    requires { hash ≡ hash_of (end_word file.now e) }
    ensures { Probed (end_slots file.now) set.now (end_word file.now e) result }
{
    let look = |at: usize| -> Look
        requires { at < length set.now }
        ensures { Compared (end_slots file.entry.now) set.entry.now (end_word file.entry.now e) at result }
    {
        match DottedEnd::in_slot(set[at]) {
            None => Look::Empty,
            Some(f) if same_parts(file, e, f) => Look::Met,
            Some(_) => Look::Other,
        }
    };
    walk(home_of(hash, set.len()), set.len(), look)
}

// Puts an end into the set, unless it has no room from the end's home on.
pub fn put_end(file: &[u8], e: DottedEnd, set: &mut [u64]) -> Result<(), Full>
    requires end_fits { EndFits e }
    requires reachable { Reachable (end_slots file.now) set.old }
    ensures { Gained (end_slots file.now) (end_word file.now e ∷ []) set.old set.new (is_err result) }
{
    let hash = hash_end(file, e);
    let found = seek_end(file, set, e, hash);
    match found {
        Sought::Found => Ok(()),
        Sought::Vacant(at) => {
            set[at] = e.slot();
            Ok(())
        }
        Sought::Exhausted => Err(Full),
    }
}

// Puts the targets that an entry answers. An error says that not all were put: the set had no room, or a slot has none for more than 15 dots.
pub fn put_entry(file: &[u8], p: Places, set: &mut [u64]) -> Result<(), Full>
    requires places_fit { PlacesFit p }
    requires reachable { Reachable (end_slots file.now) set.old }
    ensures { EntryPut file.now p set.old set.new (is_err result) }
{
    if set.is_empty() {
        return Err(Full);
    }
    put_all_ends(file, p, set)
}
