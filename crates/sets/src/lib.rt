// Sets of the names of a file, in lent slices, each name in a class. A slot is 0, or has a name: 1 + its place, and above that a tag,
// the class with some bits of the hash, so that most other names are told apart without reading the file. A name stands in the first
// slot that was empty from its home on; the slots are not gone round, and every slot up to the last is tried.
#![tactic(auto)]

ghost use Rattle.std.specs.Prelude.{◌≡◌, ◌∷◌, ◌<◌, ℕ, length};
ghost use Rattle.names.specs.Words.{Bytes, same, one_of};
ghost use Rattle.names.specs.Counted.{name_at};
ghost use Rattle.sets.specs.Hashes.{hash_of, tag_of};
ghost use Rattle.sets.specs.Sets.{number_of, name_slots, held, Empty, Reachable, Walked, Looked, Ended, PutIn};

use hashes::{hash_in, home_of};
use names::{name_at, same_at};

pub mod hashes;
pub mod known;
pub mod members;

// The classes of names: four of the story's names, and three of the items of a knot or of a body, which stand in other sets.
#[derive(Clone, Copy, PartialEq, Eq)]
pub enum Class {
    Global,
    External,
    Flow,
    Function,
    Label,
    Temp,
    Gather,
}

impl Class {
    // The number of a class in the slots of its set.
    pub fn number(self) -> usize
        ensures { (result ≡ number_of self) × (result < 4) }
    {
        match self {
            Class::Global | Class::Label => 0,
            Class::External | Class::Temp => 1,
            Class::Flow | Class::Gather => 2,
            Class::Function => 3,
        }
    }
}

// What a slot is to a walk that looks for a word: empty, with the word, or with another.
#[derive(Clone, Copy, PartialEq, Eq)]
pub enum Look {
    Empty,
    Met,
    Other,
}

// Where the walk over the slots of a word ends: at the word, at an empty slot, or past the last slot.
#[derive(Clone, Copy, PartialEq, Eq)]
pub enum Sought {
    Found,
    Vacant(usize),
    Exhausted,
}

// A set has no room for a name.
#[derive(Clone, Copy, PartialEq, Eq)]
pub struct Full;

// Makes every slot of a set empty.
pub fn clear(set: &mut [u32])
    ensures { Empty set.new }
{
    set.fill(0);
}

// Looks at slot after slot, from the home of a word up to the word or an empty slot.
pub fn walk<F: Fn(usize) -> Look>(home: usize, slots: usize, look: F) -> Sought
    requires { (at : ℕ) → at < slots → F.pre look at }
    ensures { Walked (F.post look) home slots result }
{
    for at in home..slots {
        match look(at) {
            Look::Empty => return Sought::Vacant(at),
            Look::Met => return Sought::Found,
            Look::Other => {}
        }
    }
    Sought::Exhausted
}

// The tag of a name in the class, by their hash.
fn tag_of(class: Class, hash: u32) -> usize
    ensures tag { (w : Bytes) → hash ≡ hash_of (number_of class ∷ w) → result ≡ tag_of (number_of class ∷ w) }
    ensures bound { result < 2048 }
{
    class.number() + 4 * (hash as usize % 512)
}

// The slot has the name in the class, whose tag this is. The file is read only where the tags are the same.
fn holds(file: &[u8], slot: usize, class: Class, tag: usize, name: &[u8]) -> bool
    requires { (slot ≡ 0 → ⊥) × (tag ≡ tag_of (number_of class ∷ name.now)) × ((name_slots file.now).mark slot ≡ tag_of ((name_slots file.now).word slot)) }
    ensures { result ≡ same (number_of class ∷ name.now) ((name_slots file.now).word slot) }
{
    let number = slot - 1;
    number / 1048576 == tag && same_at(file, number % 1048576, name)
}

// Goes over the slots of a name in the class with this hash, from its home up to the name or an empty slot.
fn seek(file: &[u8], set: &[u32], class: Class, name: &[u8], hash: u32) -> Sought
    requires hash_value { hash ≡ hash_of (number_of class ∷ name.now) }
    requires reachable { Reachable (name_slots file.now) set.now }
    ensures { Ended (name_slots file.now) set.now (number_of class ∷ name.now) result }
{
    let tag = tag_of(class, hash);
    let look = |at: usize| -> Look
        requires in_bounds { (at < length set.now) × (tag ≡ tag_of (number_of class ∷ name.now)) }
        requires reachable { Reachable (name_slots file.now) set.now }
        ensures { Looked (name_slots file.entry.now) set.entry.now (number_of class ∷ name.entry.now) at result }
    {
        let slot = set[at] as usize;
        if slot == 0 {
            Look::Empty
        } else if holds(file, slot, class, tag, name) {
            Look::Met
        } else {
            Look::Other
        }
    };
    walk(home_of(hash, set.len()), set.len(), look)
}

// The name is one of those that the set holds in the class.
pub fn has(file: &[u8], set: &[u32], class: Class, name: &[u8]) -> bool
    requires { Reachable (name_slots file.now) set.now }
    ensures { result ≡ one_of (number_of class ∷ name.now) (held (name_slots file.now) set.now) }
{
    let found = seek(file, set, class, name, hash_in(class, name));
    found == Sought::Found
}

// Puts the name whose count byte stands at the place into the set, in the class, unless the set holds it there or has no room from its home
// on. The answer is that the name is new.
pub fn put(file: &[u8], place: usize, class: Class, set: &mut [u32]) -> Result<bool, Full>
    requires place_bound { place < 1048576 }
    requires reachable { Reachable (name_slots file.now) set.old }
    ensures { PutIn (name_slots file.now) (number_of class ∷ name_at file.now place) set.old set.new result }
{
    let name = name_at(file, place);
    let hash = hash_in(class, name);
    let found = seek(file, set, class, name, hash);
    match found {
        Sought::Found => Ok(false),
        Sought::Vacant(slot) => {
            set[slot] = (1 + (place + tag_of(class, hash) * 1048576)) as u32;
            Ok(true)
        }
        Sought::Exhausted => Err(Full),
    }
}
