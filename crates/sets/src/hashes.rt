// The hash of a word, and its home: the slot from which on it is looked for.
ghost use Rattle.std.specs.Prelude.{◌≡◌, ◌*◌, ◌/◌, ◌<◌, ◌∷◌};
ghost use Rattle.sets.specs.Hashes.{hash_from, hash_of, homes};
ghost use Rattle.sets.specs.Sets.{number_of};

use crate::Class;

// The hash with which every word begins.
pub const START: u32 = 2166136261;

// The hash goes on over a word: for each byte a sum and a product, of which the low 32 bits are kept.
pub fn hash_on(start: u32, word: &[u8]) -> u32
    ensures { result ≡ hash_from start word.now }
{
    let mut hash = start;
    for &byte in word {
        hash = ((hash as u64 + byte as u64) * 2654435761 % 4294967296) as u32;
    }
    hash
}

// The hash of a word.
pub fn hash_of(word: &[u8]) -> u32
    ensures { result ≡ hash_of word.now }
{
    hash_on(START, word)
}

// The hash of a name in a class, which stands before it as a byte does.
pub fn hash_in(class: Class, name: &[u8]) -> u32
    ensures { result ≡ hash_of (number_of class ∷ name.now) }
{
    let first = (START as u64 + class.number() as u64) * 2654435761 % 4294967296;
    hash_on(first as u32, name)
}

// How many of so many slots are homes: seven of eight, so that a name whose home is the last of them has room too.
pub fn home_count(slots: usize) -> usize
    ensures { (result ≡ homes slots) × (result < 4294967296) }
{
    (slots - slots / 8).min(4294967295)
}

// The home of a hash among so many slots, by its high bits.
pub fn home_of(hash: u32, slots: usize) -> usize
    ensures { result ≡ hash * homes slots / 4294967296 }
{
    hash as usize * home_count(slots) / 4294967296
}
