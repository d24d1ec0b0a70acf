// Hashes of words, and the slots that a hash has in a table.
ghost use Rattle.std.specs.Prelude.{◌≡◌, ◌%◌, ◌<◌};
ghost use Rattle.tables.specs.Hashes.{hash_on, hash_of};
ghost use Rattle.tables.specs.Tables.{next_slot};

// How many slots are tried, from that of the hash on.
pub const TRIES: usize = 8;

// The hash of a word that goes on from another hash.
pub fn hash_on(start: usize, word: &[u8]) -> usize
    ensures { result ≡ hash_on start word.now }
{
    let mut hash = start % 1048576;
    for &byte in word {
        hash = (hash * 33 + byte as usize) % 1048576;
    }
    hash
}

// The hash of a word.
pub fn hash_of(word: &[u8]) -> usize
    ensures { result ≡ hash_of word.now }
{
    hash_on(5381, word)
}

// The slot of a hash in a table of so many slots.
pub fn slot_of(hash: usize, slots: usize) -> usize
    requires { 0 < slots }
    ensures { (result ≡ hash % slots) × (result < slots) }
{
    hash % slots
}

// The slot after this one, where the first follows the last.
pub fn next_slot(slot: usize, slots: usize) -> usize
    requires { slot < slots }
    ensures { (result ≡ next_slot slots slot) × (result < slots) }
{
    let next = slot + 1;
    if next < slots {
        return next;
    }
    0
}
