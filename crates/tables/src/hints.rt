// A table of entry numbers by the hash of a spelling. What stands in it are numbers to try: the entry is compared before it counts.
ghost use Rattle.std.specs.Prelude.{◌≡◌, ◌/◌, ◌≤◌, length};
ghost use Rattle.names.specs.Words.{any};
ghost use Rattle.symbols.specs.Fits.{answers};
ghost use Rattle.symbols.specs.Rows.{spellings_of};
ghost use Rattle.tables.specs.Hints.{dotted_hash, entry_hash, Answered};

use crate::hashes::{hash_of, hash_on};
use crate::seek;
use names::name_at;
use sets::{Sought, clear};
use symbols::targets::{EntryIndex, is_answer};
use symbols::{ABSENT, Places};

// Writes the number into the first empty slot of those that the hash has; where there is none, nothing.
fn put_hint(table: &mut [u32], hash: usize, number: u32)
    ensures { length table.new ≡ length table.old }
{
    if table.is_empty() {
        return;
    }
    if let Sought::Vacant(slot) = seek(table, hash, |_| false) {
        table[slot] = number;
    }
}

// The hash goes on over the name at the place and a dot, where there is a name.
fn hash_dotted(start: usize, file: &[u8], at: u32) -> usize
    ensures { result ≡ dotted_hash file.now start at }
{
    if at == ABSENT {
        return start;
    }
    hash_on(hash_on(start, name_at(file, at as usize)), b".")
}

// The hash of the spelling of an entry.
fn hash_entry(file: &[u8], p: Places) -> usize
    ensures { result ≡ entry_hash file.now p }
{
    let flow = hash_dotted(5381, file, p.flow);
    let stitch = hash_dotted(flow, file, p.stitch);
    hash_on(stitch, name_at(file, p.own as usize))
}

// How many entries have hints: at most as many as a file has bytes.
fn hinted_count(index: &EntryIndex<'_>) -> usize
    ensures { (result ≤ length index.now.numbers.now / 3) × (result ≤ 1048576) }
{
    index.len().min(1048576)
}

// Writes the numbers of the entries, plus 1, by their spellings and, where a flow's name stands before it, by their own names. Nothing is
// promised of what the table holds then.
pub fn put_hints(index: &EntryIndex<'_>, hints: &mut [u32])
    ensures { length hints.new ≡ length hints.old }
{
    clear(hints);
    for k in 0..hinted_count(index) {
        let p = index.entry_at(k);
        let number = k as u32 + 1;
        put_hint(hints, hash_entry(index.file, p), number);
        if p.flow != ABSENT {
            put_hint(hints, hash_of(name_at(index.file, p.own as usize)), number);
        }
    }
}

// Entry number k is one of the index, and its spelling answers the target.
fn entry_answers(index: &EntryIndex<'_>, k: usize, target: &[u8]) -> bool
    ensures { Answered target.now (spellings_of index.now) result }
{
    k < index.len() && is_answer(index.file, index.entry_at(k), target)
}

// One of the slots that the hash has leads to an entry that answers the target.
fn find_in_slots(index: &EntryIndex<'_>, table: &[u32], hash: usize, target: &[u8]) -> bool
    ensures { Answered target.now (spellings_of index.now) result }
{
    if table.is_empty() {
        return false;
    }
    let is_met = |number: usize| -> bool
        requires { number ≡ 0 → ⊥ }
        ensures { Answered target.entry.now (spellings_of index.entry.now) result }
    { entry_answers(index, number - 1, target) };
    let found = seek(table, hash, is_met);
    found == Sought::Found
}

// Some entry is spelled as the target, or ends in "." and the target: by the table, or by going through the entries.
pub fn find_target_in(index: &EntryIndex<'_>, hints: &[u32], target: &[u8]) -> bool
    ensures { result ≡ any (answers target.now) (spellings_of index.now) }
{
    find_in_slots(index, hints, hash_of(target), target) || index.has_target(target)
}
