// Tables in lent buffers, by which the names of a story are found without going through all of them.
#![tactic(auto)]

ghost use Rattle.std.specs.Prelude.{◌≡◌, ◌%◌, ◌<◌, ℕ, length};
ghost use Rattle.tables.specs.Tables.{EndsAt};

use hashes::{TRIES, next_slot, slot_of};
use sets::Sought;

pub mod functions;
pub mod hashes;
pub mod hints;

// Looks at slot after slot of those that a hash has, up to one that is empty or whose number is met.
pub fn seek<F: Fn(usize) -> bool>(table: &[u32], hash: usize, is_met: F) -> Sought
    requires slots { 0 < length table.now }
    requires callable { (number : ℕ) → (number ≡ 0 → ⊥) → F.pre is_met number }
    ensures ends { EndsAt (F.post is_met) 8 table.now (hash % length table.now) result }
    ensures inside { (slot : ℕ) → result ≡ Sought.Vacant slot → slot < length table.now }
{
    let mut slot = slot_of(hash, table.len());
    for _tried in 0..TRIES {
        let number = table[slot] as usize;
        if number == 0 {
            return Sought::Vacant(slot);
        }
        if is_met(number) {
            return Sought::Found;
        }
        slot = next_slot(slot, table.len());
    }
    Sought::Exhausted
}
