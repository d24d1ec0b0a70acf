// A visit of an entry: it is stored in the index, its targets are put into a set, and a target is compared with it.
ghost use Rattle.std.specs.Prelude.{◌≡◌, not, ◌||◌, [], ◌∷◌, ◌-◌, ◌<◌, eqb, length, get_or};
ghost use Rattle.symbols.specs.Numbers.{st};
ghost use Rattle.enumerator.specs.Numbers.{store};
ghost use Rattle.sets.specs.Sets.{Reachable};
ghost use Rattle.symbols.specs.Rows.{spelling_in};
ghost use Rattle.symbols.specs.Fits.{answers};
ghost use Rattle.targets.specs.Slots.{end_slots};
ghost use Rattle.targets.specs.Entries.{PlacesFit, Put};
ghost use Rattle.enumerator.specs.Visited.{Ready, Visited};

use crate::Seen;
use symbols::Places;
use symbols::entries::put_entry;
use symbols::targets::is_answer;

// Stores an entry after the n visited before it, where the index has room; how many were visited now.
fn store_entry(index: &mut [u32], n: usize, p: Places) -> usize
    requires { n < 1048576 }
    ensures { st index.new result ≡ store (st index.old n) p }
{
    put_entry(index, n, p);
    n + 1
}

// The last slot of the set is filled: names were put up to its end.
fn is_crowded(set: &[u64]) -> bool
    ensures { result ≡ not (eqb (get_or set.now (length set.now - 1) 0) 0) }
{
    set.last().is_some_and(|&last| last != 0)
}

// Puts the targets of an entry into the set, unless one was left out before and the set is filled up to its end; whether one is left out now.
fn put_targets(file: &[u8], p: Places, set: &mut [u64], left: bool) -> bool
    requires places_fit { PlacesFit p }
    requires reachable { Reachable (end_slots file.now) set.old }
    ensures { Put file.now (p ∷ []) set.old set.new left result }
{
    if left && is_crowded(set) {
        return true;
    }
    let full = targets::put_entry(file, p, set).is_err();
    left || full
}

// The target was found before, or the entry answers it.
fn ask_entry(file: &[u8], p: Places, target: &[u8], found: bool) -> bool
    ensures { result ≡ found || answers target.now (spelling_in file.now p) }
{
    found || is_answer(file, p, target)
}

// Visits an entry: stores and counts it, puts its targets, and compares the target where it was not found before.
pub fn visit_entry(
    file: &[u8],
    p: Places,
    target: &[u8],
    index: &mut [u32],
    set: &mut [u64],
    seen: Seen,
) -> Seen
    requires { Ready file.now (p ∷ []) set.old seen.count }
    ensures { Visited file.now target.now (p ∷ []) index.old set.old seen index.new set.new result }
{
    let count = store_entry(index, seen.count, p);
    let left = put_targets(file, p, set, seen.left);
    let found = ask_entry(file, p, target, seen.found);
    Seen { count, left, found }
}
