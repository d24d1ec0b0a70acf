// The items of a body: the run of the kept numbers from one place to another.
ghost use Rattle.std.specs.Prelude.{◌≡◌, ◌≤◌, ◌<◌, length};
ghost use Rattle.records.specs.Numbers.{between};
ghost use Rattle.items.specs.Bodies.{Rising, rising_prop};
ghost use Rattle.items.specs.Runs.{number_before, numbers_from};

use crate::items::place_in;

// A slot from low on and before high: as far on again as low is, so that from the first slot on steps double, and not beyond the middle.
fn probe(low: usize, high: usize) -> usize
    requires { low < high }
    ensures { (low ≤ result) × (result < high) }
{
    let half = (high - low) / 2;
    if low < half {
        return low + low;
    }
    low + half
}

// Kept numbers, whose places never fall.
#[derive(Clone, Copy)]
pub struct KeptNumbers<'a> {
    pub numbers: &'a [u32],
    pub ghost rising: { Rising numbers.now } by { rising_prop numbers.now },
}

impl<'a> KeptNumbers<'a> {
    // How many of the numbers have a place before this one: found in steps that double, and then by halves, since places rise.
    pub fn count_before(self, place: usize) -> usize
        ensures { (result ≡ number_before place self.entry.numbers.now) × (result ≤ length self.entry.numbers.now) }
    {
        let mut low = 0;
        let mut high = self.numbers.len();
        while low < high {
            let slot = probe(low, high);
            if place_in(self.numbers[slot]) < place {
                low = slot + 1;
            } else {
                high = slot;
            }
        }
        low
    }

    // The numbers of the items from the place on.
    pub fn items_from(self, place: usize) -> KeptNumbers<'a>
        ensures { result.numbers.now ≡ numbers_from place self.entry.numbers.now }
    {
        let before = self.count_before(place);
        KeptNumbers {
            numbers: &self.numbers[before..],
        }
    }

    // The numbers of the items from the one place to the other.
    pub fn body_items(self, from: usize, to: usize) -> &'a [u32]
        ensures { result.now ≡ between from to self.entry.numbers.now }
    {
        let rest = self.items_from(from);
        let end = rest.count_before(to);
        &rest.numbers[..end]
    }
}

// A body of a file: its items are those from the one place to the other.
#[derive(Clone, Copy)]
pub struct KeptBody<'a> {
    pub file: &'a [u8],
    pub kept: KeptNumbers<'a>,
    pub from: usize,
    pub to: usize,
}

impl<'a> KeptBody<'a> {
    // The numbers of its items.
    pub fn items(self) -> &'a [u32]
        ensures { result.now ≡ between self.entry.from self.entry.to self.entry.kept.numbers.now }
    {
        self.kept.body_items(self.from, self.to)
    }
}
