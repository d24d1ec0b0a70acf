// The ends of an entry, put into a set name by name.
ghost use Rattle.std.specs.Prelude.{◌≡◌, ◌++◌, ◌<◌, is_err};
ghost use Rattle.sets.specs.Sets.{Reachable};
ghost use Rattle.targets.specs.Slots.{place_of, after, end_slots};
ghost use Rattle.targets.specs.Put.{PlaceFits, PartsFit, Gained};
ghost use Rattle.targets.specs.Entries.{ends_from, ends_with, PlacesFit, EntryPut};

use crate::ends::count_dots;
use crate::{DottedEnd, put_end};
use names::name_at;
use sets::Full;
use symbols::{ABSENT, Places};

// The place of a name of an entry, or none.
fn place_of(at: u32) -> Option<usize>
    ensures { result ≡ place_of at }
{
    if at == ABSENT {
        return None;
    }
    Some(at as usize)
}

// Puts the ends that begin in the name at the first place, with the names at the others after it. An error says that not all were put.
fn put_ends(
    file: &[u8],
    first: usize,
    second: Option<usize>,
    third: Option<usize>,
    set: &mut [u64],
) -> Result<(), Full>
    requires parts_fit { PartsFit first second third }
    requires reachable { Reachable (end_slots file.now) set.old }
    ensures { Gained (end_slots file.now) (ends_with file.now first (after file.now second ++ after file.now third)) set.old set.new (is_err result) }
{
    let dots = count_dots(name_at(file, first));
    for d in 0..=dots {
        if d == 16 {
            return Err(Full);
        }
        let e = DottedEnd {
            first,
            second,
            third,
            dots: d,
        };
        put_end(file, e, set)?;
    }
    Ok(())
}

// The same, where there is a first place.
fn put_from(
    file: &[u8],
    first: Option<usize>,
    second: Option<usize>,
    third: Option<usize>,
    set: &mut [u64],
) -> Result<(), Full>
    requires places_fit { PlaceFits first × PlaceFits second × PlaceFits third }
    requires reachable { Reachable (end_slots file.now) set.old }
    ensures { Gained (end_slots file.now) (ends_from file.now first (after file.now second ++ after file.now third)) set.old set.new (is_err result) }
{
    match first {
        None => Ok(()),
        Some(at) => put_ends(file, at, second, third, set),
    }
}

// Puts the ends of an entry: those that begin in its flow's name, in its stitch's and in its own. An error says that not all were put.
pub fn put_all_ends(file: &[u8], p: Places, set: &mut [u64]) -> Result<(), Full>
    requires places_fit { PlacesFit p }
    requires reachable { Reachable (end_slots file.now) set.old }
    ensures { EntryPut file.now p set.old set.new (is_err result) }
{
    let flow = place_of(p.flow);
    let stitch = place_of(p.stitch);
    let own = place_of(p.own);
    let flow_put = put_from(file, flow, stitch, own, set);
    let stitch_put = put_from(file, stitch, None, own, set);
    let own_put = put_from(file, own, None, None, set);
    flow_put.and(stitch_put).and(own_put)
}
