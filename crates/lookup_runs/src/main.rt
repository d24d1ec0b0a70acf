// Looks targets up in stories that it builds, then in those of the lookup blocks of differential/vectors.txt, which it reads from standard input.
// Writes a line for each: target, answer, entry, the index as it was lent, entry count, and whether the rest of the index stays.
#![tactic(auto)]

mod listed;
mod shown;
mod stories;

use builder::Builder;
use host::read_full;
use listed::Block;
use shown::{BLANK, Lookup, show_index};
use std::io;
use stories::{put_cut_name, put_deep, put_global, put_start, put_story, put_unknown};

// The place of the name in the root's divert.
const NOWHERE: u32 = 278;

// Looks targets up in a file.
fn show_each(rt: &impl Print, file: &[u8], index: &mut [u32], targets: &[&[u8]]) -> io::Result<()> {
    for target in targets {
        let lookup = Lookup {
            file,
            target,
            fill: BLANK,
        };
        lookup.show(rt, index)?;
    }
    Ok(())
}

// Targets that pass, and a function that is also spelled by a global; the first with the numbers of the index.
fn show_passing(rt: &impl Print, file: &[u8], index: &mut [u32]) -> io::Result<()> {
    let lookup = Lookup {
        file,
        target: b"",
        fill: BLANK,
    };
    let entries = lookup.show(rt, index)?;
    show_index(rt, index, entries)?;
    show_each(rt, file, index, &[b"->", b"$x", b"f"])
}

// Reserved words, the first also spelled by a global.
fn show_reserved(rt: &impl Print, file: &[u8], index: &mut [u32]) -> io::Result<()> {
    show_each(rt, file, index, &[b"END", b"DONE", b"->->"])
}

// Targets that are spelled by an entry that stands alone.
fn show_alone(rt: &impl Print, file: &[u8], index: &mut [u32]) -> io::Result<()> {
    show_each(rt, file, index, &[b"g", b"r", b"k", b"p", b"q", b"c"])
}

// Targets that are spelled by an entry with its flow.
fn show_exact(rt: &impl Print, file: &[u8], index: &mut [u32]) -> io::Result<()> {
    show_each(rt, file, index, &[b"k.a", b"k.s", b"k.s.b", b".s", b".s.d"])
}

// Targets that an entry ends in.
fn show_endings(rt: &impl Print, file: &[u8], index: &mut [u32]) -> io::Result<()> {
    show_each(rt, file, index, &[b"a", b"s", b"b", b"s.b", b"d", b"s.d"])
}

// Targets that nothing matches.
fn show_missing(rt: &impl Print, file: &[u8], index: &mut [u32]) -> io::Result<()> {
    show_each(
        rt,
        file,
        index,
        &[b"e", b"nowhere", b"k.b", b".a", b"k.s.", b"k.s.b."],
    )
}

// Targets of 255 bytes, which are a global, of 256 and of 1,000.
fn show_long(rt: &impl Print, file: &[u8], index: &mut [u32], long: &[u8]) -> io::Result<()> {
    for n in [255, 256, 1000] {
        let Some(target) = long.get(..n) else {
            break;
        };
        let lookup = Lookup {
            file,
            target,
            fill: BLANK,
        };
        lookup.show(rt, index)?;
    }
    Ok(())
}

// An index exactly long enough, one number short and one longer, and one that holds false entries.
fn show_lengths(rt: &impl Print, file: &[u8], index: &mut [u32]) -> io::Result<()> {
    if file.len() < 21 || 1024 < file.len() {
        return Ok(());
    }
    let enough = 3 * (file.len() - 20);
    let blank = Lookup {
        file,
        target: b"k.s.b",
        fill: BLANK,
    };
    blank.show_lent(rt, index, enough)?;
    blank.show_lent(rt, index, enough - 1)?;
    blank.show_lent(rt, index, enough + 1)?;
    let filled = Lookup {
        file,
        target: b"nowhere",
        fill: NOWHERE,
    };
    filled.show_lent(rt, index, enough)?;
    let longer = Lookup {
        target: b"nowhere.nowhere.nowhere",
        ..filled
    };
    longer.show_lent(rt, index, enough)
}

// Every kind of target in the story.
fn show_targets(rt: &impl Print, file: &[u8], index: &mut [u32], long: &[u8]) -> io::Result<()> {
    show_passing(rt, file, index)?;
    show_reserved(rt, file, index)?;
    show_alone(rt, file, index)?;
    show_exact(rt, file, index)?;
    show_endings(rt, file, index)?;
    show_missing(rt, file, index)?;
    show_long(rt, file, index, long)?;
    show_lengths(rt, file, index)
}

// Looks a global up in what the closure puts.
fn show_put<P: Print, F: FnOnce(&mut Builder)>(
    rt: &P,
    space: &mut [u8],
    index: &mut [u32],
    put: F,
) -> io::Result<()>
    requires { F.IsAlwaysCallable put }
{
    let mut file = Builder::new(space);
    put(&mut file);
    show_each(rt, file.file(), index, &[b"g"])
}

// Refusals 1 to 6, by the examples of the table of refusals.
fn show_refused(rt: &impl Print, space: &mut [u8], index: &mut [u32]) -> io::Result<()> {
    show_put(rt, space, index, |_| {})?;
    show_put(rt, space, index, |file| file.zeros(20))?;
    show_put(rt, space, index, |file| put_start(file, 1))?;
    show_put(rt, space, index, |file| put_cut_name(file))?;
    show_put(rt, space, index, |file| put_unknown(file))?;
    show_put(rt, space, index, |file| put_deep(file))
}

// Refusal 7, the same story with one number more, and the empty story with no index.
fn show_short(rt: &impl Print, space: &mut [u8], index: &mut [u32]) -> io::Result<()> {
    let mut file = Builder::new(space);
    put_global(&mut file, b"a");
    let global = Lookup {
        file: file.file(),
        target: b"a",
        fill: BLANK,
    };
    global.show_lent(rt, index, 5)?;
    global.show_lent(rt, index, 6)?;
    file.clear();
    put_start(&mut file, 0);
    let empty = Lookup {
        file: file.file(),
        target: b"a",
        fill: BLANK,
    };
    empty.show_lent(rt, index, 0)
}

// Every lookup in stories that are built in the lent buffer.
fn show_built(rt: &impl Print, space: &mut [u8], index: &mut [u32], long: &[u8]) -> io::Result<()> {
    if long.len() < 255 {
        return Ok(());
    }
    let mut story = Builder::new(space);
    put_story(&mut story, &long[..255]);
    show_targets(rt, story.file(), index, long)?;
    show_refused(rt, space, index)?;
    show_short(rt, space, index)
}

// Lends the buffers, one of them filled with the letter n: looks up in the stories that are built, then by the list on standard input.
fn main(rt: HostRuntime) -> io::Result<()> {
    let mut text = [0u8; 32768];
    let mut file = [0u8; 1024];
    let mut index = [0u32; 3072];
    let mut long = [b'n'; 1024];
    show_built(&rt, file.as_mut_slice(), index.as_mut_slice(), &long)?;
    let n = read_full(&mut rt.reader(), text.as_mut_slice())?;
    let mut block = Block::new(file.as_mut_slice(), long.as_mut_slice());
    block.show_list(&rt, &text[..n], index.as_mut_slice())
}
