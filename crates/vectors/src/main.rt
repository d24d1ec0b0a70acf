// Replays checks from standard input, and writes for each its line, its entries, names and index, and whether the rest of the buffers stays.
// A check is three numbers of two bytes (numbers of the index, bytes of the message buffer, bytes of the file) and the file.
#![tactic(auto)]

use host::read_full;
use lines::check_line;
use rules::ABSENT;
use std::io;
use validator::Verdict;

// What the lent buffers hold before a check.
const BLANK_NUMBER: u32 = 2779096485;

const BLANK_BYTE: u8 = 165;

// What a check tells beside its line: its entries, the places of its names, and how many bytes its message has.
#[derive(Clone, Copy)]
struct Told {
    entries: usize,
    first: Option<usize>,
    second: Option<usize>,
    message: usize,
}

// A check: how many numbers of the index and bytes of the message buffer it is lent, and its file.
#[derive(Clone, Copy)]
struct Check<'a> {
    numbers: usize,
    bytes: usize,
    file: &'a [u8],
}

// The buffers of a check: the index, the message and the line.
#[derive(Drop)]
struct Buffers<'a> {
    index: &'a mut [u32],
    message: &'a mut [u8],
    out: &'a mut [u8],
}

// The place that a number says, or none.
fn place(n: usize) -> Option<usize> {
    Some(n).filter(|n| *n != ABSENT)
}

// What a verdict tells.
fn told_by(verdict: Verdict) -> Told {
    match verdict {
        Verdict::Accepted(entries) => Told {
            entries,
            first: None,
            second: None,
            message: 0,
        },
        Verdict::Breached(b) => Told {
            entries: b.entries,
            first: place(b.first),
            second: place(b.second),
            message: b.message,
        },
    }
}

// Writes a space and a place, or a dash for none.
fn print_place(rt: &impl Print, place: Option<usize>) -> io::Result<()> {
    match place {
        Some(n) => print!(rt; " {n}"),
        None => print!(rt; " -"),
    }
}

// Writes the numbers of the entries, three of each.
fn print_index(rt: &impl Print, index: &[u32], entries: usize) -> io::Result<()> {
    if entries == 0 {
        return Ok(());
    }
    print!(rt; "index")?;
    for n in index.iter().take(entries.saturating_mul(3)) {
        print_place(rt, place(*n as usize))?;
    }
    println!(rt; "")
}

impl<'a> Buffers<'a> {
    // Whether the index behind so many entries and the message buffer behind so many bytes are blank.
    fn rest_kept(&self, entries: usize, size: usize) -> bool {
        let mut numbers = self.index.iter().skip(entries.saturating_mul(3));
        let mut bytes = self.message.iter().skip(size);
        numbers.all(|n| *n == BLANK_NUMBER) && bytes.all(|b| *b == BLANK_BYTE)
    }

    // Writes whether the rest of the buffers stays.
    fn print_kept(&self, rt: &impl Print, entries: usize, size: usize) -> io::Result<()> {
        if self.rest_kept(entries, size) {
            println!(rt; "rest kept\n")
        } else {
            println!(rt; "rest changed\n")
        }
    }

    // Writes what a check tells beside its line, and whether the rest of the buffers stays.
    fn print_told(&self, rt: &impl Print, told: Told) -> io::Result<()> {
        print!(rt; "entries {}\nnames", told.entries)?;
        print_place(rt, told.first)?;
        print_place(rt, told.second)?;
        println!(rt; "")?;
        print_index(rt, self.index, told.entries)?;
        self.print_kept(rt, told.entries, told.message)
    }

    // Checks a file with blank buffers, and writes all that the check gives.
    fn replay(&mut self, rt: &impl Print, file: &[u8]) -> io::Result<()> {
        self.index.fill(BLANK_NUMBER);
        self.message.fill(BLANK_BYTE);
        let checked = check_line(file, self.index, self.message, self.out);
        rt.write_all(&self.out[..checked.length])?;
        match checked.answer {
            Ok(verdict) => self.print_told(rt, told_by(verdict)),
            Err(_) => self.print_kept(rt, 0, 0),
        }
    }
}

// Replays a check with so many of the numbers and bytes, where there are so many.
fn replay_lent(
    rt: &impl Print,
    check: Check<'_>,
    index: &mut [u32],
    message: &mut [u8],
    out: &mut [u8],
) -> io::Result<()> {
    let Some(index) = index.get_mut(..check.numbers) else {
        return Ok(());
    };
    let Some(message) = message.get_mut(..check.bytes) else {
        return Ok(());
    };
    let mut lent = Buffers {
        index,
        message,
        out,
    };
    lent.replay(rt, check.file)
}

// Replays the checks in s, up to one that is cut short.
fn replay_all(
    rt: &impl Print,
    s: &[u8],
    index: &mut [u32],
    message: &mut [u8],
    out: &mut [u8],
) -> io::Result<()> {
    let mut left = s;
    while let Some(([a, b, c, d, e, f], behind)) = left.split_first_chunk::<6>() {
        let Some((file, rest)) = behind.split_at_checked(length(*e, *f)) else {
            break;
        };
        let check = Check {
            numbers: length(*a, *b),
            bytes: length(*c, *d),
            file,
        };
        replay_lent(rt, check, index, message, out)?;
        left = rest;
    }
    Ok(())
}

// The length in two bytes.
fn length(low: u8, high: u8) -> usize {
    u16::from_le_bytes([low, high]) as usize
}

// Replays what is on standard input.
fn main(rt: HostRuntime) -> io::Result<()> {
    let mut space = [0u8; 131072];
    let mut index = [0u32; 12288];
    let mut message = [0u8; 704];
    let mut out = [0u8; 764];
    let n = read_full(&mut rt.reader(), space.as_mut_slice())?;
    replay_all(
        &rt,
        &space[..n],
        index.as_mut_slice(),
        message.as_mut_slice(),
        out.as_mut_slice(),
    )
}
