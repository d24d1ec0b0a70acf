// Reads files from standard input, each after its length in two bytes, and writes two lines for each: `read KEPT ALL SUM`, or `refused N SUM`.
// The first is with 512 numbers lent, the second with 3; SUM is over all of them, also those that reading leaves alone; after a refusal each is 0.
// Then does the same for the limits on a file's length and for the last place of a record, in files that it builds in a buffer.
#![tactic(auto)]

ghost use Rattle.std.specs.Prelude.{◌≤◌};

use builder::{Builder, Kind, Starts};
use fields::refusal_number;
use host::read_full;
use std::io;
use story::read;

// What the lent numbers are before a file is read.
const BLANK_NUMBER: u32 = 2779096485;

// The most bytes that a file may have before its trailer.
const LONGEST: usize = 1048556;

// The checksum of all numbers.
fn checksum(numbers: &[u32]) -> u32 {
    numbers
        .iter()
        .fold(0, |sum: u32, n| sum.wrapping_mul(31).wrapping_add(*n))
}

// Writes the line for a file with so many numbers lent.
fn print_line<const N: usize, P: Print>(rt: &P, file: &[u8]) -> io::Result<()>
    requires { N ≤ 512 }
{
    let mut numbers = [BLANK_NUMBER; N];
    match read(file, &mut numbers) {
        Ok((_, kept, all)) => print!(rt; "read {kept} {all}")?,
        Err(r) => print!(rt; "refused {}", refusal_number(r))?,
    }
    println!(rt; " {}", checksum(&numbers))
}

// Writes the lines for a file.
fn print_answer(rt: &impl Print, file: &[u8]) -> io::Result<()> {
    print_line::<512, _>(rt, file)?;
    print_line::<3, _>(rt, file)
}

// Writes the lines for the files in s, up to one that is cut short.
fn print_answers(rt: &impl Print, s: &[u8]) -> io::Result<()> {
    let mut left = s;
    while let Some((length, behind)) = left.split_first_chunk() {
        let Some((file, rest)) = behind.split_at_checked(u16::from_le_bytes(*length) as usize)
        else {
            break;
        };
        print_answer(rt, file)?;
        left = rest;
    }
    Ok(())
}

// Writes the lines for a file that has so many bytes before its trailer, each an empty global.
fn print_globals(rt: &impl Print, space: &mut [u8], n: usize) -> io::Result<()> {
    let mut story = Builder::new(space);
    story.zeros(n);
    story.trailer(Starts {
        globals: 0,
        externals: n,
        root: n,
        flows: n,
    });
    print_answer(rt, story.file())
}

// Writes the lines for a file as long as one may be that ends with a gather without a name: no record kept has a larger place.
fn print_last_place(rt: &impl Print, space: &mut [u8]) -> io::Result<()> {
    let mut story = Builder::new(space);
    story.zeros(LONGEST - 6);
    let root = story.end();
    story.named(Kind::Gather.byte(), b"");
    let flows = story.end();
    story.trailer(Starts {
        globals: 0,
        externals: root,
        root,
        flows,
    });
    print_answer(rt, story.file())
}

// Writes the lines for the files on standard input, as many as the buffer holds.
fn run_input(rt: &(impl Input + Print)) -> io::Result<()> {
    let mut space = [0u8; 524288];
    let n = read_full(&mut rt.reader(), space.as_mut_slice())?;
    print_answers(rt, &space[..n])
}

// Writes the lines for the longest files and for one that is a byte too long.
fn run_limits(rt: &impl Print) -> io::Result<()> {
    let mut space = [0u8; 1048577];
    print_globals(rt, space.as_mut_slice(), LONGEST)?;
    print_globals(rt, space.as_mut_slice(), LONGEST + 1)?;
    print_last_place(rt, space.as_mut_slice())
}

// Writes the lines for standard input, then those for the limits.
fn main(rt: HostRuntime) -> io::Result<()> {
    run_input(&rt)?;
    run_limits(&rt)
}
