// A lookup in an index that was filled with one number, and the line that shows what came of it.
use lookups::{Target, lookup};
use std::io;
use symbols::ABSENT;

// What the index holds before most lookups.
pub const BLANK: u32 = 2779096485;

// The longest target that is written out.
const WRITTEN: usize = 32;

// A lookup: the file, the target, and what the index is filled with before.
#[derive(Clone, Copy)]
pub struct Lookup<'a> {
    pub file: &'a [u8],
    pub target: &'a [u8],
    pub fill: u32,
}

// Writes what a target is: its word, and the number of its entry.
fn print_found(rt: &impl Print, found: Target) -> io::Result<()> {
    match found {
        Target::Pass => print!(rt; "pass"),
        Target::Function => print!(rt; "function"),
        Target::Reserved => print!(rt; "reserved"),
        Target::Exact(k) => print!(rt; "exact {k}"),
        Target::Ending(k) => print!(rt; "ending {k}"),
        Target::Missing => print!(rt; "missing"),
    }
}

// Writes the target in quotes, or its length where it is long or not of printed bytes.
fn print_target(rt: &impl Print, target: &[u8]) -> io::Result<()> {
    if target.len() <= WRITTEN && target.iter().all(|b| matches!(b, b' '..=b'~')) {
        rt.write_all(b"\"")?;
        rt.write_all(target)?;
        rt.write_all(b"\": ")
    } else {
        print!(rt; "{} bytes: ", target.len())
    }
}

// The numbers of so many entries: three of each, as far as the index goes.
fn numbers_of(entries: usize) -> usize {
    entries.saturating_mul(3)
}

impl Lookup<'_> {
    // Fills the index with the number, looks the target up, and writes the line. The entry count, 0 where it is refused.
    pub fn show(self, rt: &impl Print, index: &mut [u32]) -> io::Result<usize> {
        index.fill(self.fill);
        let answer = lookup(self.file, index, self.target);
        print_target(rt, self.target)?;
        let entries = match answer {
            Ok(a) => {
                print_found(rt, a.target)?;
                a.entries
            }
            Err(refusal) => {
                print!(rt; "refused {}", refusal.number())?;
                0
            }
        };
        self.print_entries(rt, index, entries)?;
        Ok(entries)
    }

    // The same with so many numbers of the index, where there are so many.
    pub fn show_lent(self, rt: &impl Print, index: &mut [u32], lent: usize) -> io::Result<()> {
        if let Some(index) = index.get_mut(..lent) {
            self.show(rt, index)?;
        }
        Ok(())
    }

    // Writes how long the index is, what it was filled with, how many entries it has, and whether its rest stays.
    fn print_entries(self, rt: &impl Print, index: &[u32], entries: usize) -> io::Result<()> {
        let fill = self.fill;
        print!(rt;
            ", index {} filled with {fill}, entries {entries}, ",
            index.len()
        )?;
        let mut rest = index.iter().skip(numbers_of(entries));
        if rest.all(|n| *n == fill) {
            println!(rt; "rest kept")
        } else {
            println!(rt; "rest changed")
        }
    }
}

// Writes the numbers of so many entries, a dash for none.
pub fn show_index(rt: &impl Print, index: &[u32], entries: usize) -> io::Result<()> {
    print!(rt; "index")?;
    for n in index.iter().take(numbers_of(entries)) {
        match *n {
            ABSENT => print!(rt; " -")?,
            n => print!(rt; " {n}")?,
        }
    }
    println!(rt; "")
}
