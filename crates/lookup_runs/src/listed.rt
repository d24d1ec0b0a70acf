// The lookups of a stored list, read from its text: blocks of lines, each a word and what it tells.
ghost use Rattle.std.specs.Prelude.{◌≤◌};
ghost use Rattle.lookup_runs.specs.Room.{SameRoom};

use crate::shown::{BLANK, Lookup};
use builder::Builder;
use std::io;

// What a block tells: how many numbers of the index are lent, the file and the target.
#[derive(Drop)]
pub struct Block<'a> {
    lent: usize,
    file: Builder<'a>,
    target: Builder<'a>,
}

// The value of a hexadecimal digit; 0 for any other byte.
fn digit(b: u8) -> u8
    ensures { result ≤ 15 }
{
    match b {
        b'0'..=b'9' => b - b'0',
        b'a'..=b'f' => b - b'a' + 10,
        _ => 0,
    }
}

// The number in a text of decimal digits, by its last six.
fn number_in(text: &[u8]) -> usize {
    text.iter().fold(0, |n: usize, b| {
        (n % 1000000 * 10 + digit(*b) as usize) % 1000000
    })
}

// Puts the bytes of a hexadecimal text in place of those that were put before.
fn decode(text: &[u8], out: &mut Builder)
    ensures { SameRoom out.old out.new }
{
    out.clear();
    for [high, low] in text.as_chunks::<2>().0 {
        out.byte(16 * digit(*high) + digit(*low));
    }
}

// The word of a line, and what stands behind its first space.
fn split_word(line: &[u8]) -> (&[u8], &[u8]) {
    match line.iter().position(|b| *b == b' ') {
        Some(end) => (&line[..end], &line[end + 1..]),
        None => (line, b""),
    }
}

impl<'a> Block<'a> {
    // A block that tells nothing yet, with the room for a file and a target.
    pub fn new(file: &'a mut [u8], target: &'a mut [u8]) -> Block<'a> {
        Block {
            lent: 0,
            file: Builder::new(file),
            target: Builder::new(target),
        }
    }

    // Takes what a line tells, by its word. The answer's line ends the block: the lookup is run, behind the answers that the list has for it.
    fn take_line(&mut self, rt: &impl Print, line: &[u8], index: &mut [u32]) -> io::Result<()> {
        let (word, rest) = split_word(line);
        match word {
            b"lookup" => rt.write_all(rest)?,
            b"lent" => self.lent = number_in(rest),
            b"input" => decode(rest, &mut self.file),
            b"target" => decode(rest, &mut self.target),
            b"answer" => {
                rt.write_all(b", listed ")?;
                rt.write_all(rest)?;
                rt.write_all(b": ")?;
                let lookup = Lookup {
                    file: self.file.file(),
                    target: self.target.file(),
                    fill: BLANK,
                };
                lookup.show_lent(rt, index, self.lent)?;
            }
            _ => {}
        }
        Ok(())
    }

    // Runs the lookups of a list.
    pub fn show_list(&mut self, rt: &impl Print, list: &[u8], index: &mut [u32]) -> io::Result<()> {
        for line in list.split(|b| *b == b'\n') {
            self.take_line(rt, line, index)?;
        }
        Ok(())
    }
}
