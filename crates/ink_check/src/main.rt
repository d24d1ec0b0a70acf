// Reads a story file from standard input, at most 4,096 bytes, and prints one line: `accepted`, `refused N`, or `breach R at P: TEXT`.
#![tactic(auto)]

use host::read_full;
use lines::input_line;
use std::io;

// Lends the buffers: a byte more than a story may have, three numbers for each byte before the trailer, the message and the line.
fn main(rt: HostRuntime) -> io::Result<()> {
    let mut space = [0u8; 4097];
    let mut index = [0u32; 12228];
    let mut message = [0u8; 640];
    let mut out = [0u8; 700];
    let n = read_full(&mut rt.reader(), &mut space)?;
    let end = input_line(&space[..n], &mut index, &mut message, &mut out);
    rt.write_all(&out[..end])
}
