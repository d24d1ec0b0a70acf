// Names, stitches and flows, read to the end, their records kept.
#![tactic(auto, using(crate::proofs::Fits::fits))]

ghost use Rattle.std.specs.Prelude.{◌≡◌};
ghost use Rattle.records.specs.Trace.{ends};
ghost use Rattle.records.specs.Grammar.{Reading, nothing, repeat, piece};
ghost use Rattle.records.specs.Work.{st, over, Told, ToldTo};
ghost use Rattle.story.specs.Headings.{heading_of};
ghost use Rattle.story.specs.Flows.{names, titled, stitch, flow, flows, stitches, title_end};
ghost use Rattle.story.specs.Endings.{ended_of};

use crate::headings::read_heading;
use fields::{Refusal, read_flag, read_list, read_name};
use records::part::Part;
use records::walk_nodes;
use records::walker::at_end;

// Names to the end.
pub fn read_names(s: &[u8]) -> Result<(), Refusal>
    ensures { result ≡ ended_of (ends (names s.now)) }
{
    let mut t = s;
    while 0 < t.len() {
        let e = read_name(t)?;
        t = &t[e..];
    }
    Ok(())
}

// What stands behind its length of four bytes, after so many records kept and met.
trait Piece {
    // how its bytes are read
    ghost reading: { Reading };

    fn read(p: Part, out: &mut [u32], n: usize) -> Result<usize, Refusal>
        ensures { Told (over p.entry (st out.old n) reading) result out.new };
}

// Pieces to the end.
fn read_pieces<P: Piece>(p: Part, out: &mut [u32], n: usize) -> Result<usize, Refusal>
    ensures { Told (over p.entry (st out.old n) (repeat (piece P.reading))) result out.new }
{
    let mut t = p;
    let mut count = n;
    while 0 < t.bytes.len() {
        let e = read_list(t.bytes)?;
        let m = P::read(t.between(4, e), out, count)?;
        count = m;
        t = t.after(e);
    }
    Ok(count)
}

// What a flow and a stitch have from their name on, to the end of their nodes: the place after these.
fn read_title(p: Part, out: &mut [u32], n: usize) -> Result<(usize, usize), Refusal>
    ensures { ToldTo (over p.entry (st out.old n) (titled nothing)) (title_end (heading_of p.entry.bytes.now)) result out.new }
{
    let h = read_heading(p.bytes)?;
    let nodes = h.nodes;
    let end = h.end;
    let m = walk_nodes(p.between(nodes, end), out, n)?;
    Ok((end, m))
}

// A stitch after its length.
fn read_stitch(p: Part, out: &mut [u32], n: usize) -> Result<usize, Refusal>
    ensures { Told (over p.entry (st out.old n) stitch) result out.new }
{
    let (end, m) = read_title(p, out, n)?;
    at_end(&p.bytes[end..], m)
}

// A stitch among others.
struct StitchPiece;

impl Piece for StitchPiece {
    ghost reading = { stitch };

    fn read(p: Part, out: &mut [u32], n: usize) -> Result<usize, Refusal> {
        read_stitch(p, out, n)
    }
}

// A flow after its flag.
fn read_unflagged(p: Part, out: &mut [u32], n: usize) -> Result<usize, Refusal>
    ensures { Told (over p.entry (st out.old n) (titled stitches)) result out.new }
{
    let (end, m) = read_title(p, out, n)?;
    read_pieces::<StitchPiece>(p.after(end), out, m)
}

// A flow after its length.
fn read_flow(p: Part, out: &mut [u32], n: usize) -> Result<usize, Refusal>
    ensures { Told (over p.entry (st out.old n) flow) result out.new }
{
    read_flag(p.bytes)?;
    read_unflagged(p.after(1), out, n)
}

// A flow among others.
struct FlowPiece;

impl Piece for FlowPiece {
    ghost reading = { flow };

    fn read(p: Part, out: &mut [u32], n: usize) -> Result<usize, Refusal> {
        read_flow(p, out, n)
    }
}

// Flows to the end.
pub fn read_flows(p: Part, out: &mut [u32], n: usize) -> Result<usize, Refusal>
    ensures { Told (over p.entry (st out.old n) flows) result out.new }
{
    read_pieces::<FlowPiece>(p, out, n)
}
