// The records of a list at every depth: how many they are, and a number for each that is not plain to the rules.
#![tactic(auto)]

ghost use Rattle.records.specs.Grammar.{nodes};
ghost use Rattle.records.specs.Work.{st, over, Told};

pub mod part;
pub mod sorts;
pub mod walker;

use fields::{Refusal, Role};
use part::Part;
use walker::list;

// One record met, in the number that carries both counts (`counts` of specs/Work): those met by its quotient, those kept by its remainder.
pub const MET: usize = 4294967296;

// That a choice leaves, in its number: 64 in the mark (`mark_of` of specs/Numbers).
pub const LEAVES: u32 = 67108864;

// The nodes of a root, a flow or a stitch, after so many records kept and met.
pub fn walk_nodes(p: Part, out: &mut [u32], n: usize) -> Result<usize, Refusal>
    ensures { Told (over p.entry (st out.old n) nodes) result out.new }
{
    list(p, Role::Node, 64, out, n)
}
