// The index of a story: its entries, written as three numbers each, and found by a target.
#![tactic(auto)]

pub mod entries;
pub mod targets;
pub mod visits;

// The number for no name.
pub const ABSENT: u32 = 4294967295;

// An entry of the index: the places of the count bytes of its flow's, its stitch's and its own name.
#[derive(Clone, Copy, PartialEq, Eq)]
pub struct Places {
    pub flow: u32,
    pub stitch: u32,
    pub own: u32,
}

// How a target fits a spelling: it is the spelling, or the spelling ends in "." and the target.
#[derive(Clone, Copy, PartialEq, Eq)]
pub enum Fit {
    Exact,
    Ending,
    Differs,
}
