// The tests of the rules at one record or one name of a story.
#![tactic(auto)]

pub mod diverts;
pub mod known;
pub mod labels;
pub mod structure;
pub mod view;

// Where a step runs, by places in the file. Of the flow or the stitch at hand: whether it is a stitch, the flow's name, its own
// parameters, divert parameters and body. Of its knot: the parameters, the body, which ends where the stitches begin, and their end.
// The root is its own knot, without name, parameters and stitches.
#[derive(Clone, Copy)]
pub struct ScopeView {
    pub inner: bool,
    pub flow: usize,
    pub params: usize,
    pub marks: usize,
    pub from: usize,
    pub to: usize,
    pub outer: usize,
    pub body: usize,
    pub stitches: usize,
    pub end: usize,
}

// An item of a body: its number in the body, and the number kept of it.
#[derive(Clone, Copy)]
pub struct Slot {
    pub number: usize,
    pub item: u32,
}
