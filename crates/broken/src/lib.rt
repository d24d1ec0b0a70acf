// The fifteen rules at one thing that a step visits: a record, a parameter, a stitch's name or a flow's first byte.
#![tactic(auto)]

pub mod asked;
pub mod diverts;
pub mod known;
pub mod structure;
pub mod things;
pub mod variables;

use records::sorts::Sort;
use sets::known::Names;
use story::Sections;

// The whole story: its sections, the names that are not in the set of names, and whether some target is not in the set of targets.
#[derive(Clone, Copy)]
pub struct StoryView {
    pub sections: Sections,
    pub names: Names,
    pub left: bool,
}

// Where a step runs. Of the root, the flow or the stitch at hand: the place of the flow's name, its parameters and divert parameters, and the
// run of its kept items; of its knot: the parameters, the run of its own list and of its stitches after it, and whether it has stitches.
// The root is its own knot, without name and parameters.
#[derive(Clone, Copy)]
pub struct Scope {
    pub flow: usize,
    pub params: usize,
    pub marks: usize,
    pub first: usize,
    pub last: usize,
    pub outer: usize,
    pub knot: usize,
    pub own: usize,
    pub end: usize,
    pub stitched: bool,
}

// The numbers of the items from which on the names are in no set: the knot's labels and temps, the body's temps and its gathers so far.
#[derive(Clone, Copy, Default)]
pub struct Rests {
    pub labels: usize,
    pub temps: usize,
    pub own: usize,
    pub gathers: usize,
}

// What a step visits: its sort, the place of its name, whether it stands in a branch, and whether it is a choice that leaves.
#[derive(Clone, Copy)]
pub struct Thing {
    pub sort: Sort,
    pub name: usize,
    pub branch: bool,
    pub leaves: bool,
}

// The site of a step: where it runs, and the items from which on the names are in no set.
#[derive(Clone, Copy)]
pub struct Site {
    pub scope: Scope,
    pub rests: Rests,
}

// A thing that a step visits, with all that a rule may ask: the site, and how many items of the body stand before it.
#[derive(Clone, Copy)]
pub struct At {
    pub site: Site,
    pub thing: Thing,
    pub number: usize,
}
