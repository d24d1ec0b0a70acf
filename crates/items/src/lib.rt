// The kept items of a story: what each is, those of a body, and the searches in them; and whether a flow has stitches.
#![tactic(auto)]

pub mod files;
pub mod items;
pub mod named;
pub mod runs;
pub mod stitches;
