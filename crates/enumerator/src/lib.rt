// The entries of a story, visited one after the other with three outputs: the index, a set of targets, a target that is asked for.
#![tactic(auto)]

pub mod entries;
pub mod visits;

// What was seen of the entries visited: how many they are, whether a target of theirs was not put into the set, whether one of them answers the target.
#[derive(Clone, Copy)]
pub struct Seen {
    pub count: usize,
    pub left: bool,
    pub found: bool,
}
