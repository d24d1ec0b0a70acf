// Filters: names that a body does not have, so that most searches need not be made; rules 4, 6, 7, 10 and 15 tested through them.
#![tactic(auto)]

pub mod declared;
pub mod gathers;
pub mod labels;
pub mod temps;
pub mod view;
pub mod words;

use records::sorts::Sort;

// The items whose names are added to a filter: those of one sort, or those with a label.
#[derive(Clone, Copy)]
pub enum Wanted {
    Sort(Sort),
    Label,
}
