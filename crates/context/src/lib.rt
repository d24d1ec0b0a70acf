// The twenty steps over a story whose index is written: the first breach, or none.
#![tactic(auto)]

pub mod breaches;
pub mod context;
pub mod passes;
pub mod scopes;
pub mod structure;
pub mod view;

use rules::Rule;

// A breach: its rule, its place, and the places of the names for its text.
#[derive(Clone, Copy)]
pub struct BreachAt {
    pub rule: Rule,
    pub place: usize,
    pub first: usize,
    pub second: usize,
}

// What a step looks for along a body.
#[derive(Clone, Copy)]
pub enum Pass {
    Temps,
    Targets,
    Calls,
    Choices,
    VariableDiverts,
    Variables,
    Gathers,
    Purity,
}
