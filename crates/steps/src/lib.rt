// What is heard along the runs of a story: breaches one after the other, up to a limit, counted, and written to a lent list.
#![tactic(auto)]

pub mod bodies;
pub mod brackets;
pub mod context;
pub mod fillings;
pub mod headings;
pub mod looks;
pub mod nodes;
pub mod scopes;
pub mod visits;

ghost use Rattle.std.specs.Prelude.{◌%◌, ◌≡◌};
ghost use Rattle.rules.specs.Steps.{names_of};
ghost use Rattle.steps.specs.Heard.{is_full, onward, fresh, breach_of, written, heard, hear, passed};

use rules::{Rule, names_of, rule_number};

// The last number that a run can have.
const LAST: usize = 4294967295;

// The places of the two names in a breach's text.
#[derive(Clone, Copy)]
pub struct Names {
    pub first: usize,
    pub second: usize,
}

// A breach that was heard: its rule, its place, and the places of the names in its text.
#[derive(Clone, Copy)]
pub struct Last {
    pub rule: Rule,
    pub place: usize,
    pub names: Names,
}

// What was heard so far: at most how many breaches, how many, the number of the run, and the last breach.
#[derive(Clone, Copy)]
pub struct Tally {
    pub limit: usize,
    pub count: usize,
    pub instance: usize,
    pub last: Option<Last>,
}

// A number as one of 32 bits.
fn narrow(n: usize) -> u32
    ensures { result ≡ n % 4294967296 }
{
    (n % 4294967296) as u32
}

// Writes the four numbers of breach number n to the list, where there is room for them.
fn write_breach(list: &mut [u32], n: usize, number: u8, instance: usize, place: usize)
    ensures { list.new ≡ written n number instance place list.old }
{
    if list.len() / 4 <= n {
        return;
    }
    let at = 4 * n;
    let numbers = [number as u32, narrow(instance), narrow(place), 0];
    list[at..at + 4].copy_from_slice(&numbers);
}

// The number of the run so many runs later, at most the last number.
fn later_run(instance: usize, many: usize) -> usize
    ensures { result ≡ onward instance many }
{
    instance + many.min(LAST.saturating_sub(instance))
}

impl Tally {
    // Nothing heard yet, before the first run.
    pub fn start(limit: usize) -> Tally
        ensures { result ≡ fresh limit }
    {
        Tally {
            limit,
            count: 0,
            instance: 0,
            last: None,
        }
    }

    // Whether as many breaches were heard as may be.
    pub fn is_full(self) -> bool
        ensures { result ≡ is_full self }
    {
        self.limit <= self.count
    }

    // Hears the breach of a rule at a place in the run at hand, with the places of the flow's name and of what is visited, unless it is full.
    pub fn hear(self, rule: Rule, place: usize, flow: usize, own: usize, list: &mut [u32]) -> Tally
        ensures { heard result list.new ≡ hear (heard self list.old) (breach_of self.instance rule place (names_of rule flow own)) }
    {
        if self.is_full() {
            return self;
        }
        let (first, second) = names_of(rule, flow, own);
        let names = Names { first, second };
        let number = rule_number(rule);
        write_breach(list, self.count, number, self.instance, place);
        Tally {
            count: self.count + 1,
            last: Some(Last { rule, place, names }),
            ..self
        }
    }

    // So many runs that find nothing, unless it is full.
    pub fn pass_runs(self, many: usize) -> Tally
        ensures { result ≡ passed many self }
    {
        if self.is_full() {
            return self;
        }
        Tally {
            instance: later_run(self.instance, many),
            ..self
        }
    }

    // One run more, unless it is full.
    pub fn next_run(self) -> Tally
        ensures { result ≡ passed 1 self }
    {
        self.pass_runs(1)
    }
}
