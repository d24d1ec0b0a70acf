// A breach with the places of the names for its text.
ghost use Rattle.std.specs.Prelude.{◌≡◌};
ghost use Rattle.rules.specs.Steps.{names_of};
ghost use Rattle.context.specs.Found.{breach_at};

use crate::BreachAt;
use rules::{Rule, names_of};

// The breach of a rule, with the places of the flow's name and of what is visited, in the text's order.
pub fn breach_at(rule: Rule, place: usize, flow: usize, own: usize) -> BreachAt
    ensures { result ≡ breach_at rule place (names_of rule flow own) }
{
    let (first, second) = names_of(rule, flow, own);
    BreachAt {
        rule,
        place,
        first,
        second,
    }
}
