// What is done with the entries of a story, one after the other.
ghost use Rattle.std.specs.Prelude.{List, [], ◌∷◌};
ghost use Rattle.symbols.specs.declared.Places.{Places};
ghost use Rattle.symbols.specs.Visits.{VisitLaws};

use crate::Places;

// A visitor of entries.
pub trait Visit {
    // From this state on the entries can be visited.
    ghost ready: { Self → List Places → Type 0 };

    // They were, from the one state to the other.
    ghost visited: { Self → List Places → Self → Type 0 };

    // Visits an entry.
    fn visit(&mut self, p: Places)
        requires { ready self.old (p ∷ []) }
        ensures { visited self.old (p ∷ []) self.new };

    // Entries can be visited part by part.
    ghost laws: { VisitLaws ready visited };
}
