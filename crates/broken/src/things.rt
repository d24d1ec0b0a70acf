// What a thing is: by its sort.
ghost use Rattle.std.specs.Prelude.{◌≡◌, List, ℕ, ◌==◌};
ghost use Rattle.records.specs.Items.{What, same_kind, code};
ghost use Rattle.rules.specs.Rules.{target};
ghost use Rattle.broken.specs.Things.{ThingIs};

use crate::Thing;
use records::sorts::Sort;

impl Thing {
    // The thing is of the sort.
    #[tactic(auto, using(records::proofs::Codes::same_code))]
    pub fn is(&self, sort: Sort) -> bool
        ensures { result ≡ same_kind sort self.now.sort }
    {
        sort == self.sort
    }

    // The thing is of the sort of the number.
    #[tactic(auto, using(records::proofs::Codes::tag_code))]
    pub fn has_sort_number(&self, number: u8) -> bool
        ensures { result ≡ (number == code self.now.sort) }
    {
        number == self.sort as u8
    }

    // The thing has a target: it is a divert, a tunnel or a thread.
    pub fn has_target(&self) -> bool
        ensures { (file : List ℕ) (w : What) → ThingIs file self.now w → result ≡ target w }
    {
        self.is(Sort::Divert) || self.is(Sort::Tunnel) || self.is(Sort::Thread)
    }
}
