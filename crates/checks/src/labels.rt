// Labels, and what a stitch may not see, by the kept items of the flow or the stitch at hand.
ghost use Rattle.std.specs.Prelude.{◌≡◌};
ghost use Rattle.records.specs.declared.sorts.Sort.{Sort as Kind};
ghost use Rattle.records.specs.Items.{code, labelled};
ghost use Rattle.records.specs.Numbers.{bit};
ghost use Rattle.checks.specs.Context.{declared_at, here_at};

use crate::view::BodyView;
use items::named::{has_label, has_temp};
use items::runs::KeptBody;
use records::sorts::{Sort, label_bit};
use searches::is_counted;

// 1 where the name of a record of the sort that has the number is a label.
#[tactic(auto, using(crate::proofs::Tables::label_there))]
pub fn label_bit_of_number(number: u8, payload: &[u8]) -> u32
    ensures { (k : Kind) → number ≡ code k → result ≡ bit (labelled k payload.now) }
{
    label_bit(Sort::of(number.into()), payload)
}

// The name is a parameter or a temp of the flow or the stitch with these parameters and this body.
fn is_declared(body: &KeptBody<'_>, params: usize, name: &[u8]) -> bool
    ensures { result ≡ declared_at body.now.file.now body.now.kept.numbers.now params body.now.from body.now.to name.now }
{
    is_counted(body.file, params, name) || has_temp(body.file, body.items(), name)
}

impl BodyView<'_> {
    // The name is a label that a temp may not have: the root's, or one of the knot and all its stitches.
    #[tactic(auto, unfolding(crate::specs::Context::here_at))]
    pub fn is_label(&self, name: &[u8]) -> bool
        ensures { result ≡ (here_at self.now.file.now self.now.kept.numbers.now self.now.scope).label name.now }
    {
        has_label(
            self.file,
            self.kept.body_items(self.scope.body, self.scope.end),
            name,
        )
    }

    // The name is forbidden in the stitch: its knot declares it, and it does not.
    #[tactic(auto, unfolding(crate::specs::Context::here_at))]
    pub fn is_forbidden(&self, name: &[u8]) -> bool
        ensures { result ≡ (here_at self.now.file.now self.now.kept.numbers.now self.now.scope).forbidden name.now }
    {
        let v = self.scope;
        let knot = KeptBody {
            file: self.file,
            kept: self.kept,
            from: v.body,
            to: v.stitches,
        };
        let own = KeptBody {
            from: v.from,
            to: v.to,
            ..knot
        };
        is_declared(&knot, v.outer, name) && !is_declared(&own, v.params, name)
    }
}
