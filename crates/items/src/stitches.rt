// Whether a flow has stitches.
ghost use Rattle.std.specs.Prelude.{◌≡◌};
ghost use Rattle.items.specs.Stitches.{has_stitches, StitchesReady};

use searches::views::stitch_view;

// The flow whose stitches stand from the place on to the end has stitches.
#[tactic(auto, using(crate::proofs::StitchesLeft::some_stitch))]
pub fn has_stitches(file: &[u8], at: usize, end: usize) -> bool
    requires { StitchesReady file.now at end }
    ensures { result ≡ has_stitches file.now at end }
{
    stitch_view(file, at, end).is_some()
}
