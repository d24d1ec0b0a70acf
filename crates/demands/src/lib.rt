// The demands on the callable functions as claims: specs/ has what is claimed, proofs/ that their contracts meet it. Nothing runs here.
#![tactic(auto)]

ghost use Rattle.std.specs.Prelude.{◌≡◌};

// A crate has a function; no program calls this one.
pub fn nothing() -> u8
    ensures { result ≡ 0 }
{
    0
}
