// Some bytes of a file, and the place where they stand.
#![tactic(auto)]

ghost use Rattle.std.specs.Prelude.{◌≡◌, ◌+◌, ◌-◌, ◌^◌, ◌<◌, ◌≤◌, length, take, drop};

// Bytes of a file from the place base on; they end below 2 ^ 20, as a file does.
#[derive(Clone, Copy)]
pub struct Part<'a> {
    pub bytes: &'a [u8],
    pub base: usize,
    pub ghost within: { base + length bytes.now < 2 ^ 20 },
}

impl<'a> Part<'a> {
    // The bytes from one place in it to another.
    pub fn between(self, from: usize, to: usize) -> Part<'a>
        requires { (from ≤ to) × (to ≤ length self.bytes.now) }
        ensures base { result.base ≡ self.entry.base + from }
        ensures bytes { result.bytes.now ≡ take (to - from) (drop from self.entry.bytes.now) }
    {
        Part {
            bytes: &self.bytes[from..to],
            base: self.base + from,
        }
    }

    // What follows the first e bytes.
    pub fn after(self, e: usize) -> Part<'a>
        requires { e ≤ length self.bytes.now }
        ensures base { result.base ≡ self.entry.base + e }
        ensures bytes { result.bytes.now ≡ take (length self.entry.bytes.now - e) (drop e self.entry.bytes.now) }
    {
        Part {
            bytes: &self.bytes[e..],
            base: self.base + e,
        }
    }
}
