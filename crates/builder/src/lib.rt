// Story files put together front to back in a lent buffer, for the programs that try the validator on them.
#![tactic(auto)]

ghost use Rattle.std.specs.Prelude.{◌≡◌, ℕ, ◌+◌, ◌*◌, ◌^◌, ◌≤◌, ◌<◌, List, [], ◌∷◌, ◌++◌, length, take, replicate};
ghost use Rattle.std.specs.Fn.{FnOnceReturnsAtMut};
ghost use Rattle.builder.specs.Building.{Building, Puts, Measures, number, name, negations};
ghost use Rattle.builder.specs.Kinds.{kind_byte};

use std::marker::Model;

// The trailer's last four bytes, 49 4B 01 00, as a number.
const MARK: usize = 84809;

// Kinds of nodes, each with its kind byte: those that the programs put.
#[derive(Clone, Copy)]
pub enum Kind {
    Output = 2,
    Divert = 3,
    Choice = 14,
    Gather = 15,
    Call = 16,
}

impl Kind {
    // The byte that a record of this kind begins with.
    pub fn byte(self) -> u8
        ensures { result ≡ kind_byte self }
    {
        self as u8
    }
}

// Kinds of expressions, each with its kind byte: those that `negations` puts.
#[derive(Clone, Copy)]
enum Expr {
    Constant = 0,
    Negate = 3,
}

// Where the four sections of a file start.
#[derive(Clone, Copy)]
pub struct Starts {
    pub globals: usize,
    pub externals: usize,
    pub root: usize,
    pub flows: usize,
}

// A file in the making. What does not fit in its buffer is left out.
#[derive(Drop)]
pub struct Builder<'a> {
    space: &'a mut [u8],
    end: usize,
}

impl<'a> Model for Builder<'a> {
    ghost use Rattle.std.specs.Prelude.{◌-◌, ◌≤◌, length, take};
    ghost use Rattle.builder.specs.Building.{Building};

    ghost Value = { Building };

    ghost view = { λ b. record { bytes = take b.end b.space.now; room = length b.space.now - b.end } };

    ghost invariant = { λ b. b.end ≤ length b.space.now };
}

impl<'a> Builder<'a> {
    // A builder that has put nothing.
    pub fn new(space: &'a mut [u8]) -> Builder<'a>
        ensures bytes { result.bytes ≡ [] }
        ensures room { result.room ≡ length space.old }
    {
        Builder { space, end: 0 }
    }

    // Takes back what was put.
    pub fn clear(&mut self)
        ensures bytes { self.new.bytes ≡ [] }
        ensures room { self.new.room ≡ length self.old.bytes + self.old.room }
    {
        self.end = 0;
    }

    // The bytes put so far.
    pub fn file(&self) -> &[u8]
        ensures { result.now ≡ self.now.bytes }
    {
        &self.space[..self.end]
    }

    // The place after them.
    pub fn end(&self) -> usize
        ensures { result ≡ length self.now.bytes }
    {
        self.end
    }

    // Puts a byte.
    pub fn byte(&mut self, b: u8)
        ensures { Puts self.old (b ∷ []) self.new }
    {
        if self.end < self.space.len() {
            self.space[self.end] = b;
            self.end += 1;
        }
    }

    // Puts bytes.
    pub fn bytes(&mut self, s: &[u8])
        ensures { Puts self.old s.now self.new }
    {
        let many = s.len().min(self.space.len() - self.end);
        self.space[self.end..self.end + many].copy_from_slice(&s[..many]);
        self.end += many;
    }

    // Puts so many zeros, each of them an empty name.
    pub fn zeros(&mut self, n: usize)
        ensures { Puts self.old (replicate n 0) self.new }
    {
        let many = n.min(self.space.len() - self.end);
        self.space[self.end..self.end + many].fill(0);
        self.end += many;
    }

    // Puts a number below 2^32 in four bytes, little-endian.
    #[tactic(auto, unfolding(crate::specs::Building::number))]
    pub fn number(&mut self, n: usize)
        ensures { Puts self.old (number n) self.new }
    {
        self.bytes(&n.to_le_bytes()[..4]);
    }

    // Puts a name: its count byte and its bytes.
    pub fn name(&mut self, s: &[u8])
        ensures { Puts self.old (name s.now) self.new }
    {
        self.byte((s.len() % 256) as u8);
        self.bytes(s);
    }

    // Puts the kind and the payload length of a record.
    pub fn head(&mut self, kind: u8, length: usize)
        ensures { Puts self.old (kind ∷ number length) self.new }
    {
        self.byte(kind);
        self.number(length);
    }

    // Puts a record whose payload is a name.
    pub fn named(&mut self, kind: u8, s: &[u8])
        ensures { Puts self.old (kind ∷ number (length s.now + 1) ++ name s.now) self.new }
    {
        self.head(kind, s.len() + 1);
        self.name(s);
    }

    // Puts so many Negates, each with all that follows as its payload, and a constant.
    #[tactic(auto, unfolding(crate::specs::Building::negations))]
    pub fn negations(&mut self, many: usize)
        requires { 5 * many < 2 ^ 32 }
        ensures { Puts self.old (negations many) self.new }
    {
        if many == 0 {
            self.head(Expr::Constant as u8, 0);
        } else {
            self.head(Expr::Negate as u8, 5 * many);
            self.negations(many - 1);
        }
    }

    // Sets the number at a place to how many bytes follow it, where there are four of it.
    #[tactic(auto, unfolding(crate::specs::Building::number))]
    fn set_length(&mut self, place: usize)
        ensures { Measures place self.old self.new }
    {
        if place <= self.end && 4 <= self.end - place {
            let length = self.end - place - 4;
            self.space[place..place + 4].copy_from_slice(&length.to_le_bytes()[..4]);
        }
    }

    // Puts what the closure puts, behind a number that says how many bytes these are.
    pub fn sized<F: FnOnce(&mut Builder<'a>)>(&mut self, put: F)
        requires { F.IsAlwaysCallable put }
        ensures { (from to : Building) × Puts self.old (number 0) from × FnOnceReturnsAtMut F.FnOnce put from tt to × Measures (length self.old.bytes) to self.new }
    {
        let place = self.end();
        self.number(0);
        put(self);
        self.set_length(place);
    }

    // Puts the trailer.
    pub fn trailer(&mut self, starts: Starts)
        ensures { Puts self.old (number starts.globals ++ number starts.externals ++ number starts.root ++ number starts.flows ++ number 84809) self.new }
    {
        self.number(starts.globals);
        self.number(starts.externals);
        self.number(starts.root);
        self.number(starts.flows);
        self.number(MARK);
    }
}
