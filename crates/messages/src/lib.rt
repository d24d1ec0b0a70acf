// The texts of the breaches, written into a buffer that the caller lends.
#![tactic(auto)]

ghost use Rattle.std.specs.Prelude.{◌≡◌, ◌+◌, ◌≤◌, length};
ghost use Rattle.messages.specs.Messages.{around, around_both, message, Wrote, Message};

use rules::Rule;

// A text being written into a buffer that is lent: so far its bytes end at `end`.
#[derive(Drop)]
pub struct Text<'a> {
    pub out: &'a mut [u8],
    pub end: usize,
}

impl<'a> Text<'a> {
    // A text at the buffer's start, with no bytes so far.
    pub fn new(out: &'a mut [u8]) -> Text<'a>
        ensures same_buffer { result.out.ghost_name ≡ out.entry.ghost_name }
        ensures untouched { result.out.now ≡ out.old }
        ensures starts { result.end ≡ 0 }
    {
        Text { out, end: 0 }
    }

    // Writes the bytes of a piece, one by one: the library's copying would make an archive for C need `memmove` from outside.
    pub fn put(&mut self, piece: &[u8])
        requires { self.old.end + length piece.now ≤ length self.old.out.now }
        ensures same_buffer { self.new.out.ghost_name ≡ self.old.out.ghost_name }
        ensures same_length { length self.new.out.now ≡ length self.old.out.now }
        ensures wrote { Wrote self.old.out.now self.old.end piece.now self.new.out.now self.new.end }
    {
        let start = self.end;
        for (i, &byte) in piece.iter().enumerate() {
            self.out[start + i] = byte;
        }
        self.end = start + piece.len();
    }

    // Writes a text around one name.
    fn put_around(&mut self, opening: &[u8], name: &[u8], closing: &[u8])
        requires { self.old.end + length opening.now + length name.now + length closing.now ≤ length self.old.out.now }
        ensures same_buffer { self.new.out.ghost_name ≡ self.old.out.ghost_name }
        ensures same_length { length self.new.out.now ≡ length self.old.out.now }
        ensures wrote { Wrote self.old.out.now self.old.end (around opening.now name.now closing.now) self.new.out.now self.new.end }
    {
        self.put(opening);
        self.put(name);
        self.put(closing);
    }

    // Writes a text around two names.
    fn put_both(
        &mut self,
        opening: &[u8],
        first: &[u8],
        middle: &[u8],
        second: &[u8],
        closing: &[u8],
    )
        requires { self.old.end + length opening.now + length first.now + length middle.now + length second.now + length closing.now ≤ length self.old.out.now }
        ensures same_buffer { self.new.out.ghost_name ≡ self.old.out.ghost_name }
        ensures wrote { Wrote self.old.out.now self.old.end (around_both opening.now first.now middle.now second.now closing.now) self.new.out.now self.new.end }
    {
        self.put(opening);
        self.put(first);
        self.put_around(middle, second, closing);
    }

    // Writes the text of a breach, with the two names put in.
    #[tactic(auto, unfolding(crate::specs::Messages::message))]
    fn put_message(&mut self, rule: Rule, first: &[u8], second: &[u8])
        requires first_len_bound { length first.now ≤ 255 }
        requires second_len_bound { length second.now ≤ 255 }
        requires in_bounds { self.old.end + 640 ≤ length self.old.out.now }
        ensures same_buffer { self.new.out.ghost_name ≡ self.old.out.ghost_name }
        ensures wrote { Wrote self.old.out.now self.old.end (message rule first.now second.now) self.new.out.now self.new.end }
    {
        match rule {
            Rule::FunctionDivertedTo => self.put_around(
                b"Function '",
                first,
                b"' can only be called as a function, not diverted to",
            ),
            Rule::TargetNotFound => self.put_around(b"Divert target not found: '-> ", first, b"'"),
            Rule::FlowCalled => self.put_around(
                b"'",
                first,
                b"' hasn't been marked as a function, but it's being called as one",
            ),
            Rule::NameIsFunction => self.put_around(
                b"The name '",
                first,
                b"' has already been used for a function.",
            ),
            Rule::NameIsGlobal => self.put_around(
                b"The name '",
                first,
                b"' has already been used for a var declaration.",
            ),
            Rule::TempIsParameter => self.put_around(
                b"The name '",
                first,
                b"' has already been used as a parameter name.",
            ),
            Rule::TempIsLabel => self.put_around(
                b"The name '",
                first,
                b"' has already been used for a choice or gather label.",
            ),
            Rule::ParameterUnmarked => self.put_both(
                b"Since '",
                first,
                b"' is used as a variable divert target, it should be marked as: -> ",
                first,
                b"",
            ),
            Rule::ParameterAlreadyMarked => self.put_around(
                b"The parameter '",
                first,
                b"' is already a divert target; it shouldn't be preceded by '->'.",
            ),
            Rule::GatherRepeated => self.put_around(
                b"A gather point with the same label '",
                first,
                b"' already exists in this scope.",
            ),
            Rule::ChoiceUndiverted => self.put(
                b"Choices with conditions need to explicitly divert afterwards.",
            ),
            Rule::FunctionWithStitches => self.put_around(
                b"Function '",
                first,
                b"' may not contain stitches.",
            ),
            Rule::FunctionWithChoice => self.put_around(
                b"Function '",
                first,
                b"' may not contain choices.",
            ),
            Rule::FunctionWithDivert => self.put_both(
                b"Function '",
                first,
                b"' may not contain diverts (found '-> ",
                second,
                b"').",
            ),
            Rule::VariableForbidden => self.put_around(b"Unresolved variable: ", first, b""),
        }
    }
}

// Writes the text of a breach at the buffer's start, with the two names put in, and answers its length. The rest of the buffer stays.
pub fn write_message(rule: Rule, first: &[u8], second: &[u8], out: &mut [u8]) -> usize
    requires first_len_bound { length first.now ≤ 255 }
    requires second_len_bound { length second.now ≤ 255 }
    requires in_bounds { 640 ≤ length out.old }
    ensures { Message rule first.now second.now out.old out.new result }
{
    let mut text = Text::new(out);
    text.put_message(rule, first, second);
    text.end
}
