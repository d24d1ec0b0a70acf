// The line that a program prints for a story file, written into a buffer that the caller lends.
#![tactic(auto)]

ghost use Rattle.std.specs.Prelude.{◌≡◌, ◌+◌, ◌≤◌, length};
ghost use Rattle.messages.specs.Messages.{Wrote};
ghost use Rattle.validator.specs.Results.{result_of};
ghost use Rattle.lines.specs.Lines.{decimal, refused_line, breach_line, text_length, line_of};
ghost use Rattle.lines.specs.Lined.{CheckLined, InputLined};

use itoa::Buffer;
use messages::Text;
use rules::rule_number;
use validator::{CheckRefusal, Verdict, check};

// What a check answers, and the length of its line.
#[derive(Clone, Copy)]
pub struct CheckedLine {
    pub answer: Result<Verdict, CheckRefusal>,
    pub length: usize,
}

// Writes a number in decimal.
fn put_number(text: &mut Text, n: usize)
    requires { text.old.end + 20 ≤ length text.old.out.now }
    ensures same_buffer { text.new.out.ghost_name ≡ text.old.out.ghost_name }
    ensures same_length { length text.new.out.now ≡ length text.old.out.now }
    ensures wrote { Wrote text.old.out.now text.old.end (decimal n) text.new.out.now text.new.end }
    ensures upper_bound { text.new.end ≤ text.old.end + 20 }
{
    let mut buffer = Buffer::new();
    let digits = buffer.format(n);
    text.put(digits.as_bytes());
}

// Writes the line of a refusal.
fn put_refused(text: &mut Text, n: usize)
    requires { text.old.end + 40 ≤ length text.old.out.now }
    ensures same_buffer { text.new.out.ghost_name ≡ text.old.out.ghost_name }
    ensures wrote { Wrote text.old.out.now text.old.end (refused_line n) text.new.out.now text.new.end }
{
    text.put(b"refused ");
    put_number(text, n);
    text.put(b"\n");
}

// Writes the line of a breach.
fn put_breach(text: &mut Text, rule: usize, place: usize, message: &[u8])
    requires { text.old.end + length message.now + 60 ≤ length text.old.out.now }
    ensures same_buffer { text.new.out.ghost_name ≡ text.old.out.ghost_name }
    ensures wrote { Wrote text.old.out.now text.old.end (breach_line rule place message.now) text.new.out.now text.new.end }
{
    text.put(b"breach ");
    put_number(text, rule);
    text.put(b" at ");
    put_number(text, place);
    text.put(b": ");
    text.put(message);
    text.put(b"\n");
}

// Writes the line of an answer, whose text stands at the start of the message buffer.
#[tactic(auto, unfolding(crate::specs::Lines::result_line, crate::specs::Lines::text_length, validator::specs::Results::result_of))]
fn put_line(text: &mut Text, answer: Result<Verdict, CheckRefusal>, message: &[u8])
    requires answer_in_bounds { text_length (result_of answer) ≤ length message.now }
    requires message_in_bounds { text.old.end + length message.now + 60 ≤ length text.old.out.now }
    ensures same_buffer { text.new.out.ghost_name ≡ text.old.out.ghost_name }
    ensures wrote { Wrote text.old.out.now text.old.end (line_of answer message.now) text.new.out.now text.new.end }
{
    match answer {
        Ok(Verdict::Accepted(_)) => text.put(b"accepted\n"),
        Ok(Verdict::Breached(b)) => {
            let rule = rule_number(b.rule);
            let size = b.message;
            put_breach(text, rule.into(), b.place, &message[..size])
        }
        Err(refusal) => put_refused(text, refusal.number()),
    }
}

// Writes the line of a refusal at the buffer's start, and answers its length.
fn refused_line(n: usize, out: &mut [u8]) -> usize
    requires { 40 ≤ length out.old }
    ensures { Wrote out.old 0 (refused_line n) out.new result }
{
    let mut text = Text::new(out);
    put_refused(&mut text, n);
    text.end
}

// Writes the line of an answer at the buffer's start, and answers its length.
fn line(answer: Result<Verdict, CheckRefusal>, message: &[u8], out: &mut [u8]) -> usize
    requires answer_in_bounds { text_length (result_of answer) ≤ length message.now }
    requires message_in_bounds { length message.now + 60 ≤ length out.old }
    ensures { Wrote out.old 0 (line_of answer message.now) out.new result }
{
    let mut text = Text::new(out);
    put_line(&mut text, answer, message);
    text.end
}

// Checks a file, and writes the line of the check's report at the buffer's start; where the buffer is too short for a line, nothing.
pub fn check_line(file: &[u8], index: &mut [u32], message: &mut [u8], out: &mut [u8]) -> CheckedLine
    ensures { CheckLined file.now index.old message.old out.old result.answer result.length index.new message.new out.new }
{
    let answer = check(file, index, message);
    if out.len() < message.len() + 60 {
        return CheckedLine { answer, length: 0 };
    }
    let length = line(answer, message, out);
    CheckedLine { answer, length }
}

// THE LINE of the program, written at the buffer's start; answers its length. An input of more than 4,096 bytes is refused unread.
pub fn input_line(
    input: &[u8],
    index: &mut [u32; 12228],
    message: &mut [u8; 640],
    out: &mut [u8; 700],
) -> usize
    ensures { InputLined input.now index.old message.old out.old result index.new message.new out.new }
{
    if 4096 < input.len() {
        return refused_line(1, out);
    }
    let checked = check_line(input, index, message, out);
    checked.length
}
