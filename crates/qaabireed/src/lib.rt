// The calls for programs in other languages, on lent buffers of numbers; `qaabireed_c` exports them.
#![tactic(auto)]

ghost use Rattle.std.specs.Prelude.{◌≡◌, ◌≤◌, length};
ghost use Rattle.records.specs.Buffers.{overlay};
ghost use Rattle.validator.specs.Results.{result_of};
ghost use Rattle.lookups.specs.Results as lookup;
ghost use Rattle.lookups.specs.Results.{answer_of};
ghost use Rattle.qaabireed.specs.Numbers.{result_numbers, answer_numbers, lookup_numbers, Narrow};
ghost use Rattle.qaabireed.specs.Calls.{CheckCalled, LookupCalled};

use lookups::{Answered, LookupRefusal, Target, lookup};
use rules::rule_number;
use symbols::ABSENT;
use validator::{CheckRefusal, Verdict, check};

// What a call returns: the result was written, or its buffer is too short.
const OK: u32 = 0;

const RESULT_TOO_SHORT: u32 = 1;

// Writes numbers at the buffer's start; the rest stays.
#[tactic(auto, unfolding(records::specs::Buffers::overlay))]
fn put(res: &mut [u32], numbers: &[u32])
    requires { length numbers.now ≤ length res.old }
    ensures { res.new ≡ overlay numbers.now res.old }
{
    let n = numbers.len();
    res[..n].copy_from_slice(numbers);
}

// The numbers of a check's answer.
#[tactic(auto, unfolding(crate::specs::Numbers::result_numbers, validator::specs::Results::result_of))]
fn check_numbers(answer: Result<Verdict, CheckRefusal>) -> [u32; 7]
    requires { Narrow (result_numbers (result_of answer)) }
    ensures { result ≡ result_numbers (result_of answer) }
{
    match answer {
        Ok(Verdict::Accepted(entries)) => [0, 0, ABSENT, ABSENT, ABSENT, entries as u32, 0],
        Ok(Verdict::Breached(b)) => [
            1,
            rule_number(b.rule).into(),
            b.place as u32,
            b.first as u32,
            b.second as u32,
            b.entries as u32,
            b.message as u32,
        ],
        Err(refusal) => [2, refusal.number() as u32, ABSENT, ABSENT, ABSENT, 0, 0],
    }
}

// Checks a story file, and writes the numbers of the result; 1, and nothing is written, where their buffer has under seven.
pub fn qaabireed_check(file: &[u8], index: &mut [u32], message: &mut [u8], res: &mut [u32]) -> u32
    ensures { CheckCalled file.now index.old message.old res.old result index.new message.new res.new }
{
    if res.len() < 7 {
        return RESULT_TOO_SHORT;
    }
    let answer = check(file, index, message);
    put(res, &check_numbers(answer));
    OK
}

// The numbers of what a target is, with the entry count.
#[tactic(auto, unfolding(lookups::specs::Results::answer_of))]
fn target_numbers(target: Target, entries: u32) -> [u32; 4]
    requires { Narrow (answer_numbers (answer_of target) entries) }
    ensures { result ≡ answer_numbers (answer_of target) entries }
{
    match target {
        Target::Pass => [0, 0, ABSENT, entries],
        Target::Function => [0, 1, ABSENT, entries],
        Target::Reserved => [0, 2, ABSENT, entries],
        Target::Exact(k) => [0, 3, k as u32, entries],
        Target::Ending(k) => [0, 4, k as u32, entries],
        Target::Missing => [0, 5, ABSENT, entries],
    }
}

// The numbers of a lookup's answer.
#[tactic(auto, unfolding(crate::specs::Numbers::lookup_numbers, lookups::specs::Results::result_of))]
fn lookup_numbers(answer: Result<Answered, LookupRefusal>) -> [u32; 4]
    requires { Narrow (lookup_numbers (lookup.result_of answer)) }
    ensures { result ≡ lookup_numbers (lookup.result_of answer) }
{
    match answer {
        Ok(a) => target_numbers(a.target, a.entries as u32),
        Err(refusal) => [2, refusal.number() as u32, ABSENT, 0],
    }
}

// Looks a target up, and writes the numbers of the result; 1, and nothing is written, where their buffer has under four.
pub fn qaabireed_lookup(file: &[u8], index: &mut [u32], target: &[u8], res: &mut [u32]) -> u32
    ensures { LookupCalled file.now index.old target.now res.old result index.new res.new }
{
    if res.len() < 4 {
        return RESULT_TOO_SHORT;
    }
    let answer = lookup(file, index, target);
    put(res, &lookup_numbers(answer));
    OK
}
