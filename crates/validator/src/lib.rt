// The check of a story file: refusals, index, rules and text.
#![tactic(auto)]

ghost use Rattle.std.specs.Prelude.{◌≡◌, ◌+◌, ◌≤◌, ◌*◌, length};
ghost use Rattle.story.specs.File.{story_in};
ghost use Rattle.validator.specs.declared.CheckRefusal.TheVariants.{Unreadable};
ghost use Rattle.validator.specs.Results.{number_of};
ghost use Rattle.validator.specs.Answers.{Told};
ghost use Rattle.validator.specs.Check.{story_report, report_at};
ghost use Rattle.validator.specs.Checked.{Reported, Checked};

use context::BreachAt;
use context::context::{Tables, validate_story};
use fields::{Refusal, refusal_number};
use items::files::{KeptFile, read_kept};
use messages::write_message;
use names::name_at;
use rules::Rule;
use story::trailer::read_trailer;
use symbols::entries::write_index;
use symbols::targets::EntryIndex;
use tables::functions::put_functions;
use tables::hints::put_hints;

// A breach: the rule, the place, the places of the two names for the text, how many entries the index has, and how long the text is.
#[derive(Clone, Copy)]
pub struct Breach {
    pub rule: Rule,
    pub place: usize,
    pub first: usize,
    pub second: usize,
    pub entries: usize,
    pub message: usize,
}

// What a check finds in a readable file: it is accepted, with the number of entries; or a breach.
#[derive(Clone, Copy)]
pub enum Verdict {
    Accepted(usize),
    Breached(Breach),
}

// Why a check is refused: the reader's refusal, 1 to 6; 7, the index is too short; 8, the message buffer is.
#[derive(Clone, Copy)]
pub enum CheckRefusal {
    Unreadable(Refusal),
    ShortIndex,
    ShortMessage,
}

impl CheckRefusal {
    // The number of the refusal.
    pub fn number(self) -> usize
        ensures { result ≡ number_of self }
    {
        match self {
            CheckRefusal::Unreadable(r) => refusal_number(r),
            CheckRefusal::ShortIndex => 7,
            CheckRefusal::ShortMessage => 8,
        }
    }
}

impl From<Refusal> for CheckRefusal {
    ghost from_gives = { λ r e. e ≡ Unreadable r };

    // The reader's refusal is the check's.
    fn from(r: Refusal) -> CheckRefusal {
        CheckRefusal::Unreadable(r)
    }
}

// The buffers that the steps work in.
#[derive(Drop)]
struct Scratch<'a> {
    functions: &'a mut [u32],
    hints: &'a mut [u32],
    declared: &'a mut [u8],
    gathers: &'a mut [u8],
}

// Writes the text of a breach, with the names that stand at its two places, and answers the breach.
fn write_breach(file: &[u8], b: BreachAt, entries: usize, message: &mut [u8]) -> Breach
    requires { 640 ≤ length message.old }
    ensures { Told file.now b entries message.old result message.new }
{
    let rule = b.rule;
    let size = write_message(
        rule,
        name_at(file, b.first),
        name_at(file, b.second),
        message,
    );
    Breach {
        rule,
        place: b.place,
        first: b.first,
        second: b.second,
        entries,
        message: size,
    }
}

// Writes the index, runs the twenty steps, and answers; where there is a breach, writes its text.
fn check_story(
    story: &KeptFile<'_>,
    index: &mut [u32],
    message: &mut [u8],
    scratch: Scratch,
) -> Verdict
    requires { (3 * story.now.source.sections.end ≤ length index.old) × (640 ≤ length message.old) }
    ensures { let source = story.now.source in Reported (story_report source.file.now (story_in source.sections source.file.now)) index.old message.old (Ok result) index.new message.new }
{
    let Scratch {
        functions,
        hints,
        declared,
        gathers,
    } = scratch;
    let file = story.source.file;
    let sections = story.source.sections;
    let count = write_index(story, index);
    put_functions(file, sections, functions);
    let entries = EntryIndex {
        file,
        numbers: index,
        count,
    };
    put_hints(&entries, hints);
    let tables = Tables {
        index,
        count,
        functions,
        hints,
    };
    let found = validate_story(
        file,
        sections,
        story.kept.numbers,
        tables,
        declared,
        gathers,
    );
    let Some(b) = found else {
        return Verdict::Accepted(count);
    };
    Verdict::Breached(write_breach(file, b, count, message))
}

// The check of a readable file, by the numbers kept of it: refusals 7 and 8, and then its story.
fn check_readable(
    story: &KeptFile<'_>,
    index: &mut [u32],
    message: &mut [u8],
    scratch: Scratch,
) -> Result<Verdict, CheckRefusal>
    ensures { let source = story.now.source in Reported (report_at (Ok source.sections) source.file.now (length index.old) (length message.old)) index.old message.old result index.new message.new }
{
    if index.len() < 3 * story.source.sections.end {
        return Err(CheckRefusal::ShortIndex);
    }
    if message.len() < 640 {
        return Err(CheckRefusal::ShortMessage);
    }
    Ok(check_story(story, index, message, scratch))
}

// The check of a file, in buffers that are lent for it. The first is for the numbers kept, of which a file has at most one for six bytes.
fn check_in(
    file: &[u8],
    index: &mut [u32],
    message: &mut [u8],
    items: &mut [u32],
    scratch: Scratch,
) -> Result<Verdict, CheckRefusal>
    requires { length file.now ≤ 1048576 → length file.now ≤ 6 * length items.old }
    ensures { Checked file.now index.old message.old result index.new message.new }
{
    let story = read_kept(file, items)?;
    check_readable(&story, index, message, scratch)
}

// The check of a file, in buffers of these lengths: of 9 KB for a file of 4,096 bytes, of 126 KB for 65,536 bytes, of 1.5 MB for the longest.
fn check_sized<
    const ITEMS: usize,
    const FUNCTIONS: usize,
    const HINTS: usize,
    const DECLARED: usize,
    const GATHERS: usize,
>(file: &[u8], index: &mut [u32], message: &mut [u8]) -> Result<Verdict, CheckRefusal>
    requires in_memory { ITEMS + FUNCTIONS + HINTS + DECLARED + GATHERS ≤ 1048576 }
    requires items_enough { length file.now ≤ 1048576 → length file.now ≤ 6 * ITEMS }
    ensures { Checked file.now index.old message.old result index.new message.new }
{
    let mut items = [0u32; ITEMS];
    let mut functions = [0u32; FUNCTIONS];
    let mut hints = [0u32; HINTS];
    let mut declared = [0u8; DECLARED];
    let mut gathers = [0u8; GATHERS];
    let scratch = Scratch {
        functions: &mut functions,
        hints: &mut hints,
        declared: &mut declared,
        gathers: &mut gathers,
    };
    check_in(file, index, message, &mut items, scratch)
}

// THE CHECK of a file. The index wants three numbers for each byte before the trailer, the message buffer 640 bytes. The trailer is judged first: no buffers are made for a file that it refuses.
pub fn check(file: &[u8], index: &mut [u32], message: &mut [u8]) -> Result<Verdict, CheckRefusal>
    ensures { Checked file.now index.old message.old result index.new message.new }
{
    read_trailer(file)?;
    match file.len() {
        ..=4096 => check_sized::<683, 256, 1024, 256, 1024>(file, index, message),
        4097..=65536 => check_sized::<10923, 8192, 8192, 8192, 8192>(file, index, message),
        _ => check_sized::<174763, 65536, 98304, 32768, 131072>(file, index, message),
    }
}
