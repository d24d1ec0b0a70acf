// Builds stories at the limits in a buffer, checks each, and writes its line and its number of entries.
#![tactic(auto)]

use builder::{Builder, Kind, Starts};
use lines::check_line;
use std::io;
use validator::Verdict;

// The name of the knot, and one that no story here has.
const KNOT: &[u8] = b"k";

const ELSEWHERE: &[u8] = b"x";

// The bytes that the message buffer wants, and the numbers that the index of a file of 420,000 bytes wants.
const MESSAGE: usize = 640;

const NUMBERS: usize = 1259940;

// What a story is made of.
#[derive(Clone, Copy)]
enum Story {
    // Empty globals, and a knot with a stitch; the root, the knot and the stitch have so many diverts to the knot, the stitch a last one too.
    Diverts {
        globals: usize,
        many: usize,
        last: &'static [u8],
    },

    // So many calls in the root: as many kept records as its length allows.
    Calls(usize),

    // An output in the root that holds so many Negates around a constant.
    Nested(u8),

    // A gather label twice in the root, and a wrong divert in the knot.
    Gathers,

    // So many empty globals alone. The index for 1,048,576 bytes is larger than a stack of 8 MiB: the file is read, and refused by 7.
    Globals(usize),
}

// A story, and how many numbers of the index and bytes of the message buffer are lent to its check.
#[derive(Clone, Copy)]
struct Case {
    story: Story,
    numbers: usize,
    bytes: usize,
}

// A case with all that its check wants.
fn whole(story: Story) -> Case {
    Case {
        story,
        numbers: NUMBERS,
        bytes: MESSAGE,
    }
}

// A case without an index.
fn without_index(story: Story) -> Case {
    Case {
        story,
        numbers: 0,
        bytes: MESSAGE,
    }
}

// A story with diverts.
fn diverts(globals: usize, many: usize, last: &'static [u8]) -> Story {
    Story::Diverts {
        globals,
        many,
        last,
    }
}

// Puts so many diverts to the knot.
fn put_diverts(file: &mut Builder, many: usize) {
    for _ in 0..many {
        file.named(Kind::Divert.byte(), KNOT);
    }
}

// Puts a name, no parameters, no divert parameters, and a list of so many diverts to the knot and a last one.
fn put_named_list(file: &mut Builder, name: &[u8], many: usize, last: &[u8]) {
    file.name(name);
    file.zeros(2);
    file.sized(|file| {
        put_diverts(file, many);
        file.named(Kind::Divert.byte(), last);
    });
}

// Puts the knot, with one stitch; both have so many diverts to the knot and a last one.
fn put_knot(file: &mut Builder, many: usize, last: &[u8], stitch_last: &[u8]) {
    file.sized(|file| {
        file.byte(0);
        put_named_list(file, KNOT, many, last);
        file.sized(|file| put_named_list(file, b"s", many, stitch_last));
    });
}

// Puts the globals and the root of a story. The places where these and the flows start.
fn put_front(file: &mut Builder, story: Story) -> Starts {
    match story {
        Story::Diverts { globals, .. } | Story::Globals(globals) => file.zeros(globals),
        Story::Calls(_) | Story::Nested(_) | Story::Gathers => {}
    }
    let root = file.end();
    match story {
        Story::Diverts { many, .. } => put_diverts(file, many),
        Story::Calls(many) => {
            for _ in 0..many {
                file.named(Kind::Call.byte(), b"");
            }
        }
        Story::Nested(negations) => {
            file.head(Kind::Output.byte(), 5 * negations as usize + 5);
            file.negations(negations as usize);
        }
        Story::Gathers => {
            file.named(Kind::Gather.byte(), b"a");
            file.named(Kind::Gather.byte(), b"a");
        }
        Story::Globals(_) => {}
    }
    Starts {
        globals: 0,
        externals: root,
        root,
        flows: file.end(),
    }
}

// Puts a story.
fn put_story(file: &mut Builder, story: Story) {
    let starts = put_front(file, story);
    match story {
        Story::Diverts { many, last, .. } => put_knot(file, many, KNOT, last),
        Story::Gathers => put_knot(file, 0, ELSEWHERE, KNOT),
        Story::Calls(_) | Story::Nested(_) | Story::Globals(_) => {}
    }
    file.trailer(starts);
}

// The number of entries of a verdict.
fn entries_of(verdict: Verdict) -> usize {
    match verdict {
        Verdict::Accepted(n) => n,
        Verdict::Breached(b) => b.entries,
    }
}

// Checks a file, and writes its line and its number of entries.
fn print_file(
    rt: &impl Print,
    file: &[u8],
    index: &mut [u32],
    message: &mut [u8],
) -> io::Result<()> {
    let mut out = [0u8; 700];
    let checked = check_line(file, index, message, out.as_mut_slice());
    rt.write_all(&out[..checked.length])?;
    match checked.answer {
        Ok(verdict) => println!(rt; "entries {}", entries_of(verdict)),
        Err(_) => Ok(()),
    }
}

// Builds the story of a case in the lent bytes, checks it with what the case lends, and writes its line.
fn print_case(rt: &impl Print, case: Case, space: &mut [u8], index: &mut [u32]) -> io::Result<()> {
    let mut message = [0u8; MESSAGE];
    let mut file = Builder::new(space);
    put_story(&mut file, case.story);
    let Some(lent) = index.get_mut(..case.numbers) else {
        return Ok(());
    };
    let Some(bytes) = message.get_mut(..case.bytes) else {
        return Ok(());
    };
    print_file(rt, file.file(), lent, bytes)
}

// Writes the lines of cases whose files have at most 420,000 bytes.
fn run_stories(rt: &impl Print, cases: &[Case]) -> io::Result<()> {
    let mut space = [0u8; 420000];
    let mut index = [0u32; NUMBERS];
    for case in cases {
        print_case(rt, *case, space.as_mut_slice(), index.as_mut_slice())?;
    }
    Ok(())
}

// Writes the lines of cases with the longest files, whose checks are lent no index.
fn run_long(rt: &impl Print, cases: &[Case]) -> io::Result<()> {
    let mut space = [0u8; 1048577];
    for case in cases {
        print_case(rt, *case, space.as_mut_slice(), &mut [])?;
    }
    Ok(())
}

// Writes the lines of all cases: 4,096 bytes and one more, 65,536 bytes and one more; roots of calls for two sets of buffers; depths 64 and 65; gathers;
// 1,048,576 bytes and one more, and a root of calls as long; 420,000 bytes, also with an index and with a message buffer one short.
// The longest files and the longest index are not on the stack at one time.
fn main(rt: HostRuntime) -> io::Result<()> {
    let short = [
        whole(diverts(47, 190, ELSEWHERE)),
        whole(diverts(48, 190, ELSEWHERE)),
        whole(diverts(20, 3117, ELSEWHERE)),
        whole(diverts(21, 3117, ELSEWHERE)),
        whole(Story::Calls(679)),
        whole(Story::Calls(10919)),
        whole(Story::Nested(62)),
        whole(Story::Nested(63)),
        whole(Story::Gathers),
    ];
    let long = [
        without_index(Story::Globals(1048556)),
        without_index(Story::Globals(1048557)),
        without_index(Story::Calls(174759)),
    ];
    let large = diverts(151, 19990, KNOT);
    let lent_less = [
        whole(large),
        Case {
            numbers: NUMBERS - 1,
            ..whole(large)
        },
        Case {
            bytes: MESSAGE - 1,
            ..whole(large)
        },
        whole(diverts(151, 19990, ELSEWHERE)),
    ];
    run_stories(&rt, &short)?;
    run_long(&rt, &long)?;
    run_stories(&rt, &lent_less)
}
