// The archive for programs in other languages: the calls of the library, each with its clauses.
#![tactic(auto)]

ghost use Rattle.qaabireed.specs.Calls.{CheckCalled, LookupCalled};

// Checks a story file, and writes the numbers of the result; 1, and nothing is written, where their buffer has under seven.
#[unsafe(no_mangle)]
pub extern "C" fn qaabireed_check(
    file: &[u8],
    index: &mut [u32],
    message: &mut [u8],
    res: &mut [u32],
) -> u32
    ensures { CheckCalled file.now index.old message.old res.old result index.new message.new res.new }
{
    qaabireed::qaabireed_check(file, index, message, res)
}

// Looks a target up, and writes the numbers of the result; 1, and nothing is written, where their buffer has under four.
#[unsafe(no_mangle)]
pub extern "C" fn qaabireed_lookup(
    file: &[u8],
    index: &mut [u32],
    target: &[u8],
    res: &mut [u32],
) -> u32
    ensures { LookupCalled file.now index.old target.now res.old result index.new res.new }
{
    qaabireed::qaabireed_lookup(file, index, target, res)
}
