// The trailer of a story file.
ghost use Rattle.std.specs.Prelude.{◌≡◌, ◌≤◌, length};
ghost use Rattle.story.specs.File.{marked, opened_of, start_at};

use crate::Sections;
use fields::{Refusal, word};

// The section start that stands so many bytes into the trailer.
fn start_at(file: &[u8], offset: usize) -> usize
    requires { (20 ≤ length file.now) × (offset ≤ 12) }
    ensures { result ≡ start_at file.now offset }
{
    let at = file.len() - 20 + offset;
    word(file[at], file[at + 1], file[at + 2], file[at + 3])
}

// The last four bytes are the mark.
#[tactic(auto, unfolding(crate::specs::File::marked))]
fn is_marked(file: &[u8]) -> bool
    requires { 20 ≤ length file.now }
    ensures { result ≡ marked file.now }
{
    file.ends_with(b"IK\x01\x00")
}

// The sections by the trailer: refusals 1, 2 and 3.
#[tactic(auto, unfolding(crate::specs::File::opened_of))]
pub fn read_trailer(file: &[u8]) -> Result<Sections, Refusal>
    ensures { result ≡ opened_of file.now }
{
    let n = file.len();
    if n < 20 || 1048576 < n {
        return Err(Refusal::Length);
    }
    if !is_marked(file) {
        return Err(Refusal::Mark);
    }
    let end = n - 20;
    let globals = start_at(file, 0);
    let externals = start_at(file, 4);
    let root = start_at(file, 8);
    let flows = start_at(file, 12);
    if globals != 0 || root < externals || flows < root || end < flows {
        return Err(Refusal::Starts);
    }
    Ok(Sections {
        externals,
        root,
        flows,
        end,
    })
}
