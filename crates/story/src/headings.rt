// Where the parts of a flow or a stitch begin.
ghost use Rattle.std.specs.Prelude.{◌≡◌, ◌≤◌, length};
ghost use Rattle.story.specs.Headings.{names_reach, counted_reach, heading_of};

use crate::Heading;
use fields::{Refusal, read_list, read_name};

// How far so many names reach, from the offset on.
fn names_reach(s: &[u8], many: u8, at: usize) -> Result<usize, Refusal>
    requires { at ≤ length s.now }
    ensures { result ≡ names_reach s.now many at }
{
    let mut e = at;
    for _ in 0..many {
        e += read_name(&s[e..])?;
    }
    Ok(e)
}

// How far a count byte and so many names reach, from the offset on.
fn counted_reach(s: &[u8], at: usize) -> Result<usize, Refusal>
    ensures { result ≡ counted_reach s.now at }
{
    if at < s.len() {
        return names_reach(s, s[at], at + 1);
    }
    Err(Refusal::Short)
}

// The heading of a flow or a stitch, from its name's count byte on.
pub fn read_heading(s: &[u8]) -> Result<Heading, Refusal>
    ensures { result ≡ heading_of s.now }
{
    let params = read_name(s)?;
    let marks = counted_reach(s, params)?;
    let list = counted_reach(s, marks)?;
    let e = read_list(&s[list..])?;
    Ok(Heading {
        params,
        marks,
        nodes: list + 4,
        end: list + e,
    })
}
