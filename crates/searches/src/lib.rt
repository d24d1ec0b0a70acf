// Searches for names in the sections of a story file.
#![tactic(auto)]

ghost use Rattle.std.specs.Prelude.{◌≡◌};
ghost use Rattle.names.specs.Words.{one_of, any};
ghost use Rattle.story.specs.Story.{words};
ghost use Rattle.story.specs.Flows.{names_in, counted_in, flow_in, flows_in};
ghost use Rattle.searches.specs.Called.{called_as, is_flow, is_function};
ghost use Rattle.searches.specs.NameViews.{names_left};
ghost use Rattle.searches.specs.Counted.{counted_at};

pub mod name_views;
pub mod views;

use crate::name_views::{NamesFrom, counted};
use fields::read_list;
use names::{same_at, same_name};
use records::sorts::is_flagged;

// The name is one of those that are left. Stops at the name found.
fn names_have(names: NamesFrom<'_>, name: &[u8]) -> bool
    ensures { result ≡ one_of name.now (words (names_left names.entry)) }
{
    for view in names {
        if same_name(name, view.bytes) {
            return true;
        }
    }
    false
}

// The name is one of a section of names.
#[tactic(auto, unfolding(story::specs::Flows::names_in))]
pub fn section_has_name(s: &[u8], name: &[u8]) -> bool
    ensures { result ≡ one_of name.now (words (names_in 0 s.now)) }
{
    let all = NamesFrom {
        file: s,
        at: 0,
        many: s.len(),
    };
    names_have(all, name)
}

// The name is one of the names that the count byte at the front of s counts.
pub fn counted_has_name(s: &[u8], name: &[u8]) -> bool
    ensures { result ≡ one_of name.now (words (counted_in 0 s.now)) }
{
    names_have(counted(s, 0), name)
}

// The name is one of those that the count byte at the place counts.
pub fn is_counted(file: &[u8], at: usize, name: &[u8]) -> bool
    ensures { result ≡ counted_at file.now at name.now }
{
    names_have(counted(file, at), name)
}

// The flow whose bytes after the length are s has the name, and is a function where one is asked for.
fn is_called(s: &[u8], name: &[u8], function: bool) -> bool
    ensures { result ≡ called_as function name.now (flow_in 0 s.now) }
{
    (!function || is_flagged(s)) && same_at(s, 1, name)
}

// A flow of the section has the name, and is a function where one is asked for. Stops at the flow found.
fn flows_have(s: &[u8], name: &[u8], function: bool) -> bool
    ensures { result ≡ any (called_as function name.now) (flows_in 0 s.now) }
{
    let mut t = s;
    while let Ok(e) = read_list(t) {
        if is_called(&t[4..e], name, function) {
            return true;
        }
        t = &t[e..];
    }
    false
}

// The name is a flow's.
pub fn is_flow_name(s: &[u8], name: &[u8]) -> bool
    ensures { result ≡ any (is_flow name.now) (flows_in 0 s.now) }
{
    flows_have(s, name, false)
}

// The name is a function's.
pub fn is_function_name(s: &[u8], name: &[u8]) -> bool
    ensures { result ≡ any (is_function name.now) (flows_in 0 s.now) }
{
    flows_have(s, name, true)
}
