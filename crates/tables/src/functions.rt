// The table of a story's functions.
ghost use Rattle.std.specs.Prelude.{Ok, ◌≡◌, ◌-◌, ◌≤◌, ◌<◌, length};
ghost use Rattle.names.specs.Words.{same, any};
ghost use Rattle.names.specs.Counted.{name_at};
ghost use Rattle.story.specs.File.{read_of, story_in};
ghost use Rattle.searches.specs.Called.{is_function};
ghost use Rattle.tables.specs.Functions.{sought_of, with_flow, Functions};

use crate::hashes::hash_of;
use crate::seek;
use names::{name_at, same_at};
use searches::is_function_name;
use searches::views::{FlowView, flow_view};
use sets::{Sought, clear};
use story::{FileView, Sections};

// Goes over the slots of a name up to the name or an empty slot.
fn seek_name(file: &[u8], table: &[u32], name: &[u8]) -> Sought
    requires { 0 < length table.now }
    ensures { result ≡ sought_of file.now table.now name.now }
{
    let is_met = |number: usize| -> bool
        requires { number ≡ 0 → ⊥ }
        ensures { result ≡ same name.entry.now (name_at file.entry.now (number - 1)) }
    { same_at(file, number - 1, name) };
    seek(table, hash_of(name), is_met)
}

// Writes the name's place of a flow that is a function into the first empty slot of the name, unless the name stands before it.
fn put_flow(file: &[u8], v: FlowView, table: &mut [u32])
    requires { (0 < length table.old) × (v.name ≤ 1048576) }
    ensures { table.new ≡ with_flow file.now v table.old }
{
    if v.function {
        if let Sought::Vacant(slot) = seek_name(file, table, name_at(file, v.name)) {
            table[slot] = (v.name + 1) as u32;
        }
    }
}

// Writes the table of the functions of a readable file. A slot has 1 + the place of the name of a function, or 0.
pub fn put_functions(file: &[u8], c: Sections, table: &mut [u32])
    requires { read_of file.now ≡ Ok c }
    ensures { Functions file.now c table.new }
{
    clear(table);
    if table.len() == 0 {
        return;
    }
    let mut at = c.flows;
    while let Some(v) = flow_view(file, at, c.end) {
        put_flow(file, v, table);
        at = v.end;
    }
}

// The name is a function's, by going through the flows.
fn is_function_listed(source: &FileView<'_>, name: &[u8]) -> bool
    ensures { result ≡ any (is_function name.now) (story_in source.now.sections source.now.file.now).flows }
{
    let c = source.sections;
    is_function_name(&source.file[c.flows..c.end], name)
}

// The name is a function's: by the table, or by going through the flows where other functions have all slots of the name.
pub fn is_function_in(source: &FileView<'_>, table: &[u32], name: &[u8]) -> bool
    requires { Functions source.now.file.now source.now.sections table.now }
    ensures { result ≡ any (is_function name.now) (story_in source.now.sections source.now.file.now).flows }
{
    if table.len() == 0 {
        return is_function_listed(source, name);
    }
    let found = seek_name(source.file, table, name);
    match found {
        Sought::Found => true,
        Sought::Vacant(_) => false,
        Sought::Exhausted => is_function_listed(source, name),
    }
}
