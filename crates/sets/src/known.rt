// The names of the whole story in one set: globals, externals, flows and functions, each in its class, as far as there is room.
ghost use Rattle.std.specs.Prelude.{◌≡◌, ◌≤◌, ◌<◌, length, is_err};
ghost use Rattle.names.specs.Words.{any, one_of};
ghost use Rattle.story.specs.Story.{words};
ghost use Rattle.story.specs.File.{story_in};
ghost use Rattle.searches.specs.Called.{is_flow, is_function};
ghost use Rattle.sets.specs.Sets.{number_of, name_slots, Reachable, Without};
ghost use Rattle.sets.specs.Known.{NamesPut, FlowPut, FlowsPut, NamesIn};

use crate::{Class, Full, clear, has, put};
use searches::views::{FlowView, flow_view};
use searches::{is_flow_name, is_function_name, section_has_name};
use story::FileView;

// The offsets from which on the names of the globals, of the externals and of the flows are not in the set.
#[derive(Clone, Copy)]
pub struct Names {
    pub globals: usize,
    pub externals: usize,
    pub flows: usize,
}

// Puts the names of a section into the set, in the class, up to the first for which there is no room. The answer is the offset of that name.
fn put_names(file: &[u8], class: Class, from: usize, to: usize, set: &mut [u32]) -> usize
    requires from_le_to { (from ≤ to) × (to ≤ length file.now) × (to ≤ 1048576) }
    requires without { Without (name_slots file.now) (number_of class) set.old }
    ensures { NamesPut file.now (number_of class) from to set.old set.new result }
{
    let mut at = from;
    while at < to {
        let next = at + 1 + file[at] as usize;
        if to < next {
            return at;
        }
        if put(file, at, class, set).is_err() {
            return at;
        }
        at = next;
    }
    at
}

// Puts the name of a flow, and once more as a function's where it is one.
fn put_flow(file: &[u8], v: FlowView, set: &mut [u32]) -> Result<(), Full>
    requires name_bound { v.name < 1048576 }
    requires reachable { Reachable (name_slots file.now) set.old }
    ensures { FlowPut file.now v set.old set.new (is_err result) }
{
    put(file, v.name, Class::Flow, set)?;
    if v.function {
        put(file, v.name, Class::Function, set)?;
    }
    Ok(())
}

// Puts the names of the flows, up to the first for which there is no room. The answer is the offset of that flow.
fn put_flows(source: &FileView<'_>, set: &mut [u32]) -> usize
    requires without { Without (name_slots source.now.file.now) 2 set.old }
    requires without_2 { Without (name_slots source.now.file.now) 3 set.old }
    ensures { FlowsPut source.now.file.now source.now.sections set.old set.new result }
{
    let mut at = source.sections.flows;
    while let Some(v) = flow_view(source.file, at, source.sections.end) {
        if put_flow(source.file, v, set).is_err() {
            return at;
        }
        at = v.end;
    }
    at
}

// Empties the set, and puts the names of the story.
pub fn put_known(source: &FileView<'_>, set: &mut [u32]) -> Names
    ensures { NamesIn source.now.file.now source.now.sections set.new result }
{
    let file = source.file;
    let c = source.sections;
    clear(set);
    let globals = put_names(file, Class::Global, 0, c.externals, set);
    let externals = put_names(file, Class::External, c.externals, c.root, set);
    let flows = put_flows(source, set);
    Names {
        globals,
        externals,
        flows,
    }
}

// The names of a story as its set has them: the file with its sections, the filled set, and the names that are not in it.
#[derive(Clone, Copy)]
pub struct Known<'a> {
    pub source: FileView<'a>,
    pub set: &'a [u32],
    pub rest: Names,
    pub ghost names_in: { NamesIn source.file.now source.sections set.now rest },
}

impl Known<'_> {
    // The name is a global's: by the set, or by going through those that are not in it.
    pub fn is_global(&self, name: &[u8]) -> bool
        ensures { result ≡ one_of name.now (words (story_in self.now.source.sections self.now.source.file.now).globals) }
    {
        let from = self.rest.globals;
        let to = self.source.sections.externals;
        has(self.source.file, self.set, Class::Global, name)
            || section_has_name(&self.source.file[from..to], name)
    }

    // The name is an external's.
    pub fn is_external(&self, name: &[u8]) -> bool
        ensures { result ≡ one_of name.now (words (story_in self.now.source.sections self.now.source.file.now).externals) }
    {
        let from = self.rest.externals;
        let to = self.source.sections.root;
        has(self.source.file, self.set, Class::External, name)
            || section_has_name(&self.source.file[from..to], name)
    }

    // The name is a flow's.
    pub fn is_flow(&self, name: &[u8]) -> bool
        ensures { result ≡ any (is_flow name.now) (story_in self.now.source.sections self.now.source.file.now).flows }
    {
        let from = self.rest.flows;
        let to = self.source.sections.end;
        has(self.source.file, self.set, Class::Flow, name)
            || is_flow_name(&self.source.file[from..to], name)
    }

    // The name is a function's.
    pub fn is_function(&self, name: &[u8]) -> bool
        ensures { result ≡ any (is_function name.now) (story_in self.now.source.sections self.now.source.file.now).flows }
    {
        let from = self.rest.flows;
        let to = self.source.sections.end;
        has(self.source.file, self.set, Class::Function, name)
            || is_function_name(&self.source.file[from..to], name)
    }
}
