// The names of the whole story: functions, flows, globals, externals and targets.
ghost use Rattle.std.specs.Prelude.{◌≡◌};
ghost use Rattle.checks.specs.Context.{known_in};

use crate::view::{IndexView, StoryView};
use names::is_reserved;
use searches::{is_flow_name, section_has_name};
use story::FileView;
use tables::functions::is_function_in;
use tables::hints::find_target_in;

// The name is a flow's.
#[tactic(auto, using(crate::proofs::Asked::flow_asked))]
pub fn is_flow(source: &FileView<'_>, name: &[u8]) -> bool
    ensures { result ≡ (known_in source.now.sections source.now.file.now).flow name.now }
{
    let c = source.sections;
    is_flow_name(&source.file[c.flows..c.end], name)
}

// The name is a global's.
#[tactic(auto, using(crate::proofs::Asked::global_asked))]
pub fn is_global(source: &FileView<'_>, name: &[u8]) -> bool
    ensures { result ≡ (known_in source.now.sections source.now.file.now).global name.now }
{
    let c = source.sections;
    section_has_name(&source.file[0..c.externals], name)
}

// The name is an external's.
#[tactic(auto, using(crate::proofs::Asked::external_asked))]
pub fn is_external(source: &FileView<'_>, name: &[u8]) -> bool
    ensures { result ≡ (known_in source.now.sections source.now.file.now).external name.now }
{
    let c = source.sections;
    section_has_name(&source.file[c.externals..c.root], name)
}

impl StoryView<'_> {
    // The name is a function's.
    #[tactic(auto, using(crate::proofs::Asked::function_asked))]
    pub fn is_function(&self, name: &[u8]) -> bool
        ensures { result ≡ (known_in self.now.source.sections self.now.source.file.now).function name.now }
    {
        is_function_in(&self.source, self.functions, name)
    }
}

impl IndexView<'_> {
    // The target is valid, or some spelling ends in "." and the target.
    #[tactic(auto, using(crate::proofs::Asked::target_reserved))]
    pub fn is_target(&self, target: &[u8]) -> bool
        ensures { result ≡ (known_in self.now.story.source.sections self.now.story.source.file.now).target target.now }
    {
        if is_reserved(target) {
            return true;
        }
        find_target_in(&self.entries, self.hints, target)
    }
}
