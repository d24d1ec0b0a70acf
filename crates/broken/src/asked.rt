// The thing at hand with all that the rules may ask, and the fifteen rules there.
ghost use Rattle.std.specs.Prelude.{◌≡◌};
ghost use Rattle.records.specs.Items.{What};
ghost use Rattle.broken.specs.Things.{ThingIs};
ghost use Rattle.broken.specs.Scopes.{broken_at, NamesReady, TargetsReady, ScopeReady, Ready};

use crate::{At, Site, StoryView};
use rules::Rule;
use sets::known::Known;
use sets::members::NamedItems;
use story::FileView;

// A story at hand: its file, its kept items, the sets of its names and of its targets, and what it has in no set. The sets are filled.
#[derive(Clone, Copy)]
pub struct Story<'a> {
    pub file: &'a [u8],
    pub kept: &'a [u32],
    pub names: &'a [u32],
    pub targets: &'a [u64],
    pub view: StoryView,
    pub ghost names_ready: { NamesReady file.now view names.now },
    pub ghost targets_ready: { TargetsReady file.now view kept.now targets.now },
}

impl<'a> Story<'a> {
    // The names of the story, by their set.
    pub fn known(&self) -> Known<'a>
        ensures file { result.source.file.now ≡ self.now.file.now }
        ensures sections { result.source.sections ≡ self.now.view.sections }
        ensures set { result.set.now ≡ self.now.names.now }
        ensures rest { result.rest ≡ self.now.view.names }
    {
        let source = FileView {
            file: self.file,
            sections: self.view.sections,
        };
        Known {
            source,
            set: self.names,
            rest: self.view.names,
        }
    }

    // The kept items of the story.
    pub fn items(&self) -> NamedItems<'a>
        ensures file { result.file.now ≡ self.now.file.now }
        ensures items { result.items.now ≡ self.now.kept.now }
    {
        NamedItems {
            file: self.file,
            items: self.kept,
        }
    }
}

// The root, the flow or the stitch at hand: its runs, which stand within the kept items of the file, and what of them is in no set.
#[derive(Clone, Copy)]
pub struct Here<'a> {
    pub file: &'a [u8],
    pub kept: &'a [u32],
    pub site: Site,
    pub ghost ready: { ScopeReady file.now kept.now site.scope },
}

// What the rules may ask at a thing: the story, the sets of the knot and of the body, and where the thing stands. All of it is ready.
#[derive(Clone, Copy)]
pub struct Asked<'a, 'b> {
    pub story: &'a Story<'b>,
    pub knot: &'a [u32],
    pub body: &'a [u32],
    pub at: At,
    pub ghost ready: { Ready story.now.file.now story.now.kept.now knot.now body.now at.site at.number },
}

impl Asked<'_, '_> {
    // THE RULES: the rule is broken at the thing.
    pub fn is_broken(&self, rule: Rule) -> bool
        ensures { (w : What) → ThingIs self.now.story.now.file.now self.now.at.thing w → result ≡ broken_at self.now.story.now.view.sections self.now.story.now.file.now self.now.story.now.kept.now self.now.at rule w }
    {
        let story = self.story;
        let known = story.known();
        let At {
            site,
            thing,
            number,
        } = self.at;
        let scope = site.scope;
        let here = Here {
            file: story.file,
            kept: story.kept,
            site,
        };
        match rule {
            Rule::FunctionDivertedTo => thing.is_function_diverted_to(&known),
            Rule::TargetNotFound => thing.is_target_not_found(story),
            Rule::FlowCalled => thing.is_flow_called(&known),
            Rule::NameIsFunction => thing.is_name_of_function(&known),
            Rule::NameIsGlobal => thing.is_name_of_global(&known),
            Rule::TempIsParameter => thing.is_temp_parameter(story.file, scope),
            Rule::TempIsLabel => here.is_temp_label(self.knot, thing),
            Rule::ParameterUnmarked => thing.is_parameter_unmarked(story.file, scope),
            Rule::ParameterAlreadyMarked => thing.is_parameter_already_marked(story.file, scope),
            Rule::GatherRepeated => here.is_gather_repeated(self.body, number, thing),
            Rule::ChoiceUndiverted => thing.is_choice_undiverted(),
            Rule::FunctionWithStitches => thing.is_function_with_stitches(scope),
            Rule::FunctionWithChoice => thing.is_function_with_choice(),
            Rule::FunctionWithDivert => thing.is_function_with_divert(story.file),
            Rule::VariableForbidden => {
                here.is_variable_forbidden(self.knot, self.body, number, thing)
            }
        }
    }
}
