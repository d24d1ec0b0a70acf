// One look at a body, in front of its runs: whether no rule is broken at any of its items.
ghost use Rattle.std.specs.Prelude.{◌≡◌, []};
ghost use Rattle.items.specs.Bodies.{items_at};
ghost use Rattle.broken.specs.Scopes.{known_in, here_in, body_run, Ready};
ghost use Rattle.steps.specs.Clear.{clear_along};
ghost use Rattle.steps.specs.Looks.{look_rules, look_table, ClearAt};

use crate::visits::{at_item, thing_of};
use broken::Site;
use broken::asked::{Asked, Story};
use items::named::Sought;
use records::sorts::Sort;
use rules::Rule;
use sets::Class;
use sets::members::NamedItems;

// Which body is looked at: a stitch's, or the own list of a function.
#[derive(Clone, Copy)]
pub struct Look {
    pub inner: bool,
    pub function: bool,
}

// The rules of a look that can be broken at a thing of the sort, the cheapest first.
fn rules_at(look: Look, sort: Sort) -> &'static [Rule]
    ensures { result.now ≡ look_table look.inner look.function sort }
{
    match sort {
        Sort::Temp => &[
            Rule::TempIsParameter,
            Rule::NameIsFunction,
            Rule::TempIsLabel,
        ],
        Sort::Divert => {
            if look.function {
                &[
                    Rule::FunctionWithDivert,
                    Rule::ParameterUnmarked,
                    Rule::FunctionDivertedTo,
                    Rule::TargetNotFound,
                ]
            } else {
                &[
                    Rule::ParameterUnmarked,
                    Rule::FunctionDivertedTo,
                    Rule::TargetNotFound,
                ]
            }
        }
        Sort::Tunnel | Sort::Thread => &[
            Rule::ParameterUnmarked,
            Rule::FunctionDivertedTo,
            Rule::TargetNotFound,
        ],
        Sort::Call => &[Rule::FlowCalled],
        Sort::Variable => {
            if look.inner {
                &[Rule::VariableForbidden]
            } else {
                &[]
            }
        }
        Sort::Argument => &[Rule::ParameterAlreadyMarked],
        Sort::Choice => match (look.function, look.inner) {
            (true, true) => &[Rule::FunctionWithChoice],
            (true, false) => &[Rule::FunctionWithChoice, Rule::ChoiceUndiverted],
            (false, true) => &[],
            (false, false) => &[Rule::ChoiceUndiverted],
        },
        Sort::Gather => &[Rule::GatherRepeated],
        Sort::Parameter => &[Rule::NameIsFunction],
        Sort::Plain | Sort::StitchName | Sort::FlowStart => &[],
    }
}

// None of the rules is broken at the thing.
fn breaks_none(asked: &Asked<'_, '_>, rules: &[Rule]) -> bool
    ensures { ClearAt asked.now.story.now.view.sections asked.now.story.now.file.now asked.now.story.now.kept.now asked.now.at rules.now result }
{
    for &rule in rules {
        if asked.is_broken(rule) {
            return false;
        }
    }
    true
}

// No rule of the look is broken at the thing: by its sort, only those that can be broken there.
fn is_item_clear(look: Look, asked: &Asked<'_, '_>) -> bool
    ensures { ClearAt asked.now.story.now.view.sections asked.now.story.now.file.now asked.now.story.now.kept.now asked.now.at (look_rules look.inner look.function) result }
{
    breaks_none(asked, rules_at(look, asked.at.thing.sort))
}

// ONE LOOK: no rule of the look is broken at any item of the body. Each gather is put into the body's set after its look.
pub fn is_body_clear(
    look: Look,
    story: &Story<'_>,
    knot: &[u32],
    body: &mut [u32],
    site: Site,
) -> bool
    requires { Ready story.now.file.now story.now.kept.now knot.now body.old site 0 }
    ensures { result ≡ clear_along (known_in story.now.view.sections story.now.file.now) (here_in story.now.file.now story.now.kept.now site.scope) (look_rules look.inner look.function) [] (items_at story.now.file.now (body_run story.now.kept.now site.scope)) }
{
    let first = site.scope.first;
    let last = site.scope.last;
    let items = NamedItems {
        file: story.file,
        items: &story.kept[first..last],
    };
    let mut gathers = 0;
    for (i, &item) in items.items.iter().enumerate() {
        let asked = Asked {
            story,
            knot,
            body,
            at: at_item(site, gathers, thing_of(item), i),
        };
        if !is_item_clear(look, &asked) {
            return false;
        }
        gathers = items.put_next(Sought::Gather, i, gathers, Class::Gather, body);
    }
    true
}
