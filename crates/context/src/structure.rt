// Step 5, functions; step 6, parameters; step 12, a stitch's name (structure.rs).
ghost use Rattle.std.specs.Prelude.{◌≡◌, [], ◌∷◌, ◌<◌, length, drop};
ghost use Rattle.story.specs.Flows.{counted_in};
ghost use Rattle.items.specs.Bodies.{kept_story, kept_flow};
ghost use Rattle.rules.specs.Rules.{Here, knot};
ghost use Rattle.rules.specs.Steps.{s5, over, purity_items};
ghost use Rattle.context.specs.Found.{found_runs};
ghost use Rattle.context.specs.Scopes.{params_found, stitch_name_found};

use crate::BreachAt;
use crate::breaches::breach_at;
use crate::passes::PURITY;
use crate::view::KnotView;
use checks::structure::check_stitch_name;
use checks::view::StoryView;
use items::stitches::has_stitches;
use names::name_at;
use rules::Rule;
use searches::name_views::counted;
use story::FileView;

impl KnotView<'_, '_> {
    // Step 5, of a flow that is a function: rule 12 at its first byte, then rules 13 and 14 along its body.
    #[tactic(auto, using(crate::proofs::Runs::purity_stitched, crate::proofs::Runs::purity_body, crate::proofs::Runs::purity_skipped))]
    pub fn validate_function_purity(&self, gathers: &mut [u8]) -> Option<BreachAt>
        ensures { let b = self.now.knot.place.body in let f = kept_flow b.file.now b.kept.numbers.now self.now.flow in result ≡ found_runs (kept_story self.now.knot.index.story.source.sections b.file.now) (over (knot f) (purity_items self.now.flow.function f) (s5 ∷ [])) }
    {
        let v = self.flow;
        if v.function {
            if has_stitches(self.knot.place.body.file, v.stitches, v.end) {
                return Some(breach_at(Rule::FunctionWithStitches, v.at, v.name, v.name));
            }
            return self.knot.validate_passes(&PURITY, gathers);
        }
        None
    }
}

// Step 6: rules 4 and 5 at the parameters of the flow whose name stands at the first place.
pub fn validate_flow_parameter_names(
    story: &StoryView<'_>,
    flow: usize,
    params: usize,
) -> Option<BreachAt>
    requires { params < length story.now.source.file.now }
    ensures { (h : Here) → result ≡ params_found story.now.source.file.now story.now.source.sections h flow (counted_in params (drop params story.now.source.file.now)) }
{
    for name in counted(story.source.file, params) {
        if let Some(rule) = story.check_parameter_name(name.bytes) {
            return Some(breach_at(rule, name.at, flow, name.at));
        }
    }
    None
}

// Step 12: rule 5 at the stitch's name, in the flow whose name stands at the first place.
#[tactic(auto, using(crate::proofs::Params::name_passed, crate::proofs::Params::name_found))]
pub fn validate_stitch_name(source: &FileView<'_>, flow: usize, name: usize) -> Option<BreachAt>
    ensures { (h : Here) → result ≡ stitch_name_found source.now.file.now source.now.sections h flow name }
{
    check_stitch_name(source, name_at(source.file, name)).map(|rule| breach_at(
        rule, name, flow, name,
    ))
}
