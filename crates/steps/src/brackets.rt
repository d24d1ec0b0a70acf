// The twenty steps with their rules, and the courses: the steps that run along one body.
ghost use Rattle.std.specs.Prelude.{◌≡◌, map, length};
ghost use Rattle.rules.specs.Steps.{bracket};
ghost use Rattle.steps.specs.Brackets.{step_of, step_at, on_gathers, steps_along};

use rules::Rule;

// The twenty steps, in the order of their numbers: four along the root, seven of each flow, seven of each of its stitches, the gathers of the flow, and
// those of the root.
#[derive(Clone, Copy)]
pub enum Step {
    RootTemps,
    RootTargets,
    RootCalls,
    RootChoices,
    Purity,
    Parameters,
    Temps,
    Targets,
    Calls,
    Choices,
    VariableDiverts,
    StitchName,
    StitchTemps,
    StitchTargets,
    StitchCalls,
    StitchVariableDiverts,
    StitchVariables,
    StitchGathers,
    Gathers,
    RootGathers,
}

impl Step {
    // The step of the number, 1 to 20; of any other number the last step.
    #[tactic(auto, unfolding(crate::specs::Brackets::step_at))]
    pub fn of(number: u8) -> Step
        ensures { step_of result ≡ step_at number }
    {
        match number {
            1 => Step::RootTemps,
            2 => Step::RootTargets,
            3 => Step::RootCalls,
            4 => Step::RootChoices,
            5 => Step::Purity,
            6 => Step::Parameters,
            7 => Step::Temps,
            8 => Step::Targets,
            9 => Step::Calls,
            10 => Step::Choices,
            11 => Step::VariableDiverts,
            12 => Step::StitchName,
            13 => Step::StitchTemps,
            14 => Step::StitchTargets,
            15 => Step::StitchCalls,
            16 => Step::StitchVariableDiverts,
            17 => Step::StitchVariables,
            18 => Step::StitchGathers,
            19 => Step::Gathers,
            _ => Step::RootGathers,
        }
    }

    // THE TABLE: the rules of the step.
    pub fn rules(self) -> &'static [Rule]
        ensures { result.now ≡ bracket (step_of self) }
    {
        match self {
            Step::RootTemps => &[Rule::NameIsFunction, Rule::TempIsLabel],
            Step::RootTargets | Step::Targets | Step::StitchTargets => {
                &[Rule::FunctionDivertedTo, Rule::TargetNotFound]
            }
            Step::RootCalls | Step::Calls | Step::StitchCalls => &[Rule::FlowCalled],
            Step::RootChoices | Step::Choices => &[Rule::ChoiceUndiverted],
            Step::Purity => &[
                Rule::FunctionWithStitches,
                Rule::FunctionWithChoice,
                Rule::FunctionWithDivert,
            ],
            Step::Parameters => &[Rule::NameIsFunction, Rule::NameIsGlobal],
            Step::Temps | Step::StitchTemps => &[
                Rule::NameIsFunction,
                Rule::TempIsParameter,
                Rule::TempIsLabel,
            ],
            Step::VariableDiverts | Step::StitchVariableDiverts => {
                &[Rule::ParameterUnmarked, Rule::ParameterAlreadyMarked]
            }
            Step::StitchName => &[Rule::NameIsGlobal],
            Step::StitchVariables => &[Rule::VariableForbidden],
            Step::StitchGathers | Step::Gathers | Step::RootGathers => &[Rule::GatherRepeated],
        }
    }

    // The step is one on gathers.
    pub fn is_on_gathers(self) -> bool
        ensures { result ≡ on_gathers (step_of self) }
    {
        matches!(
            self,
            Step::RootGathers | Step::Gathers | Step::StitchGathers
        )
    }
}

// The steps along one body that run one after the other: those of the root, of a flow's own list and of a stitch; the gathers of the root and of a
// flow run after what lies between.
#[derive(Clone, Copy)]
pub enum Along {
    Root,
    RootGathers,
    Flow,
    FlowGathers,
    Stitch,
}

impl Along {
    // The steps, in order.
    pub fn steps(self) -> &'static [Step]
        ensures { map step_of result.now ≡ steps_along self }
    {
        match self {
            Along::Root => &[
                Step::RootTemps,
                Step::RootTargets,
                Step::RootCalls,
                Step::RootChoices,
            ],
            Along::RootGathers => &[Step::RootGathers],
            Along::Flow => &[
                Step::Temps,
                Step::Targets,
                Step::Calls,
                Step::Choices,
                Step::VariableDiverts,
            ],
            Along::FlowGathers => &[Step::Gathers],
            Along::Stitch => &[
                Step::StitchTemps,
                Step::StitchTargets,
                Step::StitchCalls,
                Step::StitchVariableDiverts,
                Step::StitchVariables,
                Step::StitchGathers,
            ],
        }
    }

    // How many they are.
    pub fn many(self) -> usize
        ensures { result ≡ length (steps_along self) }
    {
        self.steps().len()
    }
}
