// The rules of a story, by what is broken.
#![tactic(auto)]

ghost use Rattle.std.specs.Prelude.{◌≡◌};
ghost use Rattle.rules.specs.Rules.{number};
ghost use Rattle.rules.specs.Steps.{names_of};

// The number where there is no name.
pub const ABSENT: usize = symbols::ABSENT as usize;

// The fifteen rules, each with its number.
#[derive(Clone, Copy)]
pub enum Rule {
    FunctionDivertedTo = 1,
    TargetNotFound,
    FlowCalled,
    NameIsFunction,
    NameIsGlobal,
    TempIsParameter,
    TempIsLabel,
    ParameterUnmarked,
    ParameterAlreadyMarked,
    GatherRepeated,
    ChoiceUndiverted,
    FunctionWithStitches,
    FunctionWithChoice,
    FunctionWithDivert,
    VariableForbidden,
}

// The number of a rule, 1 to 15.
pub fn rule_number(rule: Rule) -> u8
    ensures { result ≡ number rule }
{
    rule as u8
}

// The places of the names in the text of a breach of a rule, in the text's order, by those of the flow's name and of what is visited.
pub fn names_of(rule: Rule, flow: usize, own: usize) -> (usize, usize)
    ensures { result ≡ names_of rule flow own }
{
    match rule {
        Rule::ChoiceUndiverted => (ABSENT, ABSENT),
        Rule::FunctionWithStitches | Rule::FunctionWithChoice => (flow, ABSENT),
        Rule::FunctionWithDivert => (flow, own),
        _ => (own, ABSENT),
    }
}
