// What a record is to the rules, by its role, its kind and its payload.
ghost use Rattle.std.specs.Prelude.{◌≡◌, true, slice_index_or};
ghost use Rattle.records.specs.declared.sorts.Sort.TheVariants.{Plain};
ghost use Rattle.records.specs.Items.{node_sorts, cond_sorts, expr_sorts, argument_sorts, sort_of, assigned, flag, labelled, in_branch};
ghost use Rattle.records.specs.Numbers.{bit, sorts};
ghost use Rattle.records.specs.Work.{Bare, BareKind};

use fields::Role;

// The sorts of records, numbered as `code` of specs/Items has them. The last three are no records of a body: the name of a parameter, that of a stitch,
// the first byte of a flow.
#[derive(Clone, Copy, PartialEq, Eq)]
pub enum Sort {
    Plain,
    Temp,
    Divert,
    Tunnel,
    Thread,
    Call,
    Variable,
    Argument,
    Choice,
    Gather,
    Parameter,
    StitchName,
    FlowStart,
}

impl Sort {
    // The sort of a body's records that has the number; Plain where none has.
    pub fn of(number: u32) -> Sort
        ensures { result ≡ slice_index_or sorts number Plain }
    {
        match number {
            1 => Sort::Temp,
            2 => Sort::Divert,
            3 => Sort::Tunnel,
            4 => Sort::Thread,
            5 => Sort::Call,
            6 => Sort::Variable,
            7 => Sort::Argument,
            8 => Sort::Choice,
            9 => Sort::Gather,
            _ => Sort::Plain,
        }
    }
}

// A flag byte at the front.
pub fn is_flagged(s: &[u8]) -> bool
    ensures { result ≡ flag s.now }
{
    s.first() == Some(&1)
}

// The sort of an assignment: a temp where its mode is 1.
fn assigned_sort(payload: &[u8]) -> Sort
    ensures { result ≡ assigned payload.now }
{
    if is_flagged(payload) {
        return Sort::Temp;
    }
    Sort::Plain
}

// The sort of a node.
fn node_sort(kind: u8, payload: &[u8]) -> Sort
    ensures { result ≡ slice_index_or (node_sorts payload.now) kind Plain }
{
    match kind {
        3 => Sort::Divert,
        4 => Sort::Tunnel,
        5 => Sort::Thread,
        13 => assigned_sort(payload),
        14 => Sort::Choice,
        15 => Sort::Gather,
        16 => Sort::Call,
        _ => Sort::Plain,
    }
}

// The sort of a condition.
fn cond_sort(kind: u8) -> Sort
    ensures { result ≡ slice_index_or cond_sorts kind Plain }
{
    match kind {
        1 => Sort::Call,
        _ => Sort::Plain,
    }
}

// The sort of an expression that the steps on calls and variables visit.
fn expr_sort(kind: u8) -> Sort
    ensures { result ≡ slice_index_or expr_sorts kind Plain }
{
    match kind {
        1 => Sort::Variable,
        5 => Sort::Call,
        _ => Sort::Plain,
    }
}

// The sort of an argument of a divert.
fn argument_sort(kind: u8) -> Sort
    ensures { result ≡ slice_index_or argument_sorts kind Plain }
{
    match kind {
        2 => Sort::Argument,
        _ => Sort::Plain,
    }
}

// The sort of a record.
#[tactic(auto, unfolding(crate::specs::Items::sort_of))]
pub fn sort_of(role: Role, kind: u8, payload: &[u8]) -> Sort
    ensures { result ≡ sort_of role kind payload.now }
{
    match role {
        Role::Node | Role::Branch => node_sort(kind, payload),
        Role::Cond => cond_sort(kind),
        Role::Visited => expr_sort(kind),
        Role::Argument => argument_sort(kind),
        Role::Unvisited => Sort::Plain,
    }
}

// 1 where the role is that of a node directly in a branch of a conditional or a switch.
#[tactic(auto, unfolding(crate::specs::Items::in_branch, crate::specs::Numbers::bit))]
pub fn branch_bit(role: Role) -> u32
    ensures { result ≡ bit (in_branch role) }
{
    match role {
        Role::Branch => 1,
        _ => 0,
    }
}

// 1 where the name of a record of the sort is a label.
#[tactic(auto, using(crate::proofs::Codes::other_code), unfolding(crate::specs::Items::labelled, crate::specs::Numbers::bit))]
pub fn label_bit(sort: Sort, payload: &[u8]) -> u32
    ensures { result ≡ bit (labelled sort payload.now) }
{
    match sort {
        Sort::Choice => u32::from(is_flagged(payload)),
        Sort::Gather => 1,
        _ => 0,
    }
}

// A record of this kind has nothing inside it, and is plain: nodes of kinds 0 and 1, conditions of kind Bool, constants. A false says nothing.
fn is_bare_kind(role: Role, kind: u8) -> bool
    ensures { result ≡ true → BareKind role kind }
{
    match role {
        Role::Node | Role::Branch => kind < 2,
        _ => kind == 0,
    }
}

// A record of this kind, with this place after it from its kind byte on, is nothing but its head, and is plain.
pub fn is_bare(role: Role, kind: u8, to: usize, left: usize) -> bool
    ensures { result ≡ true → Bare role kind to left }
{
    to == 5 && left != 0 && is_bare_kind(role, kind)
}
