// The fields of a story file: numbers, names, the heads of lists and records, and the kinds.
#![tactic(auto)]

ghost use Rattle.std.specs.Prelude.{◌≡◌};
ghost use Rattle.fields.specs.Bytes.{le32, head_of, read_of_head, list_of, name_of, span_reach, flag_of};
ghost use Rattle.fields.specs.Kinds.{expr_kind, cond_kind, node_kind, kind_of};
ghost use Rattle.fields.specs.Refusals.{refusal_number};

// Why a file cannot be read: refusals 1 to 6.
#[derive(Clone, Copy)]
pub enum Refusal {
    Length = 1,
    Mark,
    Starts,
    Short,
    Unknown,
    Deep,
}

// Where a record stands, as far as a rule asks.
#[derive(Clone, Copy)]
pub enum Role {
    // a node in the root, a flow's or a stitch's list, a choice's body or a branch of a sequence
    Node,
    // a node directly in a branch of a conditional or a switch
    Branch,
    Cond,
    // an expression that the steps on calls and variables visit
    Visited,
    // an expression that is directly an argument of a divert
    Argument,
    // an expression that no step visits
    Unvisited,
}

// How a payload is read: so many expressions; a name; a name and expressions; the kinds 8, 9, 10, 13 and 14.
#[derive(Clone, Copy)]
pub enum Body {
    Exprs(u8, Role),
    Single,
    Call(Role),
    Conditional,
    Switch,
    Sequence,
    Assign,
    Choice,
}

// A little-endian 32-bit number.
pub fn word(a: u8, b: u8, c: u8, d: u8) -> usize
    ensures { result ≡ le32 a b c d }
{
    u32::from_le_bytes([a, b, c, d]) as usize
}

// The number of a refusal.
pub fn refusal_number(r: Refusal) -> usize
    ensures { result ≡ refusal_number r }
{
    r as usize
}

// The record at the front of s: its kind, and the place after it.
pub fn read_head(s: &[u8]) -> Result<(u8, usize), Refusal>
    ensures { result ≡ read_of_head (head_of s.now) }
{
    if s.len() < 5 {
        return Err(Refusal::Short);
    }
    let n = word(s[1], s[2], s[3], s[4]);
    if s.len() - 5 < n {
        return Err(Refusal::Short);
    }
    Ok((s[0], 5 + n))
}

// The list, flow or stitch at the front of s, by its length of four bytes: the place after it. Its bytes stand from 4 on.
pub fn read_list(s: &[u8]) -> Result<usize, Refusal>
    ensures { result ≡ span_reach 4 (list_of s.now) }
{
    if s.len() < 4 {
        return Err(Refusal::Short);
    }
    let n = word(s[0], s[1], s[2], s[3]);
    if s.len() - 4 < n {
        return Err(Refusal::Short);
    }
    Ok(4 + n)
}

// The name at the front of s: the place after it. Its bytes stand from 1 on.
pub fn read_name(s: &[u8]) -> Result<usize, Refusal>
    ensures { result ≡ span_reach 1 (name_of s.now) }
{
    if s.len() < 1 {
        return Err(Refusal::Short);
    }
    let n = usize::from(s[0]);
    if s.len() - 1 < n {
        return Err(Refusal::Short);
    }
    Ok(1 + n)
}

// The flag at the front of s.
#[tactic(auto, unfolding(crate::specs::Bytes::flag_of))]
pub fn read_flag(s: &[u8]) -> Result<bool, Refusal>
    ensures { result ≡ flag_of s.now }
{
    if s.len() < 1 {
        return Err(Refusal::Short);
    }
    let byte = s[0];
    match byte {
        0 => Ok(false),
        1 => Ok(true),
        2..=255 => Err(Refusal::Unknown),
    }
}

// The kinds of expressions; those inside it have the role `inner`.
#[tactic(auto, unfolding(crate::specs::Kinds::expr_kind))]
pub fn expr_kind(kind: u8, inner: Role) -> Option<Body>
    ensures { result ≡ expr_kind inner kind }
{
    match kind {
        0 => Some(Body::Exprs(0, inner)),
        1 => Some(Body::Single),
        2 => Some(Body::Single),
        3 => Some(Body::Exprs(1, inner)),
        4 => Some(Body::Exprs(1, inner)),
        5 => Some(Body::Call(inner)),
        6 => Some(Body::Exprs(2, inner)),
        7..=255 => None,
    }
}

// The kinds of conditions.
#[tactic(auto, unfolding(crate::specs::Kinds::cond_kind))]
pub fn cond_kind(kind: u8) -> Option<Body>
    ensures { result ≡ cond_kind kind }
{
    match kind {
        0 => Some(Body::Exprs(0, Role::Visited)),
        1 => Some(Body::Single),
        2 => Some(Body::Exprs(1, Role::Visited)),
        3..=255 => None,
    }
}

// The kinds of nodes.
#[tactic(auto, unfolding(crate::specs::Kinds::node_kind))]
pub fn node_kind(kind: u8) -> Option<Body>
    ensures { result ≡ node_kind kind }
{
    match kind {
        0 => Some(Body::Exprs(0, Role::Visited)),
        1 => Some(Body::Exprs(0, Role::Visited)),
        2 => Some(Body::Exprs(1, Role::Visited)),
        3 => Some(Body::Call(Role::Argument)),
        4 => Some(Body::Call(Role::Argument)),
        5 => Some(Body::Call(Role::Argument)),
        6 => Some(Body::Exprs(0, Role::Visited)),
        7 => Some(Body::Call(Role::Unvisited)),
        8 => Some(Body::Conditional),
        9 => Some(Body::Switch),
        10 => Some(Body::Sequence),
        11 => Some(Body::Exprs(0, Role::Visited)),
        12 => Some(Body::Exprs(1, Role::Visited)),
        13 => Some(Body::Assign),
        14 => Some(Body::Choice),
        15 => Some(Body::Single),
        16 => Some(Body::Call(Role::Visited)),
        17..=255 => None,
    }
}

// How the payload of a record of a role and a kind is read.
#[tactic(auto, unfolding(crate::specs::Kinds::kind_of))]
pub fn read_kind(role: Role, kind: u8) -> Option<Body>
    ensures { result ≡ kind_of role kind }
{
    match role {
        Role::Node => node_kind(kind),
        Role::Branch => node_kind(kind),
        Role::Cond => cond_kind(kind),
        Role::Visited => expr_kind(kind, Role::Visited),
        Role::Argument => expr_kind(kind, Role::Unvisited),
        Role::Unvisited => expr_kind(kind, Role::Unvisited),
    }
}
