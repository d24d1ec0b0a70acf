// The walker: reads the records of a list at every depth, counts them, and keeps a number for each that is not plain.
#![tactic(auto, using(crate::proofs::Fits::fits))]

ghost use Rattle.std.specs.Prelude.{◌≡◌, ◌-◌, ◌^◌, ◌<◌, ◌≤◌, length, take, drop, ◌==◌};
ghost use Rattle.fields.specs.declared.Role.TheVariants as Role;
ghost use Rattle.records.specs.Grammar.{record_of, records, exact, ending, repeat, front, listed, named, flagged, last, or_else, arms, options, body_of, nothing, tested, branch, moded};
ghost use Rattle.fields.specs.Bytes.{pick, list_of};
ghost use Rattle.records.specs.Items.{sort_of, leaving, leaves, spanned, second_list, choice_body, end_with_divert};
ghost use Rattle.records.specs.Work.{run, st, keeping, over, Told, piece_of, ToldTo, head_end, list_end, test_end, branch_end, end_of, label_reach, ToldNodes, nodes_end, payload_leaves, put_leaves, nodes_walk, nodes_put};

use crate::part::Part;
use crate::sorts::{Sort, branch_bit, is_bare, label_bit, sort_of};
use crate::{LEAVES, MET};
use fields::{Body, Refusal, Role, read_flag, read_head, read_kind, read_list, read_name};

// A record, kept in its slot where it is not plain and there is one for it; that of a choice yet without the bit that it leaves. Answers the counts with it.
fn note(role: Role, kind: u8, payload: &[u8], place: usize, out: &mut [u32], n: usize) -> usize
    requires { place < 2 ^ 20 }
    ensures { st (put_leaves (leaves (sort_of role kind payload.now) payload.now) result out.new) result ≡ keeping (st out.old n) role kind place payload.now }
{
    let sort = sort_of(role, kind, payload);
    if sort == Sort::Plain {
        return n.wrapping_add(MET);
    }
    let next = n.wrapping_add(MET + 1);
    let slot = n % MET;
    if slot < out.len() {
        let branch = branch_bit(role);
        let label = label_bit(sort, payload);
        out[slot] = place as u32 + 1048576 * (sort as u32 + 16 * branch + 32 * label);
        return next;
    }
    next
}

// Nothing is left.
pub fn at_end(s: &[u8], n: usize) -> Result<usize, Refusal>
    ensures { result ≡ end_of n s.now }
{
    if 0 < s.len() {
        return Err(Refusal::Short);
    }
    Ok(n)
}

// A name, and nothing more.
fn single(p: Part, out: &mut [u32], n: usize) -> Result<usize, Refusal>
    ensures { Told (over p.entry (st out.old n) (named ending)) result out.new }
{
    let e = read_name(p.bytes)?;
    at_end(&p.bytes[e..], n)
}

// The label of a choice, a flag and a name if it is 1: the place after it.
fn read_label(s: &[u8]) -> Result<usize, Refusal>
    ensures { result ≡ label_reach s.now }
{
    if read_flag(s)? {
        let e = read_name(&s[1..])?;
        return Ok(1 + e);
    }
    Ok(1)
}

// The nodes leave so far, with one more: of those that are no Newline the last decides.
fn leaves_after(kind: u8, sofar: bool) -> bool
    ensures { result ≡ pick (kind == 1) sofar (leaving kind) }
{
    match kind {
        1 => sofar,
        3 | 6 | 7 | 11 | 12 => true,
        _ => false,
    }
}

// Where the nodes of a choice leave, its number, the one kept last at the counts n, gets the bit for it.
fn put_leaves(leaves: bool, out: &mut [u32], n: usize)
    ensures { out.new ≡ put_leaves leaves n out.old }
{
    if leaves {
        let slot = n.wrapping_add(MET - 1) % MET;
        if slot < out.len() {
            out[slot] = out[slot].wrapping_add(LEAVES);
        }
    }
}

// A record of a role, the first e bytes of p, by its kind.
#[cycle(walk)]
fn record(
    p: Part,
    e: usize,
    role: Role,
    kind: u8,
    left: usize,
    out: &mut [u32],
    n: usize,
) -> Result<usize, Refusal>
    requires { (5 ≤ e) × (e ≤ length p.bytes.now) }
    ensures { Told (run keeping p.entry.base (st out.old n) (record_of left role kind (take (e - 5) (drop 5 p.entry.bytes.now)))) result out.new }
{
    let shape = read_kind(role, kind).ok_or(Refusal::Unknown)?;
    if left == 0 {
        return Err(Refusal::Deep);
    }
    let payload = p.between(5, e);
    let m = note(role, kind, payload.bytes, p.base, out, n);
    body(payload, shape, left - 1, out, m)
}

// A payload.
#[cycle(walk)]
fn body(p: Part, body: Body, left: usize, out: &mut [u32], n: usize) -> Result<usize, Refusal>
    ensures { Told (over p.entry (st (put_leaves (payload_leaves body p.entry.bytes.now) n out.old) n) (body_of body (record_of left))) result out.new }
{
    match body {
        Body::Exprs(many, role) => exact(p, many, role, left, out, n),
        Body::Single => single(p, out, n),
        Body::Call(role) => call(p, role, left, out, n),
        Body::Conditional => conditional(p, left, out, n),
        Body::Sequence => lists(p, left, out, n),
        Body::Switch => switch(p, left, out, n),
        Body::Assign => assign(p, left, out, n),
        Body::Choice => choice(p, left, out, n),
    }
}

// So many expressions of a role, and nothing more.
#[cycle(walk)]
fn exact(
    p: Part,
    many: u8,
    role: Role,
    left: usize,
    out: &mut [u32],
    n: usize,
) -> Result<usize, Refusal>
    ensures { Told (over p.entry (st out.old n) (exact many (record_of left role))) result out.new }
{
    let mut t = p;
    let mut count = n;
    for _ in 0..many {
        let (e, m) = first(t, role, left, out, count)?;
        count = m;
        t = t.after(e);
    }
    at_end(t.bytes, count)
}

// Records of a role to the end.
#[cycle(walk)]
pub fn list(p: Part, role: Role, left: usize, out: &mut [u32], n: usize) -> Result<usize, Refusal>
    ensures { Told (over p.entry (st out.old n) (records (record_of left role))) result out.new }
{
    let mut t = p;
    let mut count = n;
    while 0 < t.bytes.len() {
        let (kind, e) = read_head(t.bytes)?;
        if is_bare(role, kind, e, left) {
            count = count.wrapping_add(MET);
            t = t.after(e);
            continue;
        }
        let m = record(t, e, role, kind, left, out, count)?;
        count = m;
        t = t.after(e);
    }
    Ok(count)
}

// A name, and expressions of a role to the end.
#[cycle(walk)]
fn call(p: Part, role: Role, left: usize, out: &mut [u32], n: usize) -> Result<usize, Refusal>
    ensures { Told (over p.entry (st out.old n) (named (records (record_of left role)))) result out.new }
{
    let e = read_name(p.bytes)?;
    if e == p.bytes.len() {
        return Ok(n);
    }
    list(p.after(e), role, left, out, n)
}

// A condition, a list of nodes, and perhaps another.
#[cycle(walk)]
fn conditional(p: Part, left: usize, out: &mut [u32], n: usize) -> Result<usize, Refusal>
    ensures { Told (over p.entry (st out.old n) (front (record_of left Role.Cond) (arms (record_of left)))) result out.new }
{
    let (e, m) = first(p, Role::Cond, left, out, n)?;
    arms(p.after(e), left, out, m)
}

// A list of nodes, and perhaps another.
#[cycle(walk)]
fn arms(p: Part, left: usize, out: &mut [u32], n: usize) -> Result<usize, Refusal>
    ensures { Told (over p.entry (st out.old n) (arms (record_of left))) result out.new }
{
    let e = read_list(p.bytes)?;
    let m = list(p.between(4, e), Role::Branch, left, out, n)?;
    else_arm(p.after(e), left, out, m)
}

// A flag, and a list of nodes if it is 1.
#[cycle(walk)]
fn else_arm(p: Part, left: usize, out: &mut [u32], n: usize) -> Result<usize, Refusal>
    ensures { Told (over p.entry (st out.old n) (or_else (record_of left))) result out.new }
{
    if read_flag(p.bytes)? {
        return last(p.after(1), left, out, n);
    }
    at_end(&p.bytes[1..], n)
}

// A list of nodes in a branch, and nothing more.
#[cycle(walk)]
fn last(p: Part, left: usize, out: &mut [u32], n: usize) -> Result<usize, Refusal>
    ensures { Told (over p.entry (st out.old n) (last Role.Branch (record_of left))) result out.new }
{
    let e = read_list(p.bytes)?;
    let m = list(p.between(4, e), Role::Branch, left, out, n)?;
    at_end(&p.bytes[e..], m)
}

// Lists of nodes to the end.
#[cycle(walk)]
fn lists(p: Part, left: usize, out: &mut [u32], n: usize) -> Result<usize, Refusal>
    ensures { Told (over p.entry (st out.old n) (repeat (listed (record_of left Role.Node)))) result out.new }
{
    let mut t = p;
    let mut count = n;
    while 0 < t.bytes.len() {
        let e = read_list(t.bytes)?;
        let m = list(t.between(4, e), Role::Node, left, out, count)?;
        count = m;
        t = t.after(e);
    }
    Ok(count)
}

// A choice: a label, conditions and nodes. Where the nodes leave, its number, the one kept last before it is read, gets the bit for it.
#[cycle(walk)]
fn choice(p: Part, left: usize, out: &mut [u32], n: usize) -> Result<usize, Refusal>
    ensures { Told (over p.entry (st (put_leaves (end_with_divert (choice_body p.entry.bytes.now)) n out.old) n) (flagged (options (record_of left)) (named (options (record_of left))))) result out.new }
{
    let e = read_label(p.bytes)?;
    let (m, leaves) = options(p.after(e), left, out, n)?;
    put_leaves(leaves, out, n);
    Ok(m)
}

// A list of conditions, and the nodes of a choice.
#[cycle(walk)]
fn options(p: Part, left: usize, out: &mut [u32], n: usize) -> Result<(usize, bool), Refusal>
    ensures { ToldNodes (over p.entry (st out.old n) (options (record_of left))) (end_with_divert (second_list p.entry.bytes.now)) result out.new }
{
    let e = read_list(p.bytes)?;
    let m = list(p.between(4, e), Role::Cond, left, out, n)?;
    choice_nodes(p.after(e), left, out, m)
}

// The nodes of a choice, a list, and nothing more.
#[cycle(walk)]
fn choice_nodes(p: Part, left: usize, out: &mut [u32], n: usize) -> Result<(usize, bool), Refusal>
    ensures { ToldNodes (over p.entry (st out.old n) (last Role.Node (record_of left))) (end_with_divert (spanned (list_of p.entry.bytes.now) p.entry.bytes.now)) result out.new }
{
    let e = read_list(p.bytes)?;
    let (m, leaves) = last_leaves(p.between(4, e), left, out, n)?;
    let m = at_end(&p.bytes[e..], m)?;
    Ok((m, leaves))
}

// Nodes of a choice to the end, and whether they leave: the last that is no Newline does.
#[cycle(walk)]
fn last_leaves(p: Part, left: usize, out: &mut [u32], n: usize) -> Result<(usize, bool), Refusal>
    ensures { ToldNodes (over p.entry (st out.old n) (records (record_of left Role.Node))) (end_with_divert p.entry.bytes.now) result out.new }
{
    let mut t = p;
    let mut count = n;
    let mut leaves = false;
    while 0 < t.bytes.len() {
        let (kind, e) = read_head(t.bytes)?;
        leaves = leaves_after(kind, leaves);
        if is_bare(Role::Node, kind, e, left) {
            count = count.wrapping_add(MET);
            t = t.after(e);
            continue;
        }
        let m = record(t, e, Role::Node, kind, left, out, count)?;
        count = m;
        t = t.after(e);
    }
    Ok((count, leaves))
}

// An expression, and branches to the end.
#[cycle(walk)]
fn switch(p: Part, left: usize, out: &mut [u32], n: usize) -> Result<usize, Refusal>
    ensures { Told (over p.entry (st out.old n) (front (record_of left Role.Visited) (repeat (branch (record_of left))))) result out.new }
{
    let (e, m) = first(p, Role::Visited, left, out, n)?;
    branches(p.after(e), left, out, m)
}

// Branches to the end.
#[cycle(walk)]
fn branches(p: Part, left: usize, out: &mut [u32], n: usize) -> Result<usize, Refusal>
    ensures { Told (over p.entry (st out.old n) (repeat (branch (record_of left)))) result out.new }
{
    let mut t = p;
    let mut count = n;
    while 0 < t.bytes.len() {
        let (e, m) = branch(t, left, out, count)?;
        count = m;
        t = t.after(e);
    }
    Ok(count)
}

// A branch at the front, a test and a list of nodes: the place after it.
#[cycle(walk)]
fn branch(p: Part, left: usize, out: &mut [u32], n: usize) -> Result<(usize, usize), Refusal>
    ensures { ToldTo (over p.entry (st out.old n) (branch (record_of left) nothing)) (branch_end p.entry.bytes.now) result out.new }
{
    let (e, m) = test(p, left, out, n)?;
    let (d, q) = front_list(p.after(e), Role::Branch, left, out, m)?;
    Ok((e + d, q))
}

// The test of a branch, a flag and an expression if it is 1: the place after it.
#[cycle(walk)]
fn test(p: Part, left: usize, out: &mut [u32], n: usize) -> Result<(usize, usize), Refusal>
    ensures { ToldTo (over p.entry (st out.old n) (tested (record_of left) nothing)) (test_end p.entry.bytes.now) result out.new }
{
    if read_flag(p.bytes)? {
        let (e, m) = first(p.after(1), Role::Visited, left, out, n)?;
        return Ok((1 + e, m));
    }
    Ok((1, n))
}

// The list of a role at the front: the place after it.
#[cycle(walk)]
fn front_list(
    p: Part,
    role: Role,
    left: usize,
    out: &mut [u32],
    n: usize,
) -> Result<(usize, usize), Refusal>
    ensures { ToldTo (over p.entry (st out.old n) (listed (record_of left role) nothing)) (list_end p.entry.bytes.now) result out.new }
{
    let e = read_list(p.bytes)?;
    let m = list(p.between(4, e), role, left, out, n)?;
    Ok((e, m))
}

// The record of a role at the front: the place after it.
#[cycle(walk)]
fn first(
    p: Part,
    role: Role,
    left: usize,
    out: &mut [u32],
    n: usize,
) -> Result<(usize, usize), Refusal>
    ensures { ToldTo (over p.entry (st out.old n) (front (record_of left role) nothing)) (head_end p.entry.bytes.now) result out.new }
{
    let (kind, e) = read_head(p.bytes)?;
    if is_bare(role, kind, e, left) {
        return Ok((e, n.wrapping_add(MET)));
    }
    let m = record(p, e, role, kind, left, out, n)?;
    Ok((e, m))
}

// A mode, a name and an expression.
#[cycle(walk)]
fn assign(p: Part, left: usize, out: &mut [u32], n: usize) -> Result<usize, Refusal>
    ensures { Told (over p.entry (st out.old n) (moded (named (exact 1 (record_of left Role.Visited))))) result out.new }
{
    if p.bytes.len() < 1 {
        return Err(Refusal::Short);
    }
    let mode = p.bytes[0];
    match mode {
        0..=3 => set(p.after(1), left, out, n),
        4..=255 => Err(Refusal::Unknown),
    }
}

// A name and an expression.
#[cycle(walk)]
fn set(p: Part, left: usize, out: &mut [u32], n: usize) -> Result<usize, Refusal>
    ensures { Told (over p.entry (st out.old n) (named (exact 1 (record_of left Role.Visited)))) result out.new }
{
    let e = read_name(p.bytes)?;
    exact(p.after(e), 1, Role::Visited, left, out, n)
}
