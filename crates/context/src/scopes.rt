// Where a step runs: at the root, for a flow, or for a stitch of a flow.
ghost use Rattle.std.specs.Prelude.{◌≡◌};
ghost use Rattle.context.specs.Scopes.{root_view, knot_view, stitch_view};

use checks::ScopeView;
use rules::ABSENT;
use searches::views::{FlowView, StitchView};
use story::Sections;

// The root of a file of so many bytes.
pub fn root_scope(c: Sections, length: usize) -> ScopeView
    ensures { result ≡ root_view c length }
{
    ScopeView {
        inner: false,
        flow: ABSENT,
        params: length,
        marks: length,
        from: c.root,
        to: c.flows,
        outer: length,
        body: c.root,
        stitches: c.flows,
        end: c.flows,
    }
}

// A flow.
pub fn knot_scope(v: FlowView) -> ScopeView
    ensures { result ≡ knot_view v }
{
    ScopeView {
        inner: false,
        flow: v.name,
        params: v.params,
        marks: v.marks,
        from: v.from,
        to: v.to,
        outer: v.params,
        body: v.from,
        stitches: v.stitches,
        end: v.end,
    }
}

// A stitch of a flow.
pub fn stitch_scope(v: FlowView, w: StitchView) -> ScopeView
    ensures { result ≡ stitch_view v w }
{
    ScopeView {
        inner: true,
        params: w.params,
        marks: w.marks,
        from: w.from,
        to: w.to,
        ..knot_scope(v)
    }
}
