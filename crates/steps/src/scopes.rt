// Where a step runs: at the root, for a flow, or for a stitch of a flow, with the runs of its kept items.
ghost use Rattle.std.specs.Prelude.{◌≡◌, ◌≤◌, length};
ghost use Rattle.items.specs.Runs.{number_before};
ghost use Rattle.steps.specs.Scopes.{root_scope, knot_scope, stitch_scope, FlowReady};

use broken::Scope;
use items::runs::KeptNumbers;
use items::stitches::has_stitches;
use rules::ABSENT;
use searches::views::{FlowView, StitchView};
use story::FileView;

// How many of the numbers have a place before this one, where so many are known to have one.
pub fn index_from(kept: KeptNumbers<'_>, start: usize, place: usize) -> usize
    requires { start ≤ number_before place kept.numbers.now }
    ensures { (result ≡ number_before place kept.entry.numbers.now) × (result ≤ length kept.entry.numbers.now) }
{
    let rest = KeptNumbers {
        numbers: &kept.numbers[start..],
    };
    start + rest.count_before(place)
}

// The root, which is its own knot, without name and parameters.
pub fn root_scope(source: FileView<'_>, kept: KeptNumbers<'_>) -> Scope
    ensures { result ≡ root_scope source.entry.file.now source.entry.sections kept.entry.numbers.now }
{
    let c = source.sections;
    let length = source.file.len();
    let first = index_from(kept, 0, c.root);
    let last = index_from(kept, first, c.flows);
    Scope {
        flow: ABSENT,
        params: length,
        marks: length,
        first,
        last,
        outer: length,
        knot: first,
        own: last,
        end: last,
        stitched: false,
    }
}

// A flow, which is its own knot; so many of the kept items are known to stand before its body.
pub fn knot_scope(file: &[u8], kept: &[u32], v: FlowView, start: usize) -> Scope
    requires flow_ready { FlowReady file.now kept.now v }
    requires start_bound { start ≤ number_before v.from kept.now }
    ensures { result ≡ knot_scope file.now kept.now v }
{
    let kept = KeptNumbers { numbers: kept };
    let first = index_from(kept, start, v.from);
    let last = index_from(kept, first, v.to);
    let end = index_from(kept, last, v.end);
    let stitched = has_stitches(file, v.stitches, v.end);
    Scope {
        flow: v.name,
        params: v.params,
        marks: v.marks,
        first,
        last,
        outer: v.params,
        knot: first,
        own: last,
        end,
        stitched,
    }
}

// A stitch of a knot; so many of the kept items are known to stand before its body.
pub fn stitch_scope(kept: KeptNumbers<'_>, s: Scope, w: StitchView, start: usize) -> Scope
    requires { (w.from ≤ w.to) × (start ≤ number_before w.from kept.numbers.now) }
    ensures { result ≡ stitch_scope kept.entry.numbers.now s w }
{
    let first = index_from(kept, start, w.from);
    let last = index_from(kept, first, w.to);
    Scope {
        params: w.params,
        marks: w.marks,
        first,
        last,
        stitched: false,
        ..s
    }
}
