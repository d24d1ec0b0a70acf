// The entries of a story, visited one after the other, and stored in the index.
ghost use Rattle.std.specs.Prelude.{◌≡◌, List, [], ◌∷◌, map, ℕ, ◌≤◌, ◌<◌, length, drop, refl};
ghost use Rattle.names.specs.Words.{each};
ghost use Rattle.names.specs.Counted.{name_at};
ghost use Rattle.records.specs.Trace.{well, ends};
ghost use Rattle.story.specs.Plain.{flow_without_plain};
ghost use Rattle.story.specs.Flows.{counted_in, part, flows, flows_in, stitches};
ghost use Rattle.story.specs.File.{story_in};
ghost use Rattle.records.specs.Numbers.{item_in};
ghost use Rattle.searches.specs.NameViews.{names_left};
ghost use Rattle.items.specs.Bodies.{Range, items_at, kept_stitch, kept_stitches, kept_flow, StitchesKept, FlowsKept};
ghost use Rattle.std.proofs.Common.{◌∙◌};
ghost use Rattle.symbols.specs.Storing.{store-none, store-then};
ghost use Rattle.symbols.specs.Index.{flow_entries, entries};
ghost use Rattle.symbols.specs.Numbers.{st, store, store_all};
ghost use Rattle.symbols.specs.Placed.{placed, names_placed, labels_placed, prefix_number, stitch_placed};

use crate::visits::Visit;
use crate::{ABSENT, Places};
use items::files::KeptFile;
use items::items::{is_labelled, named_at};
use items::runs::KeptNumbers;
use names::name_at;
use searches::name_views::{NamesFrom, counted};
use searches::views::{FlowView, StitchView, flow_view, stitch_view};

// Stores an entry after the n that the index has, where there is room; how many it has now.
pub fn put_entry(index: &mut [u32], n: usize, p: Places) -> usize
    ensures { st index.new result ≡ store (st index.old n) p }
{
    if index.len() / 3 <= n {
        return n;
    }
    let at = 3 * n;
    index[at] = p.flow;
    index[at + 1] = p.stitch;
    index[at + 2] = p.own;
    n + 1
}

// The index as it is filled: its numbers, and how many entries it has.
#[derive(Drop)]
struct Store<'a> {
    index: &'a mut [u32],
    count: usize,
}

impl<'a> Visit for Store<'a> {
    ghost ready = { λ v ps. Unit {0} };

    ghost visited = { λ v ps w. (st w.index.now w.count ≡ store_all (st v.index.now v.count) ps) × (w.index.ghost_name ≡ v.index.ghost_name) };

    fn visit(&mut self, p: Places) {
        self.count = put_entry(self.index, self.count, p);
    }

    ghost laws = { record {
      none = λ v ps r. (store-none (st v.index.now v.count), refl);
      append = λ u v w ps qs a b. (store-then (st u.index.now u.count) (st v.index.now v.count) (st w.index.now w.count) ps qs a.0 b.0, b.1 ∙ a.1);
      front = λ v ps qs r. tt;
      rest = λ u v ps qs r d. tt;
    } };
}

// Visits the names that are left, each alone.
fn put_names<V: Visit>(names: NamesFrom<'_>, visitor: &mut V)
    requires short { length names.file.now ≤ 1048576 }
    requires ready { V.ready visitor.old (names_placed (names_left names)) }
    ensures { V.visited visitor.old (names_placed (names_left names.entry)) visitor.new }
{
    for name in names {
        let p = Places {
            flow: ABSENT,
            stitch: ABSENT,
            own: name.at as u32,
        };
        visitor.visit(p);
    }
}

// Visits parameters: the names that the count byte at the place counts, each alone.
fn put_params<V: Visit>(file: &[u8], params: usize, visitor: &mut V)
    requires short { length file.now ≤ 1048576 }
    requires ready { V.ready visitor.old (names_placed (counted_in params (drop params file.now))) }
    ensures { V.visited visitor.old (names_placed (counted_in params (drop params file.now))) visitor.new }
{
    put_names(counted(file, params), visitor)
}

// Visits the item, if its name is a label.
fn put_label<V: Visit>(file: &[u8], item: u32, flow: u32, stitch: u32, visitor: &mut V)
    requires { V.ready visitor.old (labels_placed flow stitch (item_in file.now item ∷ [])) }
    ensures { V.visited visitor.old (labels_placed flow stitch (item_in file.now item ∷ [])) visitor.new }
{
    if is_labelled(item) {
        let own = named_at(item);
        let p = Places {
            flow,
            stitch,
            own: own as u32,
        };
        visitor.visit(p);
    }
}

// Visits the labels of a body, with its flow's and its stitch's name.
fn collect_labels_from_nodes<V: Visit>(
    file: &[u8],
    items: &[u32],
    flow: u32,
    stitch: u32,
    visitor: &mut V,
)
    requires { V.ready visitor.old (labels_placed flow stitch (items_at file.now items.now)) }
    ensures { V.visited visitor.old (labels_placed flow stitch (items_at file.now items.now)) visitor.new }
{
    for &item in items {
        put_label(file, item, flow, stitch, visitor);
    }
}

// Visits a stitch: its name with its flow's, its parameters alone, its labels with both.
fn put_stitch<V: Visit>(
    file: &[u8],
    kept: KeptNumbers<'_>,
    v: StitchView,
    flow: u32,
    visitor: &mut V,
)
    requires name_lt_params { (v.name < v.params) × (v.params < length file.now) × (length file.now ≤ 1048576) }
    requires ready { V.ready visitor.old (stitch_placed flow (kept_stitch file.now kept.numbers.now v)) }
    ensures { V.visited visitor.old (stitch_placed flow (kept_stitch file.now kept.entry.numbers.now v)) visitor.new }
{
    let name = v.name as u32;
    let p = Places {
        flow,
        stitch: ABSENT,
        own: name,
    };
    visitor.visit(p);
    put_params(file, v.params, visitor);
    let body = kept.body_items(v.from, v.to);
    collect_labels_from_nodes(file, body, flow, name, visitor)
}

// Visits the stitches of a flow.
fn put_stitches<V: Visit>(file: &[u8], kept: KeptNumbers<'_>, v: FlowView, visitor: &mut V)
    requires name_in_bounds { (v.name < length file.now) × Range file.now v.stitches v.end }
    requires file_value { ends (stitches (part v.stitches v.end file.now)) ≡ well }
    requires stitches_kept { StitchesKept file.now kept.numbers.now v.stitches v.end }
    requires ready { V.ready visitor.old (each (stitch_placed v.name) (kept_stitches file.now v.stitches v.end)) }
    ensures { V.visited visitor.old (each (stitch_placed v.name) (kept_stitches file.now v.stitches v.end)) visitor.new }
{
    let flow = v.name as u32;
    let end = v.end;
    let mut at = v.stitches;
    let mut rest = kept;
    while let Some(s) = stitch_view(file, at, end) {
        put_stitch(file, rest, s, flow, visitor);
        at = s.end;
        rest = rest.items_from(at);
    }
}

// The number that the labels of a flow bear, whose name stands at the place: none where the name is empty.
pub fn prefix_number(file: &[u8], name: usize) -> u32
    requires { name ≤ 1048576 }
    ensures { result ≡ prefix_number (name_at file.now name) name }
{
    if name_at(file, name).is_empty() {
        return ABSENT;
    }
    name as u32
}

// Visits a flow: its name and its parameters alone, its labels with its name, its stitches.
fn put_flow<V: Visit>(file: &[u8], kept: KeptNumbers<'_>, v: FlowView, visitor: &mut V)
    requires name_lt_params { (v.name < v.params) × (v.params < length file.now) × Range file.now v.stitches v.end }
    requires file_value { ends (stitches (part v.stitches v.end file.now)) ≡ well }
    requires stitches_kept { StitchesKept file.now kept.numbers.now v.stitches v.end }
    requires ready { V.ready visitor.old (placed (flow_entries (kept_flow file.now kept.numbers.now v))) }
    ensures { V.visited visitor.old (placed (flow_entries (kept_flow file.now kept.entry.numbers.now v))) visitor.new }
{
    let p = Places {
        flow: ABSENT,
        stitch: ABSENT,
        own: v.name as u32,
    };
    visitor.visit(p);
    put_params(file, v.params, visitor);
    let prefix = prefix_number(file, v.name);
    let own = kept.body_items(v.from, v.to);
    collect_labels_from_nodes(file, own, prefix, ABSENT, visitor);
    put_stitches(file, kept, v, visitor)
}

// Visits the flows of a story.
fn put_flows<V: Visit>(file: &[u8], kept: KeptNumbers<'_>, from: usize, end: usize, visitor: &mut V)
    requires range { Range file.now from end }
    requires file_value { ends (flows (part from end file.now)) ≡ well }
    requires flows_kept { FlowsKept file.now kept.numbers.now from end }
    requires ready { V.ready visitor.old (placed (each flow_entries (map flow_without_plain (flows_in from (part from end file.now))))) }
    ensures { V.visited visitor.old (placed (each flow_entries (map flow_without_plain (flows_in from (part from end file.now))))) visitor.new }
{
    let mut at = from;
    let mut rest = kept;
    while let Some(v) = flow_view(file, at, end) {
        put_flow(file, rest, v, visitor);
        at = v.end;
        rest = rest.items_from(at);
    }
}

// Visits THE ENTRIES of a readable file by its kept numbers: globals, labels of the root, flows.
pub fn visit_entries<V: Visit>(story: &KeptFile<'_>, visitor: &mut V)
    requires { V.ready visitor.old (placed (entries (story_in story.now.source.sections story.now.source.file.now))) }
    ensures { V.visited visitor.old (placed (entries (story_in story.now.source.sections story.now.source.file.now))) visitor.new }
{
    let file = story.source.file;
    let c = story.source.sections;
    let kept = story.kept;
    let end = c.externals;
    let globals = NamesFrom {
        file: &file[..end],
        at: 0,
        many: end,
    };
    put_names(globals, visitor);
    let own = kept.body_items(c.root, c.flows);
    collect_labels_from_nodes(file, own, ABSENT, ABSENT, visitor);
    put_flows(file, kept, c.flows, c.end, visitor)
}

// Writes the index of a readable file by its kept numbers: globals, labels of the root, flows. The entry count.
pub fn write_index(story: &KeptFile<'_>, index: &mut [u32]) -> usize
    ensures { st index.new result ≡ store_all (st index.old 0) (placed (entries (story_in story.now.source.sections story.now.source.file.now))) }
{
    let mut store = Store { index, count: 0 };
    visit_entries(story, &mut store);
    store.count
}
