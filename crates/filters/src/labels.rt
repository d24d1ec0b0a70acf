// A filter over the labels of a knot, those of its own list and of all its stitches.
ghost use Rattle.std.specs.Prelude.{◌≡◌, ◌≤◌};
ghost use Rattle.checks.specs.Context.{here_at};
ghost use Rattle.filters.specs.Words.{Covers};
ghost use Rattle.filters.specs.Names.{label_at, split_at};

use crate::Wanted;
use crate::view::DeclaredView;
use crate::words::{add_items, clear_filter, lacks_word};
use items::runs::KeptBody;

// Where the labels begin in a filter of so many bytes: in the middle, or at the front where no stitch asks what the knot declares.
#[tactic(auto, unfolding(crate::specs::Names::split_at))]
pub fn split_at(bytes: usize, to: usize, end: usize) -> usize
    ensures { (result ≡ split_at bytes to end) × (result ≤ bytes) }
{
    if to == end {
        return 0;
    }
    bytes / 2
}

// Empties the filter, and adds the labels of the knot: its own list and its stitches are one run of items.
#[tactic(auto, using(crate::proofs::Bodies::labels_put))]
pub fn put_labels(body: &KeptBody<'_>, filter: &mut [u8])
    ensures { Covers filter.new (label_at body.now.file.now body.now.kept.numbers.now body.now.from body.now.to) }
{
    clear_filter(filter);
    add_items(filter, Wanted::Label, body.file, body.items());
}

impl DeclaredView<'_, '_> {
    // The name is a label that a temp may not have. Not searched for where the filter of labels lacks it.
    #[tactic(auto, using(crate::proofs::Bodies::not_label))]
    pub fn is_label_in(&self, name: &[u8]) -> bool
        ensures { result ≡ (here_at self.now.body.file.now self.now.body.kept.numbers.now self.now.body.scope).label name.now }
    {
        !lacks_word(self.labels, name) && self.body.is_label(name)
    }
}
