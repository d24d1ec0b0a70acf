// The entries of a story, visited one after the other.
ghost use Rattle.std.specs.Prelude.{◌≡◌, refl};
ghost use Rattle.std.proofs.Common.{◌∙◌};
ghost use Rattle.names.specs.Words.{any};
ghost use Rattle.story.specs.File.{story_in};
ghost use Rattle.symbols.specs.Index.{entries, spellings};
ghost use Rattle.symbols.specs.Numbers.{st};
ghost use Rattle.enumerator.specs.Numbers.{store_all};
ghost use Rattle.symbols.specs.Placed.{placed};
ghost use Rattle.sets.specs.Sets.{Reachable};
ghost use Rattle.symbols.specs.Fits.{answers};
ghost use Rattle.targets.specs.Slots.{end_slots};
ghost use Rattle.enumerator.specs.Visited.{Ready, Visited};
ghost use Rattle.enumerator.specs.Laws.{visited-none, visited-then, ready-first, ready-then};
ghost use Rattle.enumerator.specs.Entered.{Entered};

use crate::Seen;
use crate::visits::visit_entry;
use items::files::KeptFile;
use symbols::Places;
use symbols::entries::visit_entries;
use symbols::visits::Visit;
use targets::clear;

// The three outputs of the visits of a file's entries: the index, the set of targets, and what was seen, with the target that is asked for.
#[derive(Drop)]
struct Outputs<'a> {
    file: &'a [u8],
    target: &'a [u8],
    index: &'a mut [u32],
    set: &'a mut [u64],
    seen: Seen,
}

impl<'a> Visit for Outputs<'a> {
    ghost ready = { λ v ps. Ready v.file.now ps v.set.now v.seen.count };

    ghost visited = { λ v ps w. Visited v.file.now v.target.now ps v.index.now v.set.now v.seen w.index.now w.set.now w.seen
        × (w.file.now ≡ v.file.now) × (w.target.now ≡ v.target.now)
        × (w.index.ghost_name ≡ v.index.ghost_name) × (w.set.ghost_name ≡ v.set.ghost_name) };

    fn visit(&mut self, p: Places) {
        self.seen = visit_entry(self.file, p, self.target, self.index, self.set, self.seen);
    }

    ghost laws = { record {
      none = λ v ps r. (visited-none r.reachable, refl, refl, refl, refl);
      append = λ u v w ps qs a b. (visited-then ps qs a.0 b.0 a.1 a.2, b.1 ∙ a.1, b.2 ∙ a.2, b.3 ∙ a.3, b.4 ∙ a.4);
      front = λ v ps qs r. ready-first ps qs refl r;
      rest = λ u v ps qs r d. ready-then ps qs r d.0 d.1;
    } };
}

// Visits THE ENTRIES of a readable file by its kept numbers: globals, labels of the root, flows.
pub fn enumerate(
    story: &KeptFile<'_>,
    target: &[u8],
    index: &mut [u32],
    set: &mut [u64],
    seen: Seen,
) -> Seen
    requires { (seen.count ≡ 0) × Reachable (end_slots story.now.source.file.now) set.old }
    ensures { Visited story.now.source.file.now target.now (placed (entries (story_in story.now.source.sections story.now.source.file.now))) index.old set.old seen index.new set.new result }
{
    let mut outputs = Outputs {
        file: story.source.file,
        target,
        index,
        set,
        seen,
    };
    visit_entries(story, &mut outputs);
    outputs.seen
}

// Writes the index of a readable file by its kept numbers; the entry count.
pub fn write_index(story: &KeptFile<'_>, index: &mut [u32]) -> usize
    ensures { st index.new result ≡ store_all (st index.old 0) (placed (entries (story_in story.now.source.sections story.now.source.file.now))) }
{
    let mut set = [0u64; 1];
    let seen = Seen {
        count: 0,
        left: true,
        found: true,
    };
    let met = enumerate(story, story.source.file, index, &mut set[..0], seen);
    met.count
}

// Writes the index of a readable file by its kept numbers, as far as there is room, and puts the targets of its entries into the set.
pub fn write_entries(story: &KeptFile<'_>, index: &mut [u32], set: &mut [u64]) -> Seen
    ensures { Entered story.now.source.file.now story.now.source.sections index.old index.new set.new result }
{
    clear(set);
    let seen = Seen {
        count: 0,
        left: false,
        found: true,
    };
    enumerate(story, story.source.file, index, set, seen)
}

// Some entry of a readable file answers the target.
pub fn has_target(story: &KeptFile<'_>, target: &[u8]) -> bool
    ensures { result ≡ any (answers target.now) (spellings (story_in story.now.source.sections story.now.source.file.now)) }
{
    let mut index = [0u32; 1];
    let mut set = [0u64; 1];
    let seen = Seen {
        count: 0,
        left: true,
        found: false,
    };
    let met = enumerate(story, target, &mut index[..0], &mut set[..0], seen);
    met.found
}
