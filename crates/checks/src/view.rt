// A story and a body as the steps see them: borrowed parts, with what holds of them in the type.
ghost use Rattle.std.specs.Prelude.{◌≡◌};
ghost use Rattle.items.specs.Bodies.{kept_story};
ghost use Rattle.symbols.specs.Index.{spellings};
ghost use Rattle.symbols.specs.Rows.{spellings_of};
ghost use Rattle.tables.specs.Functions.{Functions};
ghost use Rattle.checks.specs.Context.{ScopeReady, scope_ready_prop};

use crate::ScopeView;
use items::runs::KeptNumbers;
use story::FileView;
use symbols::targets::EntryIndex;

// A file with the table of its story's functions.
#[derive(Clone, Copy)]
pub struct StoryView<'a> {
    pub source: FileView<'a>,
    pub functions: &'a [u32],
    pub ghost functions_known: { Functions source.file.now source.sections functions.now },
}

// A story with its index, whose entries spell the story's names, and with hints into that.
#[derive(Clone, Copy)]
pub struct IndexView<'a> {
    pub story: StoryView<'a>,
    pub entries: EntryIndex<'a>,
    pub hints: &'a [u32],
    pub ghost spelled: { spellings_of entries ≡ spellings (kept_story story.source.sections story.source.file.now) },
}

// The body of the root, a flow or a stitch: the file, the numbers kept of its items, and its places, which stand within the file.
#[derive(Clone, Copy)]
pub struct BodyView<'a> {
    pub file: &'a [u8],
    pub kept: KeptNumbers<'a>,
    pub scope: ScopeView,
    pub ghost ready: { ScopeReady file.now kept.numbers.now scope } by { scope_ready_prop file.now kept.numbers.now scope },
}
