// A target looked up in a story file, without regard to where a divert stands.
#![tactic(auto)]

ghost use Rattle.std.specs.Prelude.{◌≡◌, ◌∷◌, ◌≤◌, ◌*◌, length};
ghost use Rattle.names.specs.Words.{same, ends};
ghost use Rattle.story.specs.File.{story_in};
ghost use Rattle.symbols.specs.Rows.{spellings_of, first_of};
ghost use Rattle.lookups.specs.declared.LookupRefusal.TheVariants.{Unreadable};
ghost use Rattle.lookups.specs.Results.{answer_of, number_of};
ghost use Rattle.lookups.specs.Lookup.{entry_of, target_of, Looked};

use fields::{Refusal, refusal_number};
use items::files::read_kept;
use names::{is_reserved, passes};
use searches::is_function_name;
use story::FileView;
use story::trailer::read_trailer;
use symbols::entries::write_index;
use symbols::targets::EntryIndex;

// What a target is: an entry is named by its number in the index, from 0.
#[derive(Clone, Copy)]
pub enum Target {
    Pass,
    Function,
    Reserved,
    Exact(usize),
    Ending(usize),
    Missing,
}

// What the target is, and how many entries the index has.
#[derive(Clone, Copy)]
pub struct Answered {
    pub target: Target,
    pub entries: usize,
}

// Why a lookup is refused: the reader's refusal, 1 to 6; refusal 7, the index is too short.
#[derive(Clone, Copy)]
pub enum LookupRefusal {
    Unreadable(Refusal),
    ShortIndex,
}

impl LookupRefusal {
    // The number of the refusal.
    pub fn number(self) -> usize
        ensures { result ≡ number_of self }
    {
        match self {
            LookupRefusal::Unreadable(r) => refusal_number(r),
            LookupRefusal::ShortIndex => 7,
        }
    }
}

impl From<Refusal> for LookupRefusal {
    ghost from_gives = { λ r e. e ≡ Unreadable r };

    // The reader's refusal is the lookup's.
    fn from(r: Refusal) -> LookupRefusal {
        LookupRefusal::Unreadable(r)
    }
}

// The first entry that is spelled as the target, else the first that ends in "." and the target.
fn lookup_entry(index: &EntryIndex<'_>, target: &[u8]) -> Target
    ensures { answer_of result ≡ entry_of (first_of (same target.now) 0 (spellings_of index.now)) (first_of (ends (46 ∷ target.now)) 0 (spellings_of index.now)) }
{
    if let Some(k) = index.find_exact(target) {
        return Target::Exact(k);
    }
    if let Some(k) = index.find_ending(target) {
        return Target::Ending(k);
    }
    Target::Missing
}

// What the target is in a file with this index.
fn lookup_target(source: &FileView<'_>, index: &EntryIndex<'_>, target: &[u8]) -> Target
    ensures { answer_of result ≡ target_of (story_in source.now.sections source.now.file.now).flows (spellings_of index.now) target.now }
{
    let file = source.file;
    let c = source.sections;
    if passes(target) {
        return Target::Pass;
    }
    if is_function_name(&file[c.flows..c.end], target) {
        return Target::Function;
    }
    if is_reserved(target) {
        return Target::Reserved;
    }
    lookup_entry(index, target)
}

// Looks the target up, with a buffer for the kept numbers that is a sixth as long as the file, if that is not too long to be read.
fn lookup_in(
    file: &[u8],
    index: &mut [u32],
    target: &[u8],
    items: &mut [u32],
) -> Result<Answered, LookupRefusal>
    requires { length file.now ≤ 1048576 → length file.now ≤ 6 * length items.old }
    ensures { Looked file.now index.old target.now result index.new }
{
    let story = read_kept(file, items)?;
    if index.len() < 3 * story.source.sections.end {
        return Err(LookupRefusal::ShortIndex);
    }
    let count = write_index(&story, index);
    let entries = EntryIndex {
        file,
        numbers: index,
        count,
    };
    let target = lookup_target(&story.source, &entries, target);
    Ok(Answered {
        target,
        entries: count,
    })
}

// The same with a buffer of so many numbers.
fn lookup_sized<const ITEMS: usize>(
    file: &[u8],
    index: &mut [u32],
    target: &[u8],
) -> Result<Answered, LookupRefusal>
    requires items_in_memory { ITEMS ≤ 174763 }
    requires items_enough { length file.now ≤ 1048576 → length file.now ≤ 6 * ITEMS }
    ensures { Looked file.now index.old target.now result index.new }
{
    let mut items = [0u32; ITEMS];
    lookup_in(file, index, target, &mut items)
}

// Looks the target up: reads the file, writes the index as a check does, and finds what the target is. The trailer is judged first: no buffers are made for a file that it refuses.
pub fn lookup(file: &[u8], index: &mut [u32], target: &[u8]) -> Result<Answered, LookupRefusal>
    ensures { Looked file.now index.old target.now result index.new }
{
    read_trailer(file)?;
    match file.len() {
        ..=4096 => lookup_sized::<683>(file, index, target),
        4097..=65536 => lookup_sized::<10923>(file, index, target),
        _ => lookup_sized::<174763>(file, index, target),
    }
}
