// Targets looked for among the entries of the index.
ghost use Rattle.std.specs.Prelude.{◌≡◌, ◌∷◌, ◌++◌, ◌/◌, ◌<◌, IfSome, is_some, length, min};
ghost use Rattle.names.specs.Words.{same, any, ends};
ghost use Rattle.symbols.specs.Fits.{fit_of, end_fit, answers};
ghost use Rattle.symbols.specs.Rows.{dotted_in, spelling_in, spellings_of, row_at, first_of, wanted, sought};

use crate::{ABSENT, Fit, Places};
use names::{name_at, same_name};

// What stands in the word before "." and the ending, if it ends so.
fn before_dotted<'a>(word: &'a [u8], end: &[u8]) -> Option<&'a [u8]>
    ensures ends { is_some result ≡ ends (46 ∷ end.now) word.now }
    ensures before { IfSome result (λ before. before.now ++ (46 ∷ end.now) ≡ word.now) }
{
    if word.len() <= end.len() {
        return None;
    }
    let dot = word.len() - end.len() - 1;
    if word[dot] == b'.' && same_name(end, &word[dot + 1..]) {
        return Some(&word[..dot]);
    }
    None
}

// How the target fits a spelling.
fn fit_word(target: &[u8], spelling: &[u8]) -> Fit
    ensures { result ≡ fit_of target.now spelling.now }
{
    if same_name(target, spelling) {
        return Fit::Exact;
    }
    if before_dotted(spelling, target).is_some() {
        return Fit::Ending;
    }
    Fit::Differs
}

// How the target fits a spelling whose last name this is, with a dot before it that the target does not reach.
fn fit_end(target: &[u8], last: &[u8]) -> Fit
    ensures { result ≡ end_fit target.now last.now }
{
    if same_name(target, last) {
        return Fit::Ending;
    }
    if before_dotted(last, target).is_some() {
        return Fit::Ending;
    }
    Fit::Differs
}

// How the target fits a name with its flow's before it, if there is one.
fn fit_flow(file: &[u8], flow: u32, last: &[u8], target: &[u8]) -> Fit
    ensures { result ≡ fit_of target.now (dotted_in file.now flow last.now) }
{
    if flow == ABSENT {
        return fit_word(target, last);
    }
    if let Some(before) = before_dotted(target, last) {
        return fit_word(before, name_at(file, flow as usize));
    }
    fit_end(target, last)
}

// How the target fits the spelling of an entry.
pub fn fit_entry(file: &[u8], p: Places, target: &[u8]) -> Fit
    ensures { result ≡ fit_of target.now (spelling_in file.now p) }
{
    let own = name_at(file, p.own as usize);
    if p.stitch == ABSENT {
        return fit_flow(file, p.flow, own, target);
    }
    if let Some(before) = before_dotted(target, own) {
        return fit_flow(file, p.flow, name_at(file, p.stitch as usize), before);
    }
    fit_end(target, own)
}

// The fit is one that is looked for.
fn is_wanted(fit: Fit, exact: bool, ending: bool) -> bool
    ensures { result ≡ wanted exact ending fit }
{
    match fit {
        Fit::Exact => exact,
        Fit::Ending => ending,
        Fit::Differs => false,
    }
}

// The target is the spelling of an entry, or the spelling ends in "." and the target.
pub fn is_answer(file: &[u8], p: Places, target: &[u8]) -> bool
    ensures { result ≡ answers target.now (spelling_in file.now p) }
{
    is_wanted(fit_entry(file, p, target), true, true)
}

// The index of a file, of which so many entries are counted: three numbers each.
#[derive(Clone, Copy)]
pub struct EntryIndex<'a> {
    pub file: &'a [u8],
    pub numbers: &'a [u32],
    pub count: usize,
}

impl EntryIndex<'_> {
    // How many entries can be read: as many as are counted and stand in the numbers.
    pub fn len(&self) -> usize
        ensures { result ≡ min self.now.count (length self.now.numbers.now / 3) }
    {
        self.count.min(self.numbers.len() / 3)
    }

    // Entry number k.
    pub fn entry_at(&self, k: usize) -> Places
        requires { k < length self.now.numbers.now / 3 }
        ensures { result ≡ row_at self.now.numbers.now k }
    {
        let at = 3 * k;
        Places {
            flow: self.numbers[at],
            stitch: self.numbers[at + 1],
            own: self.numbers[at + 2],
        }
    }

    // The number of the first entry whose spelling the target fits as wanted.
    fn find(&self, target: &[u8], exact: bool, ending: bool) -> Option<usize>
        ensures { result ≡ first_of (sought exact ending target.now) 0 (spellings_of self.now) }
    {
        for k in 0..self.len() {
            if is_wanted(
                fit_entry(self.file, self.entry_at(k), target),
                exact,
                ending,
            ) {
                return Some(k);
            }
        }
        None
    }

    // The number of the first entry whose spelling is the target.
    pub fn find_exact(&self, target: &[u8]) -> Option<usize>
        ensures { result ≡ first_of (same target.now) 0 (spellings_of self.now) }
    {
        self.find(target, true, false)
    }

    // The number of the first entry whose spelling ends in "." and the target.
    pub fn find_ending(&self, target: &[u8]) -> Option<usize>
        ensures { result ≡ first_of (ends (46 ∷ target.now)) 0 (spellings_of self.now) }
    {
        self.find(target, false, true)
    }

    // Some entry is spelled as the target, or ends in "." and the target.
    pub fn has_target(&self, target: &[u8]) -> bool
        ensures { result ≡ any (answers target.now) (spellings_of self.now) }
    {
        self.find(target, true, true).is_some()
    }
}
