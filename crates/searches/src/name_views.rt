// Names that stand one after the other in a file, by their places.
ghost use Rattle.std.specs.Prelude.{◌≡◌, drop};
ghost use Rattle.story.specs.Flows.{counted_in};
ghost use Rattle.searches.specs.NameViews.{names_left};

use names::name_at;

// A name: the place of its count byte, and its bytes.
#[derive(Clone, Copy)]
pub struct NameView<'a> {
    pub at: usize,
    pub bytes: &'a [u8],
}

// The names from a place on, at most so many.
#[derive(Drop)]
pub struct NamesFrom<'a> {
    pub file: &'a [u8],
    pub at: usize,
    pub many: usize,
}

impl<'a> Iterator for NamesFrom<'a> {
    ghost use Rattle.std.specs.Iterator.{YieldsFirstBy, item_count};
    ghost use Rattle.searches.specs.NameViews.{viewed_name, names_left};

    type Item = NameView<'a>;

    ghost next_gives = { YieldsFirstBy viewed_name names_left };

    ghost remaining = { item_count names_left };

    // The name at the place, and on past its bytes.
    fn next(&mut self) -> Option<NameView<'a>> {
        let at = self.at;
        if self.many == 0 || self.file.len() <= at {
            return None;
        }
        let bytes = name_at(self.file, at);
        self.at = at + (1 + self.file[at] as usize);
        self.many -= 1;
        Some(NameView { at, bytes })
    }
}

// The names that the count byte at the place counts.
pub fn counted<'a>(file: &'a [u8], at: usize) -> NamesFrom<'a>
    ensures names { names_left result ≡ counted_in at (drop at file.now) }
    ensures same_file { result.file.now ≡ file.now }
{
    if file.len() <= at {
        return NamesFrom { file, at, many: 0 };
    }
    NamesFrom {
        file,
        at: at + 1,
        many: file[at] as usize,
    }
}
