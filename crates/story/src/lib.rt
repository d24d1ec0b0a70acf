// The story file: trailer and sections, the headings of flows and stitches, and the reading pass over a whole file.
#![tactic(auto)]

ghost use Rattle.std.specs.Prelude.{◌≡◌, Err};
ghost use Rattle.records.specs.Work.{run, st, keeping, Told};
ghost use Rattle.records.specs.Buffers.{cleared};
ghost use Rattle.story.specs.File.{sections_read, InOrder};
ghost use Rattle.story.specs.Results.{ReadAs};

pub mod flows;
pub mod headings;
pub mod trailer;

use crate::flows::{read_flows, read_names};
use crate::trailer::read_trailer;
use fields::Refusal;
use records::part::Part;
use records::{MET, walk_nodes};

// The sections' starts after the first, which is 0, and the place of the trailer.
#[derive(Clone, Copy)]
pub struct Sections {
    pub externals: usize,
    pub root: usize,
    pub flows: usize,
    pub end: usize,
}

// Where the parts of a flow or a stitch begin, from its name's count byte on: the two counts of parameters, its nodes, and what follows them.
#[derive(Clone, Copy)]
pub struct Heading {
    pub params: usize,
    pub marks: usize,
    pub nodes: usize,
    pub end: usize,
}

// A file and its sections, which stand in order.
#[derive(Clone, Copy)]
pub struct FileView<'a> {
    pub file: &'a [u8],
    pub sections: Sections,
    pub ghost in_order: { InOrder sections file.now },
}

impl FileView<'_> {
    // Globals, externals, root and flows, front to back, the records kept.
    fn read_sections(&self, out: &mut [u32]) -> Result<usize, Refusal>
        ensures { Told (run keeping 0 (st out.old 0) (sections_read self.now.sections self.now.file.now)) result out.new }
    {
        let file = self.file;
        let c = self.sections;
        let externals = c.externals;
        let root = c.root;
        let flows = c.flows;
        let end = c.end;
        read_names(&file[0..externals])?;
        read_names(&file[externals..root])?;
        let root_nodes = Part {
            bytes: &file[root..flows],
            base: root,
        };
        let m = walk_nodes(root_nodes, out, 0)?;
        let all_flows = Part {
            bytes: &file[flows..end],
            base: flows,
        };
        read_flows(all_flows, out, m)
    }
}

// The refusal of a file, and nothing of the file left in the buffer.
fn refused(r: Refusal, items: &mut [u32]) -> Result<(Sections, usize, usize), Refusal>
    ensures { (result ≡ Err r) × (items.new ≡ cleared items.old) }
{
    items.fill(0);
    Err(r)
}

// READING a whole file, once: refusals 1 to 6, which leave the buffer at 0; or its sections, with a number in the buffer for each record that
// is not plain.
pub fn read(file: &[u8], items: &mut [u32]) -> Result<(Sections, usize, usize), Refusal>
    ensures { ReadAs file.now items.old result items.new }
{
    match read_trailer(file) {
        Err(r) => refused(r, items),
        Ok(c) => {
            let view = FileView { file, sections: c };
            match view.read_sections(items) {
                Err(r) => refused(r, items),
                Ok(n) => Ok((c, n % MET, n / MET)),
            }
        }
    }
}
