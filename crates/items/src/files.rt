// A readable file with the numbers that were kept of it.
ghost use Rattle.std.specs.Prelude.{◌≡◌, Err, IfErr, IfOk, ◌≤◌, ◌*◌, length};
ghost use Rattle.story.specs.File.{read_of};
ghost use Rattle.items.specs.Bodies.{Kept};

use crate::runs::KeptNumbers;
use fields::Refusal;
use story::{FileView, read};

// A readable file, its sections, and the numbers kept of it.
#[derive(Clone, Copy)]
pub struct KeptFile<'a> {
    pub source: FileView<'a>,
    pub kept: KeptNumbers<'a>,
    pub ghost numbers_kept: { Kept source.file.now source.sections kept.numbers.now },
}

// Reads a whole file, with a buffer for the kept numbers that is a sixth as long as it, if it is not too long to be read.
pub fn read_kept<'a>(file: &'a [u8], items: &'a mut [u32]) -> Result<KeptFile<'a>, Refusal>
    requires { length file.now ≤ 1048576 → length file.now ≤ 6 * length items.old }
    ensures ok { IfOk result (λ story. story.source.file.now ≡ file.now) }
    ensures err { IfErr result (λ r. read_of file.now ≡ Err r) }
{
    let (sections, n, _) = read(file, items)?;
    let source = FileView { file, sections };
    let kept = KeptNumbers {
        numbers: &items[..n],
    };
    Ok(KeptFile { source, kept })
}
