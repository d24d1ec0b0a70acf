// Names as the rules ask for them: the words that may be called, and the targets of the whole story.
ghost use Rattle.std.specs.Prelude.{◌≡◌};
ghost use Rattle.rules.specs.Rules.{call_passes};
ghost use Rattle.broken.specs.Scopes.{known_in, TargetsReady};

use crate::StoryView;
use enumerator::entries::has_target;
use items::files::KeptFile;
use items::runs::KeptNumbers;
use names::{is_builtin_function, is_reserved};
use sets::known::Known;
use story::FileView;

// A call name passes if it is a function's, an external's or one of the 21 words.
#[tactic(auto, using(crate::proofs::Answered::names_asked))]
pub fn call_passes(known: &Known<'_>, name: &[u8]) -> bool
    ensures { result ≡ call_passes (known_in known.now.source.sections known.now.source.file.now) name.now }
{
    known.is_function(name) || known.is_external(name) || is_builtin_function(name)
}

// The target is valid, or some spelling ends in "." and the target: by the set, or by going through the entries where one is not in it.
pub fn is_target<'a>(
    file: &'a [u8],
    kept: &'a [u32],
    targets: &[u64],
    v: StoryView,
    target: &[u8],
) -> bool
    requires { TargetsReady file.now v kept.now targets.now }
    ensures { result ≡ (known_in v.sections file.now).target target.now }
{
    if is_reserved(target) {
        return true;
    }
    if targets::has(file, targets, target) {
        return true;
    }
    if v.left {
        let source = FileView {
            file,
            sections: v.sections,
        };
        let kept = KeptNumbers { numbers: kept };
        let story = KeptFile { source, kept };
        return has_target(&story, target);
    }
    false
}
