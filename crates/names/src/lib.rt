// Names as bytes: comparing them, taking one out of a file, and the words that the rules name.
#![tactic(auto)]

ghost use Rattle.std.specs.Prelude.{◌≡◌, ◌||◌, [], ◌∷◌};
ghost use Rattle.names.specs.Words.{same, one_of};
ghost use Rattle.names.specs.Reserved.{END, DONE, back, builtins};
ghost use Rattle.names.specs.Targets.{passes};
ghost use Rattle.names.specs.Counted.{name_at};

// Two names have the same bytes. Stops at the first byte that differs.
pub fn same_name(a: &[u8], b: &[u8]) -> bool
    ensures { result ≡ same a.now b.now }
{
    if a.len() != b.len() {
        return false;
    }
    for (i, &x) in a.iter().enumerate() {
        if x != b[i] {
            return false;
        }
    }
    true
}

// The target passes without being looked up: empty, "->", or starting with "$".
pub fn passes(target: &[u8]) -> bool
    ensures { result ≡ passes target.now }
{
    target.is_empty() || target[0] == b'$' || same_name(b"->", target)
}

// The target is END, DONE or ->->.
pub fn is_reserved(target: &[u8]) -> bool
    ensures { result ≡ one_of target.now (END ∷ DONE ∷ back ∷ []) }
{
    same_name(target, b"END") || same_name(target, b"DONE") || same_name(target, b"->->")
}

// The target is END or DONE.
pub fn is_end_or_done(target: &[u8]) -> bool
    ensures { result ≡ (same END target.now || same DONE target.now) }
{
    same_name(b"END", target) || same_name(b"DONE", target)
}

// The name whose count byte stands at the place; where the file ends too early, what is left of it.
pub fn name_at<'a>(file: &'a [u8], at: usize) -> &'a [u8]
    ensures { result.now ≡ name_at file.now at }
{
    if file.len() <= at {
        return &file[file.len()..];
    }
    let start = at + 1;
    let count = file[at] as usize;
    if count <= file.len() - start {
        return &file[start..start + count];
    }
    &file[start..]
}

// The name whose count byte stands at the place is the other.
pub fn same_at(file: &[u8], at: usize, name: &[u8]) -> bool
    ensures { result ≡ same name.now (name_at file.now at) }
{
    same_name(name, name_at(file, at))
}

// The words of is_builtin_function.
const WORDS: [&[u8]; 21] = [
    b"RANDOM",
    b"SEED_RANDOM",
    b"POW",
    b"FLOOR",
    b"CEILING",
    b"INT",
    b"FLOAT",
    b"MIN",
    b"MAX",
    b"READ_COUNT",
    b"TURNS_SINCE",
    b"CHOICE_COUNT",
    b"TURNS",
    b"LIST_VALUE",
    b"LIST_ALL",
    b"LIST_INVERT",
    b"LIST_COUNT",
    b"LIST_MIN",
    b"LIST_MAX",
    b"LIST_RANGE",
    b"LIST_RANDOM",
];

// The name is one of the 21 words of is_builtin_function. Stops at the word found.
pub fn is_builtin_function(name: &[u8]) -> bool
    ensures { result ≡ one_of name.now builtins }
{
    WORDS.iter().any(|&word| same_name(name, word))
}
