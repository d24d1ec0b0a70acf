// Dotted ends by the places of their names: their hash, whether they are a word, and whether two have the same names.
ghost use Rattle.std.specs.Prelude.{◌≡◌, true, ◌++◌, ◌<◌, length};
ghost use Rattle.names.specs.Words.{same};
ghost use Rattle.names.specs.Counted.{name_at};
ghost use Rattle.sets.specs.Hashes.{hash_from, hash_of};
ghost use Rattle.targets.specs.Ends.{after_dots, end_at};
ghost use Rattle.targets.specs.Slots.{after, end_word};

use crate::DottedEnd;
use names::{name_at, same_at, same_name};
use sets::hashes::{hash_of, hash_on};

// How many dots the word has.
pub fn count_dots(word: &[u8]) -> usize
    ensures { result ≡ length (after_dots word.now) }
{
    word.iter().filter(|&&byte| byte == b'.').count()
}

// What follows so many dots of the word: nothing where it has fewer.
fn end_of<'a>(word: &'a [u8], dots: usize) -> &'a [u8]
    ensures { result.now ≡ end_at dots word.now }
{
    let mut rest = word;
    let mut left = dots;
    while left > 0 {
        if rest.len() == 0 {
            return rest;
        }
        if rest[0] == b'.' {
            left -= 1;
        }
        rest = &rest[1..];
    }
    rest
}

// The hash goes on over a dot and the name at the place, where there is one.
fn hash_after(file: &[u8], start: u32, place: Option<usize>) -> u32
    ensures { result ≡ hash_from start (after file.now place) }
{
    match place {
        None => start,
        Some(at) => hash_on(hash_on(start, b"."), name_at(file, at)),
    }
}

// The hash of an end.
pub fn hash_end(file: &[u8], e: DottedEnd) -> u32
    ensures { result ≡ hash_of (end_word file.now e) }
{
    let name = name_at(file, e.first);
    let first = hash_of(end_of(name, e.dots));
    let second = hash_after(file, first, e.second);
    hash_after(file, second, e.third)
}

// How many bytes a dot and the name at the place have, where there is one.
fn length_after(file: &[u8], place: Option<usize>) -> usize
    ensures { result ≡ length (after file.now place) }
{
    match place {
        None => 0,
        Some(at) => 1 + name_at(file, at).len(),
    }
}

// The word is a dot and the name at the place, or empty where there is none.
fn same_after(file: &[u8], place: Option<usize>, word: &[u8]) -> bool
    ensures { result ≡ same word.now (after file.now place) }
{
    let Some(at) = place else {
        return word.len() == 0;
    };
    if word.len() == 0 {
        return false;
    }
    if word[0] != b'.' {
        return false;
    }
    same_at(file, at, &word[1..])
}

// The word is what follows the first name of an end. The last name is compared first.
fn same_tail(file: &[u8], second: Option<usize>, third: Option<usize>, word: &[u8]) -> bool
    ensures { result ≡ same word.now (after file.now second ++ after file.now third) }
{
    let front = length_after(file, second);
    if word.len() < front {
        return false;
    }
    if same_after(file, third, &word[front..]) {
        return same_after(file, second, &word[0..front]);
    }
    false
}

// The word is the end. Its first name is compared last.
pub fn same_end(file: &[u8], e: DottedEnd, word: &[u8]) -> bool
    ensures { result ≡ same word.now (end_word file.now e) }
{
    let name = name_at(file, e.first);
    let end = end_of(name, e.dots);
    let front = end.len();
    if word.len() < front {
        return false;
    }
    if same_tail(file, e.second, e.third, &word[front..]) {
        return same_name(&word[0..front], end);
    }
    false
}

// The names at the two places are the same.
fn same_places(file: &[u8], a: usize, b: usize) -> bool
    ensures { result ≡ true → name_at file.now a ≡ name_at file.now b }
{
    a == b || same_at(file, b, name_at(file, a))
}

// The names at the two places are the same, or there is none at either.
fn same_names(file: &[u8], a: Option<usize>, b: Option<usize>) -> bool
    ensures { result ≡ true → after file.now a ≡ after file.now b }
{
    match (a, b) {
        (None, None) => true,
        (Some(p), Some(q)) => same_places(file, p, q),
        _ => false,
    }
}

// The two ends have the same names, and begin after as many dots. (Other names can make the same word: they are not found so.)
pub fn same_parts(file: &[u8], e: DottedEnd, f: DottedEnd) -> bool
    ensures { result ≡ true → end_word file.now e ≡ end_word file.now f }
{
    if e.dots != f.dots {
        return false;
    }
    if same_names(file, e.third, f.third) {
        if same_names(file, e.second, f.second) {
            return same_places(file, e.first, f.first);
        }
    }
    false
}
