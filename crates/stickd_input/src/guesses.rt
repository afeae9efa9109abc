//! The nearest of some words, as a guess at what was meant.

ghost use Rattle.std.specs.Prelude.{◌≡◌, IfOk, map, None, option_map};
ghost use Rattle.std.specs.List.{list_any};
ghost use Rattle.std.specs.Str.{bytes_eq};
ghost use Rattle.base_lines.specs.Parts.{is_byte, parts};
ghost use Rattle.stickd_input.specs.Nearest as spec;
ghost use Rattle.stickd_input.specs.Nearest.{nearest_alike, or_next as specified_next};

use base_lines::Parts;
use base_sequence::NoMemory;
use std::alloc::Global;
use strsim::generic_levenshtein;

/// A word, and how far it is from the one that was written.
#[derive(Clone, Copy)]
pub(crate) struct Near<'a> {
    pub distance: usize,
    pub word: &'a [u8],
}

/// How far a guess may be from a word.
fn farthest(word: &[u8]) -> usize
    ensures { result ≡ spec.farthest word.now }
{
    let most = (word.len() / 3).max(2);
    (word.len().saturating_sub(1) / 2).min(most)
}

/// The nearest guess so far, or the next word, where that is near enough and nearer.
#[tactic(auto, unfolding(crate::specs::Nearest::or_next))]
pub(crate) fn or_next<'a>(
    alloc: Global,
    word: &[u8],
    best: Option<Near<'a>>,
    next: &'a [u8],
) -> Result<Option<Near<'a>>, NoMemory>
    ensures { IfOk result (λ found. option_map (λ near. (near.distance, near.word.now)) found
        ≡ specified_next word.now (option_map (λ near. (near.distance, near.word.now)) best.entry) next.now) }
{
    let distance = generic_levenshtein(alloc, word, next)?;
    if distance > farthest(word) {
        return Ok(best);
    }
    let near = Near {
        distance,
        word: next,
    };
    match best {
        None => Ok(Some(near)),
        Some(old) => {
            if distance < old.distance {
                Ok(Some(near))
            } else {
                Ok(Some(old))
            }
        }
    }
}

/// Whether one of a word's parts at a byte names an act.
fn has_part(act: &[u8], word: &[u8], separator: u8) -> bool
    ensures { result ≡ list_any (bytes_eq act.now) (parts (is_byte separator) word.now) }
{
    let mut parts = Parts::new(word, separator);
    while let Some(part) = parts.next() {
        if act == part {
            return true;
        }
    }
    false
}

/// Whether a word does an act, as `sc-inc-gpc0` and `sc0_inc_gpc0` do `inc`.
fn does(act: &[u8], word: &[u8]) -> bool
    ensures { result ≡ spec.does act.now word.now }
{
    has_part(act, word, b'-') || has_part(act, word, b'_')
}

/// Whether both words do an act, or neither does.
fn does_alike(act: &[u8], one: &[u8], other: &[u8]) -> bool
    ensures { result ≡ spec.does_alike act.now one.now other.now }
{
    does(act, one) == does(act, other)
}

/// Whether two words do the same to a counter or a tag. So nobody who wrote a word that clears is led to one that counts up.
#[tactic(auto, unfolding(crate::specs::Nearest::has_same_acts))]
fn has_same_acts(one: &[u8], other: &[u8]) -> bool
    ensures { result ≡ spec.has_same_acts one.now other.now }
{
    does_alike(b"inc", one, other)
        && does_alike(b"clr", one, other)
        && does_alike(b"set", one, other)
}

/// The nearest of the words that do the same as the one that was written. None where none is near enough.
pub(crate) fn nearest<'a>(
    alloc: Global,
    word: &[u8],
    words: &[&'a str],
) -> Result<Option<Near<'a>>, NoMemory>
    ensures { IfOk result (λ found. option_map (λ near. (near.distance, near.word.now)) found
        ≡ nearest_alike word.now None (map (λ other. other.now) words.now)) }
{
    let mut best = None;
    for other in words {
        if !has_same_acts(word, other.as_bytes()) {
            continue;
        }
        best = or_next(alloc, word, best, other.as_bytes())?;
    }
    Ok(best)
}
