//! What becomes of a line by its keyword, and of an option by its word, where no other code says it; `fates`, `proxy_lines`,
//! `servers`, `listeners`, `actions` and `tables` ask it. The keywords stand in `manual`.

ghost use Rattle.std.specs.Prelude.{◌≡◌, ◌↔◌, IsTrue, map};
ghost use Rattle.std.specs.List.{list_any};
ghost use Rattle.std.specs.Str.{bytes_eq};
ghost use Rattle.base_lines.specs.Parts.{parts, is_byte};
ghost use Rattle.adopt.specs.Keywords as spec;
ghost use Rattle.adopt.specs.Keywords.{has_keyword, says, said_of};

use crate::manual::Row;
use crate::reasons::Why;
use crate::texts::is_word;
use base_lines::Parts;

/// The fate of a keyword.
#[derive(Clone, Copy, PartialEq, Eq)]
pub(crate) enum Sort {
    /// The rest of its line says what becomes of it. Where no code reads that, what is served changes.
    Kept,
    /// An option of the command line stands for it where it counts. Elsewhere nothing changes.
    Carried,
    /// Nothing that is served changes.
    Harmless,
    /// What is served changes.
    Change,
}

/// What is said of a line by its keyword.
#[derive(Clone, Copy)]
pub(crate) struct Told {
    pub why: Why,
    /// Whether something that matters is lost.
    pub matters: bool,
}

/// Whether one of these keywords, which blanks part, is this word.
fn has_word(keywords: &[u8], word: &[u8]) -> bool
    ensures { result ≡ has_keyword word.now keywords.now }
{
    let mut rest = Parts::new(keywords, b' ');
    while let Some(keyword) = rest.next() {
        if word == keyword {
            return true;
        }
    }
    false
}

/// What a keyword of this fate says of its line.
fn told_by(sort: Sort, why: Why) -> Told
    ensures { result ≡ says sort why }
{
    match sort {
        Sort::Kept | Sort::Change => Told { why, matters: true },
        Sort::Carried | Sort::Harmless => Told {
            why,
            matters: false,
        },
    }
}

/// What a table says of a word. None where no row has it.
pub(crate) fn told_of(word: &[u8], rows: &[Row]) -> Option<Told>
    ensures { result ≡ said_of word.now (map (λ row. (row.2.now, says row.0 row.1)) rows.now) }
{
    for (sort, why, keywords) in rows {
        if has_word(keywords.as_bytes(), word) {
            return Some(told_by(*sort, *why));
        }
    }
    None
}

/// What becomes of a word by a table. What the table lacks is a change of what is served.
pub(crate) fn left_of(word: &[u8], rows: &[Row]) -> Told
    ensures { result ≡ spec.left_of word.now (map (λ row. (row.2.now, says row.0 row.1)) rows.now) }
{
    match told_of(word, rows) {
        Some(told) => told,
        None => Told {
            why: Why::UnknownKeyword,
            matters: true,
        },
    }
}

/// What the options of a line from a place on lose that changes what is served, by the tables of those that a value follows, and of
/// the others.
pub(crate) fn options_loss(
    words: &[Vec<u8>],
    from: usize,
    valued: &[Row],
    flags: &[Row],
) -> Option<Why> {
    let mut skips = false;
    let mut loss = None;
    for (place, word) in words.iter().enumerate() {
        if place < from || skips {
            skips = false;
            continue;
        }
        let value = told_of(word.as_slice(), valued);
        skips = value.is_some();
        let told = value.unwrap_or(left_of(word.as_slice(), flags));
        if told.matters && loss.is_none() {
            loss = Some(told.why);
        }
    }
    loss
}

/// Whether an option that stands alone is among those of a line from a place on, and isn't the value of one of these.
pub(crate) fn has_flag(words: &[Vec<u8>], from: usize, valued: &[Row], wanted: &str) -> bool {
    let mut skips = false;
    for (place, word) in words.iter().enumerate() {
        if place < from || skips {
            skips = false;
            continue;
        }
        if is_word(word.as_slice(), wanted) {
            return true;
        }
        skips = told_of(word.as_slice(), valued).is_some();
    }
    false
}

/// Whether a word is one of these.
pub(crate) fn is_one_of(word: &[u8], texts: &[&str]) -> bool {
    for text in texts {
        if is_word(word, text) {
            return true;
        }
    }
    false
}
