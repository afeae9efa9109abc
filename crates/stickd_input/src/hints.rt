//! What is said of the word at fault: what may stand in its place, and what was perhaps meant.

use crate::declared::{Declared, Kind};
use crate::expected::{ELEMENT_FETCHES, Expected, SLOT_FETCHES, SOURCE_FETCHES};
use crate::guesses::{Near, nearest};
use crate::habits::meant_by;
use crate::suspects::{Suspect, suspect_of};
use base_lines::{Blanks, Words, before_parenthesis};
use base_sequence::NoMemory;
use rule_model::Fault;
use rule_words::before_comment;
use std::alloc::Global;

/// What was perhaps meant by a word: a part of it, a word in place of another part, and the rest of it.
#[derive(Clone, Copy)]
pub(crate) struct Guess<'a> {
    pub before: &'a [u8],
    pub word: &'a [u8],
    pub behind: &'a [u8],
}

/// The word at fault, and what was perhaps meant.
#[derive(Clone, Copy)]
pub(crate) struct Hint<'a> {
    pub suspect: Suspect<'a>,
    pub guess: Option<Guess<'a>>,
}

/// The words of a line, without its comment.
fn split_words(alloc: Global, line: &[u8]) -> Result<Vec<&[u8]>, NoMemory> {
    let mut words = Words::new(before_comment(line), Blanks::SpacesAndTabs);
    let mut all = Vec::new(alloc);
    for _ in 0..line.len() {
        let Some(word) = words.next() else {
            break;
        };
        all.push(word)?;
    }
    Ok(all)
}

/// What is said of the word at fault in the line of this number, where a text declares names. None where none is told.
pub(crate) fn hint_of<'a>(
    alloc: Global,
    declaring: &'a [u8],
    number: u64,
    line: &'a [u8],
    fault: Fault,
) -> Result<Option<Hint<'a>>, NoMemory> {
    let words = split_words(alloc, line)?;
    let declared = Declared::of(alloc, declaring, number)?;
    let Some(suspect) = suspect_of(fault, line, words.as_slice(), &declared) else {
        return Ok(None);
    };
    let guess = guess_of(alloc, suspect, &declared)?;
    Ok(Some(Hint { suspect, guess }))
}

/// What was perhaps meant by a word at fault.
fn guess_of<'a>(
    alloc: Global,
    suspect: Suspect<'a>,
    declared: &Declared<'a>,
) -> Result<Option<Guess<'a>>, NoMemory> {
    let word = suspect.word;
    if let Some(meant) = meant_by(suspect.expected, word) {
        return Ok(guess_by(
            b"",
            Some(Near {
                distance: 1,
                word: meant,
            }),
            b"",
        ));
    }
    match suspect.expected {
        Expected::Table => Ok(guess_by(b"", declared.nearest(alloc, Kind::Table, word)?, b"")),
        Expected::Backend => Ok(guess_by(b"", declared.nearest(alloc, Kind::Backend, word)?, b"")),
        Expected::Acl => Ok(guess_by(b"", declared.nearest(alloc, Kind::Acl, word)?, b"")),
        Expected::Criterion => guess_criterion(alloc, word),
        expected => {
            let (base, rest) = before_parenthesis(word);
            Ok(guess_by(b"", nearest(alloc, base, expected.words())?, rest))
        }
    }
}

/// What was perhaps meant by the name of a criterion: what is asked of a slot or a source, or any other name.
fn guess_criterion<'a>(alloc: Global, name: &'a [u8]) -> Result<Option<Guess<'a>>, NoMemory> {
    let (base, rest) = before_parenthesis(name);
    for prefix in ["sc0_", "sc1_", "sc2_", "sc_", "src_"] {
        let Some(fetch) = base.strip_prefix(prefix.as_bytes()) else {
            continue;
        };
        let near = nearest(alloc, fetch, fetches(prefix, rest))?;
        if let Some(guess) = guess_by(prefix.as_bytes(), near, rest) {
            return Ok(Some(guess));
        }
    }
    Ok(guess_by(
        b"",
        nearest(alloc, base, Expected::Criterion.words())?,
        rest,
    ))
}

/// What may stand behind such a prefix, with such parentheses.
fn fetches(prefix: &str, rest: &[u8]) -> &'static [&'static str] {
    if prefix == "src_" {
        return &SOURCE_FETCHES;
    }
    if rest.contains(&b',') {
        return &ELEMENT_FETCHES;
    }
    &SLOT_FETCHES
}

/// The guess that a near word makes, where it isn't the word that was written.
fn guess_by<'a>(before: &'a [u8], near: Option<Near<'a>>, behind: &'a [u8]) -> Option<Guess<'a>> {
    let near = near?;
    if near.distance == 0 {
        return None;
    }
    Some(Guess {
        before,
        word: near.word,
        behind,
    })
}
