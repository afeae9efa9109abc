//! Lines that stand in place of others; `headings`, `proxy_lines` and `rule_lines` make their fates by it.

use crate::fates::{Fate, FateKind, left, plain};
use crate::lexer::SourceLine;
use crate::reasons::{Refusal, Why};
use crate::rules::Converted;
use crate::texts::{Words, append, append_str, copy_text, joined, same_words, text_of};
use base_sequence::NoMemory;
use std::alloc::Global;

/// Whether a word can be written without quotes.
fn is_writable(word: &[u8]) -> bool {
    if word.is_empty() {
        return false;
    }
    for byte in word {
        let is_odd = matches!(
            *byte,
            b'"' | b'\'' | b'\\' | b'$' | b'#' | b' ' | b'\t' | b'\n' | b'\r'
        );
        if is_odd || !byte.is_ascii() {
            return false;
        }
    }
    true
}

pub(crate) fn are_writable(words: &[Vec<u8>]) -> bool {
    for word in words {
        if !is_writable(word.as_slice()) {
            return false;
        }
    }
    true
}

/// The blanks before a line's first word.
fn indentation(raw: &[u8]) -> &[u8] {
    for (place, byte) in raw.iter().enumerate() {
        if *byte != b' ' && *byte != b'\t' {
            let (blanks, _) = raw.split_at(place);
            return blanks;
        }
    }
    raw
}

/// Words in place of a line's own, with its indentation and its comment.
fn in_place(alloc: Global, line: &SourceLine, words: &[Vec<u8>]) -> Result<Vec<u8>, NoMemory> {
    let mut text = copy_text(alloc, indentation(line.raw.as_slice()))?;
    let body = joined(alloc, words)?;
    append(&mut text, body.as_slice())?;
    if !line.comment.is_empty() {
        append_str(&mut text, "  ")?;
        append(&mut text, line.comment.as_slice())?;
    }
    Ok(text)
}

/// The fate of a line for which these words stand.
pub(crate) fn written(
    alloc: Global,
    line: &SourceLine,
    words: &[Vec<u8>],
    altered: Option<Why>,
) -> Result<Fate, NoMemory> {
    if !are_writable(words) {
        return left(alloc, FateKind::Lost, Why::OddCharacters);
    }
    if let Some(why) = altered {
        return Ok(Fate {
            kind: FateKind::Altered,
            note: text_of(alloc, why.text())?,
            text: in_place(alloc, line, words)?,
            after: Vec::new(alloc),
        });
    }
    if line.is_plain && same_words(line.words.as_slice(), words) {
        return Ok(plain(alloc, FateKind::Kept));
    }
    Ok(Fate {
        kind: FateKind::Rewritten,
        note: joined(alloc, words)?,
        text: in_place(alloc, line, words)?,
        after: Vec::new(alloc),
    })
}

/// The fate of a line that was converted, or was refused.
pub(crate) fn of_converted(
    alloc: Global,
    line: &SourceLine,
    given: Result<Converted, Refusal>,
) -> Result<Fate, NoMemory> {
    match given {
        Ok(converted) => written(alloc, line, converted.words.as_slice(), converted.altered),
        Err(Refusal::OutOfMemory) => Err(NoMemory),
        Err(Refusal::Lost(why)) => left(alloc, FateKind::Lost, why),
    }
}

/// Two words.
pub(crate) fn two_words(alloc: Global, first: &str, second: &[u8]) -> Result<Words, NoMemory> {
    let mut words = Vec::new(alloc);
    words.push(text_of(alloc, first)?)?;
    words.push(copy_text(alloc, second)?)?;
    Ok(words)
}

/// A line that is added: its words, behind four blanks.
pub(crate) fn added(alloc: Global, words: &[Vec<u8>]) -> Result<Vec<u8>, NoMemory> {
    let mut text = text_of(alloc, "    ")?;
    let body = joined(alloc, words)?;
    append(&mut text, body.as_slice())?;
    Ok(text)
}
