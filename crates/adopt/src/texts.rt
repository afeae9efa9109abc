//! Small work on texts and words; most modules here call it, and `stickd` copies the words of its command line by `text_of`.

ghost use Rattle.std.specs.Prelude.{◌≡◌, IfOk};

use base_sequence::NoMemory;
use std::alloc::Global;
use std::mem;

/// The words of a line.
pub type Words = Vec<Vec<u8>>;

/// Whether a word is this text.
pub(crate) fn is_word(word: &[u8], text: &str) -> bool {
    word == text.as_bytes()
}

/// The word at a place, which is empty where there is none.
pub(crate) fn word_at(words: &[Vec<u8>], place: usize) -> &[u8] {
    match words.get(place) {
        Some(word) => word.as_slice(),
        None => b"",
    }
}

/// Puts bytes behind a text.
pub(crate) fn append(text: &mut Vec<u8>, more: &[u8]) -> Result<(), NoMemory> {
    text.extend_from_slice(more)?;
    Ok(())
}

/// Puts a string behind a text.
pub(crate) fn append_str(text: &mut Vec<u8>, more: &str) -> Result<(), NoMemory> {
    text.extend_from_slice(more.as_bytes())?;
    Ok(())
}

/// A string as a text.
pub fn text_of(alloc: Global, text: &str) -> Result<Vec<u8>, NoMemory>
    ensures { IfOk result (λ copy. copy.items ≡ text.now) }
{
    Ok(Vec::from_slice(alloc, text.as_bytes())?)
}

/// A copy of a text.
pub(crate) fn copy_text(alloc: Global, text: &[u8]) -> Result<Vec<u8>, NoMemory>
    ensures { IfOk result (λ copy. copy.items ≡ text.now) }
{
    Ok(Vec::from_slice(alloc, text)?)
}

/// A copy of words.
pub(crate) fn copy_words(alloc: Global, words: &[Vec<u8>]) -> Result<Words, NoMemory> {
    let mut copies = Vec::new(alloc);
    for word in words {
        copies.push(copy_text(alloc, word.as_slice())?)?;
    }
    Ok(copies)
}

/// Whether words are the same.
pub(crate) fn same_words(words: &[Vec<u8>], others: &[Vec<u8>]) -> bool {
    if words.len() != others.len() {
        return false;
    }
    for (place, word) in words.iter().enumerate() {
        if word.as_slice() != word_at(others, place) {
            return false;
        }
    }
    true
}

/// Words with a blank between any two.
pub(crate) fn joined(alloc: Global, words: &[Vec<u8>]) -> Result<Vec<u8>, NoMemory> {
    let mut text = Vec::new(alloc);
    for word in words {
        if !text.is_empty() {
            text.push(b' ')?;
        }
        append(&mut text, word.as_slice())?;
    }
    Ok(text)
}

/// The parts of a text round a byte.
pub(crate) fn split_at_byte(alloc: Global, text: &[u8], separator: u8) -> Result<Words, NoMemory> {
    let mut parts = Vec::new(alloc);
    let mut part = Vec::new(alloc);
    for byte in text {
        if *byte == separator {
            let done = mem::replace(&mut part, Vec::new(alloc));
            parts.push(done)?;
        } else {
            part.push(*byte)?;
        }
    }
    parts.push(part)?;
    Ok(parts)
}
