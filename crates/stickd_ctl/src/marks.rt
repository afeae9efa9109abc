//! What changed since an answer came the last time.

ghost use Rattle.std.specs.Prelude.{◌≡◌, ◌++◌, OnOk};
ghost use Rattle.stickd_ctl.specs.Marks as spec;
ghost use Rattle.stickd_ctl.specs.Marks.{marked_line, marked};

use crate::lines::{name_of, number_of_word};
use base_lines::Parts;
use base_sequence::NoMemory;

/// Whether a word says the same as before: what an entry's life has left may be less.
fn is_aged_word(before: &[u8], word: &[u8]) -> bool
    ensures { result ≡ spec.is_aged_word before.now word.now }
{
    if before == word {
        return true;
    }
    if name_of(before) != b"exp".as_slice() || name_of(word) != b"exp".as_slice() {
        return false;
    }
    let (Some(more), Some(less)) = (number_of_word(before), number_of_word(word)) else {
        return false;
    };
    less <= more
}

/// Whether no words are left.
fn are_over(words: &Parts<'_>) -> bool
    ensures { result ≡ spec.are_over words.now }
{
    words.is_done()
}

/// Whether a line says the same as before, word by word. So that time passes is no change, and that an entry was refreshed is one.
fn is_aged(before: &[u8], line: &[u8]) -> bool
    ensures { result ≡ spec.is_aged before.now line.now }
{
    let mut others = Parts::new(before, b' ');
    let mut words = Parts::new(line, b' ');
    while let Some(word) = words.next() {
        let Some(other) = others.next() else {
            return false;
        };
        if !is_aged_word(other, word) {
            return false;
        }
    }
    are_over(&others)
}

/// Whether a line of a text says the same as this one.
fn has_line(text: &[u8], line: &[u8]) -> bool
    ensures { result ≡ spec.has_line text.now line.now }
{
    let mut lines = Parts::new(text, b'\n');
    while let Some(other) = lines.next() {
        if is_aged(other, line) {
            return true;
        }
    }
    false
}

/// A line's mark: two blanks where a line of the last answer says the same, else an asterisk and a blank.
fn mark_of(last: &[u8], line: &[u8]) -> &'static [u8]
    ensures { result.now ≡ spec.mark_of last.now line.now }
{
    if has_line(last, line) { b"  " } else { b"* " }
}

/// Whether a line is an empty one behind the last line end.
fn is_end(line: &[u8], lines: &Parts<'_>) -> bool
    ensures { result ≡ spec.is_end line.now lines.now }
{
    line.is_empty() && lines.is_done()
}

/// Adds a line behind its mark.
fn push_line(text: &mut Vec<u8>, last: &[u8], line: &[u8]) -> Result<(), NoMemory>
    ensures { OnOk result (text.new.items ≡ text.old.items ++ marked_line last.now line.now) }
{
    text.extend_from_slice(mark_of(last, line))?;
    text.extend_from_slice(line)?;
    text.push(b'\n')?;
    Ok(())
}

/// Adds the lines of an answer, each behind its mark. The text behind the last line end is a line where it isn't empty.
pub fn push_marked(text: &mut Vec<u8>, last: &[u8], answer: &[u8]) -> Result<(), NoMemory>
    ensures { OnOk result (text.new.items ≡ text.old.items ++ marked last.now answer.now) }
{
    let mut lines = Parts::new(answer, b'\n');
    while let Some(line) = lines.next() {
        if is_end(line, &lines) {
            return Ok(());
        }
        push_line(text, last, line)?;
    }
    Ok(())
}
