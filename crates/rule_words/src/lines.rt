//! A cursor over the lines of a configuration, and their words; `rule_config` and `stickd_input` read lines by it.

ghost use Rattle.std.specs.Prelude.{◌≡◌, ◌≤◌, ◌+◌, length, ◌∷◌, [], MatchOption};
ghost use Rattle.std.specs.List.{list_any};
ghost use Rattle.std.specs.Str.{is_utf8};
ghost use Rattle.base_lines.specs.Parts.{first_part, is_byte};
ghost use Rattle.base_lines.specs.Words.{words_left};
ghost use Rattle.rule_words.specs.Lines as spec;
ghost use Rattle.rule_words.specs.Lines.{lines_of, first_word, other_words};

use base_lines::{Parts, Words, without_cr};
use std::marker::Model;

/// A cursor over the lines of a text. A line ends with LF, and a carriage return before it goes with it; the last line
/// may lack its end. Contracts see the lines that are left.
#[derive(Drop)]
pub struct Lines<'a> {
    parts: Parts<'a>,
}

impl<'a> Model for Lines<'a> {
    ghost use Rattle.std.specs.Prelude.{ℕ, List};
    ghost use Rattle.rule_words.specs.Lines.{without_crs};

    ghost Value = { List (List ℕ) };

    ghost view = { λ lines. without_crs lines.parts };
}

impl<'a> Lines<'a> {
    /// All lines of a text.
    pub fn new(text: &'a [u8]) -> Self
        ensures lines { result ≡ lines_of text.now }
        ensures few { length result ≤ length text.now + 1 }
    {
        Lines {
            parts: Parts::new(text, b'\n'),
        }
    }

    /// Takes the next line. None behind the last one.
    pub fn next(&mut self) -> Option<&'a [u8]>
        ensures { MatchOption result ((self.old ≡ []) × (self.new ≡ [])) (λ line. self.old ≡ line.now ∷ self.new) }
    {
        let part = self.parts.next()?;
        if self.parts.is_done() {
            Some(part)
        } else {
            Some(without_cr(part))
        }
    }
}

/// Whether a line is UTF-8.
pub fn is_text(line: &[u8]) -> bool
    ensures { result ≡ is_utf8 line.now }
{
    match str::from_utf8(line) {
        Ok(_) => true,
        Err(_) => false,
    }
}

/// What stands before the first such byte: all of a text that has none.
pub(crate) fn before(text: &[u8], separator: u8) -> &[u8]
    ensures first { result.now ≡ first_part (is_byte separator) text.now }
    ensures within { length result.now ≤ length text.now }
{
    let mut parts = Parts::new(text, separator);
    match parts.next() {
        Some(part) => part,
        None => text,
    }
}

/// What stands before a line's comment.
pub fn before_comment(line: &[u8]) -> &[u8]
    ensures { result.now ≡ spec.before_comment line.now }
{
    before(line, b'#')
}

fn has_quoting(text: &[u8]) -> bool
    ensures { result ≡ list_any spec.is_quoting text.now }
{
    text.iter()
        .any(|byte| matches!(*byte, b'"' | b'\'' | b'\\' | b'$'))
}

/// Whether a line has no quote, apostrophe, backslash or `$` outside its comment.
pub fn is_plain(line: &[u8]) -> bool
    ensures { result ≡ spec.is_plain line.now }
{
    !has_quoting(before_comment(line))
}

/// Takes the next word; where none is left, an empty one.
pub fn next_or_empty<'a>(words: &mut Words<'a>) -> &'a [u8]
    ensures word { result.now ≡ first_word (words_left words.old) }
    ensures rest { words_left words.new ≡ other_words (words_left words.old) }
{
    match words.next() {
        Some(word) => word,
        None => b"",
    }
}
