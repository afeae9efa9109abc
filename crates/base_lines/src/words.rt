//! A cursor over the words of a line; readers of configurations, commands and scripts take words from it.

ghost use Rattle.std.specs.Prelude.{◌≡◌, ◌≤◌, ◌<◌, [], ◌∷◌, take, drop, length, MatchOption, slice_index, false};
ghost use Rattle.std.specs.List.{filter};
ghost use Rattle.base_lines.specs.Parts.{first_part, other_parts};
ghost use Rattle.base_lines.specs.Words as spec;
ghost use Rattle.base_lines.specs.Words.{is_blank, is_some_text, words, words_left, after_word, from_blank};

use std::marker::Model;

/// Which bytes part words.
#[derive(Clone, Copy)]
pub enum Blanks {
    /// The space alone.
    Spaces,
    /// The space and the tab.
    SpacesAndTabs,
}

impl Blanks {
    /// Whether the byte parts words.
    fn contains(self, byte: u8) -> bool
        ensures { result ≡ is_blank self byte }
    {
        match self {
            Blanks::Spaces => byte == b' ',
            Blanks::SpacesAndTabs => byte == b' ' || byte == b'\t',
        }
    }
}

/// A cursor over the words of a line: the longest runs of bytes that are no blanks. Contracts see the text behind the
/// last word taken, and which bytes part words.
#[derive(Drop)]
pub struct Words<'a> {
    rest: &'a [u8],
    blanks: Blanks,
}

impl<'a> Model for Words<'a> {
    ghost use Rattle.base_lines.specs.Words.{LineRest};

    ghost Value = { LineRest };

    ghost view = { λ cursor. record { blanks = cursor.blanks; text = cursor.rest.now } };
}

impl<'a> Words<'a> {
    /// All words of a line.
    pub fn new(line: &'a [u8], blanks: Blanks) -> Self
        ensures { result ≡ record { blanks = blanks; text = line.now } }
    {
        Words { rest: line, blanks }
    }

    /// Takes the next word. None where only blanks are left, and then they are taken.
    pub fn next(&mut self) -> Option<&'a [u8]>
        ensures word { MatchOption result (words_left self.old ≡ []) (λ word. words_left self.old ≡ word.now ∷ words_left self.new) }
        ensures rest { self.new ≡ after_word self.old }
    {
        let from = after_blanks(self.rest, self.blanks);
        if from.is_empty() {
            self.rest = from;
            return None;
        }
        let (word, rest) = from.split_at(word_end(from, self.blanks));
        self.rest = rest;
        Some(word)
    }

    /// What stands behind the last word taken, with the blanks in front.
    pub fn rest(&self) -> &'a [u8]
        ensures { result.now ≡ self.now.text }
    {
        self.rest
    }
}

/// From the first byte on that is no blank.
fn after_blanks(bytes: &[u8], blanks: Blanks) -> &[u8]
    ensures words { words (is_blank blanks) result.now ≡ words (is_blank blanks) bytes.now }
    ensures from { result.now ≡ spec.after_blanks (is_blank blanks) bytes.now }
    ensures start { 0 < length result.now → is_blank blanks (slice_index result.now 0) ≡ false }
{
    for (place, byte) in bytes.iter().enumerate() {
        if !blanks.contains(*byte) {
            return &bytes[place..];
        }
    }
    &bytes[bytes.len()..]
}

/// Where the first word ends.
fn word_end(bytes: &[u8], blanks: Blanks) -> usize
    ensures within { result ≤ length bytes.now }
    ensures first { take result bytes.now ≡ first_part (is_blank blanks) bytes.now }
    ensures rest { drop result bytes.now ≡ from_blank (is_blank blanks) bytes.now }
    ensures others { words (is_blank blanks) (drop result bytes.now) ≡ filter is_some_text (other_parts (is_blank blanks) bytes.now) }
{
    for (place, byte) in bytes.iter().enumerate() {
        if blanks.contains(*byte) {
            return place;
        }
    }
    bytes.len()
}
