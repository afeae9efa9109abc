//! The lines of one text that another lacks; whoever tells what changed asks for them both ways.

ghost use Rattle.std.specs.Prelude.{◌≡◌, ◌++◌, ◌∷◌, [], IfOk, if◌then◌else◌};
ghost use Rattle.std.specs.List.{list_any};
ghost use Rattle.base_lines.specs.Words.{words_left};
ghost use Rattle.rule_words.specs.Lines.{lines_of, words_of};
ghost use Rattle.rule_difference.specs.Difference as spec;

use base_lines::{Blanks, Words};
use base_sequence::{NoMemory, Sequence};
use rule_words::{Lines, before_comment};
use std::alloc::Global;

/// The words of a line.
fn words_in(line: &[u8]) -> Words<'_>
    ensures { words_left result ≡ words_of line.now }
{
    Words::new(before_comment(line), Blanks::SpacesAndTabs)
}

/// Whether the words that are left of two lines are the same.
fn same_words(mut words: Words<'_>, mut others: Words<'_>) -> bool
    ensures { result ≡ spec.same_words (words_left words.entry) (words_left others.entry) }
{
    while let Some(word) = words.next() {
        let Some(other) = others.next() else {
            return false;
        };
        if word != other {
            return false;
        }
    }
    others.next().is_none()
}

/// Whether two lines say the same.
fn says_same(line: &[u8], other: &[u8]) -> bool
    ensures { result ≡ spec.says_same line.now other.now }
{
    same_words(words_in(line), words_in(other))
}

/// Whether a line says nothing.
fn says_nothing(line: &[u8]) -> bool
    ensures { result ≡ spec.says_nothing (words_of line.now) }
{
    words_in(line).next().is_none()
}

/// Whether one of these lines says the same as another.
fn is_said(line: &[u8], mut others: Lines<'_>) -> bool
    ensures { result ≡ list_any (spec.says_same line.now) others.entry }
{
    while let Some(other) = others.next() {
        if says_same(line, other) {
            return true;
        }
    }
    false
}

/// Whether a line says something which no line of a text says.
fn is_beyond(line: &[u8], other: &[u8]) -> bool
    ensures { result ≡ spec.is_beyond (lines_of other.now) line.now }
{
    !says_nothing(line) && !is_said(line, Lines::new(other))
}

/// These numbers, and one more where that is so.
fn and_where(
    mut numbers: Sequence<usize>,
    is_so: bool,
    number: usize,
) -> Result<Sequence<usize>, NoMemory>
    ensures { IfOk result (λ all. all ≡ numbers ++ (if is_so then number ∷ [] else [])) }
{
    if is_so {
        numbers.push(number)?;
    }
    Ok(numbers)
}

/// The numbers of the lines of a text that say what no line of another text says, from 1 on. Blanks between words and comments don't
/// count.
pub fn lines_beyond(alloc: Global, text: &[u8], other: &[u8]) -> Result<Sequence<usize>, NoMemory>
    ensures { IfOk result (λ numbers. numbers ≡ spec.beyond text.now other.now) }
{
    let mut lines = Lines::new(text);
    let mut numbers = Sequence::new(alloc);
    let mut number = 0usize;
    while let Some(line) = lines.next() {
        number += 1;
        numbers = and_where(numbers, is_beyond(line, other), number)?;
    }
    Ok(numbers)
}

/// The line of a text that has this number, from 1 on, without its comment. Empty where there is none.
pub fn line_at(text: &[u8], number: usize) -> &[u8]
    ensures { result.now ≡ spec.line_at text.now number }
{
    let mut lines = Lines::new(text);
    for taken in 0..number.saturating_sub(1) {
        let _passed = lines.next();
    }
    match lines.next() {
        Some(line) => before_comment(line),
        None => b"",
    }
}
