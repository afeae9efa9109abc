//! What lines of a configuration say that never comes to anything; `stickd_input` prints it.

ghost use Rattle.std.specs.Prelude.{◌≡◌, ◌++◌, ◌||◌, IfOk, drop, false};
ghost use Rattle.base_lines.specs.Words.{words_left};
ghost use Rattle.rule_words.specs.Lines.{first_word, lines_of, words_of};
ghost use Rattle.rule_warnings.specs.FileLines as spec;

use crate::no_effect::and_one;
use crate::warning::Warning;
use base_lines::{Blanks, Words};
use base_sequence::{NoMemory, Sequence};
use rule_words::{Lines, before_comment, next_or_empty};
use std::alloc::Global;

/// The words of a line.
fn words_in(line: &[u8]) -> Words<'_>
    ensures { words_left result ≡ words_of line.now }
{
    Words::new(before_comment(line), Blanks::SpacesAndTabs)
}

/// The first word of a line.
fn keyword(line: &[u8]) -> &[u8]
    ensures { result.now ≡ spec.keyword line.now }
{
    let mut words = words_in(line);
    next_or_empty(&mut words)
}

fn is_front(word: &[u8]) -> bool
    ensures { result ≡ spec.is_front word.now }
{
    word == b"frontend".as_slice() || word == b"listen".as_slice()
}

/// Whether a word begins a section whose lines are read.
fn is_read(word: &[u8]) -> bool
    ensures { result ≡ spec.is_read word.now }
{
    is_front(word) || word == b"backend".as_slice()
}

fn begins_section(word: &[u8]) -> bool
    ensures { result ≡ spec.begins_section word.now }
{
    is_read(word) || word == b"global".as_slice() || word == b"defaults".as_slice()
}

/// Whether a word begins a line that has a meaning in a section that is served alone.
fn is_front_line(word: &[u8]) -> bool
    ensures { result ≡ spec.is_front_line word.now }
{
    word == b"bind".as_slice() || word == b"tcp-request".as_slice()
}

/// Whether there is such a line up to the next section.
fn has_front_line(mut lines: Lines<'_>) -> bool
    ensures { result ≡ spec.has_front_line lines.entry }
{
    while let Some(line) = lines.next() {
        let word = keyword(line);
        if begins_section(word) {
            return false;
        }
        if is_front_line(word) {
            return true;
        }
    }
    false
}

/// Whether a line that begins with this word is a rule or a table in `defaults`.
fn is_lost_in_defaults(heading: &[u8], word: &[u8]) -> bool
    ensures { result ≡ spec.is_lost_in_defaults heading.now word.now }
{
    heading == b"defaults".as_slice()
        && (word == b"tcp-request".as_slice() || word == b"stick-table".as_slice())
}

fn begins_condition(word: &[u8]) -> bool
    ensures { result ≡ spec.begins_condition word.now }
{
    word == b"if".as_slice() || word == b"unless".as_slice()
}

/// A word without the `!` in front, where it has one.
fn bare(word: &[u8]) -> &[u8]
    ensures { result.now ≡ spec.bare word.now }
{
    match word.split_first() {
        Some((first, rest)) if *first == b'!' => rest,
        _ => word,
    }
}

/// Whether the words that are left name an ACL outside braces.
fn names(name: &[u8], mut words: Words<'_>) -> bool
    ensures { result ≡ spec.names name.now false (words_left words.entry) }
{
    let mut braced = false;
    while let Some(word) = words.next() {
        if braced {
            braced = word != b"}".as_slice();
            continue;
        }
        let word = bare(word);
        if word == name {
            return true;
        }
        braced = word == b"{".as_slice();
    }
    false
}

/// Whether the words behind `if` or `unless` name an ACL.
fn condition_names(name: &[u8], mut words: Words<'_>) -> bool
    ensures { result ≡ spec.names name.now false (spec.condition_in (words_left words.entry)) }
{
    while let Some(word) = words.next() {
        if begins_condition(word) {
            return names(name, words);
        }
    }
    false
}

/// Whether a line is a rule whose condition names an ACL.
fn uses(name: &[u8], line: &[u8]) -> bool
    ensures { result ≡ spec.uses name.now line.now }
{
    let mut words = words_in(line);
    if next_or_empty(&mut words) != b"tcp-request".as_slice() {
        return false;
    }
    condition_names(name, words)
}

/// Whether a line up to the next section does so.
fn is_used(name: &[u8], mut lines: Lines<'_>) -> bool
    ensures { result ≡ spec.is_used name.now lines.entry }
{
    while let Some(line) = lines.next() {
        if begins_section(keyword(line)) {
            return false;
        }
        if uses(name, line) {
            return true;
        }
    }
    false
}

/// Whether a line declares an ACL which nothing behind it uses.
fn is_unused_acl(heading: &[u8], line: &[u8], behind: Lines<'_>) -> bool
    ensures { result ≡ spec.is_unused_acl heading.now line.now behind.entry }
{
    if !is_read(heading) {
        return false;
    }
    let mut words = words_in(line);
    if next_or_empty(&mut words) != b"acl".as_slice() {
        return false;
    }
    !is_used(next_or_empty(&mut words), behind)
}

/// The warning of a line of this number, if there is one. `heading` began its section, and `served` says whether a section that
/// is served began above.
fn line_warning(
    heading: &[u8],
    served: bool,
    number: u64,
    line: &[u8],
    behind: Lines<'_>,
) -> Option<Warning>
    ensures { result ≡ spec.line_warning heading.now served number line.now behind.entry }
{
    let word = keyword(line);
    if is_front(word) {
        if served && has_front_line(behind) {
            return Some(Warning::Unserved { line: number });
        }
        return None;
    }
    if is_lost_in_defaults(heading, word) {
        return Some(Warning::InDefaults { line: number });
    }
    if is_unused_acl(heading, line, behind) {
        return Some(Warning::UnusedAcl { line: number });
    }
    None
}

/// The lines behind so many.
fn lines_behind(text: &[u8], count: usize) -> Lines<'_>
    ensures { result ≡ drop count (lines_of text.now) }
{
    let mut lines = Lines::new(text);
    for taken in 0..count {
        let _passed = lines.next();
    }
    lines
}

/// The word that began the section of the next line.
fn heading_behind<'a>(heading: &'a [u8], word: &'a [u8]) -> &'a [u8]
    ensures { result.now ≡ spec.heading_behind heading.now word.now }
{
    if begins_section(word) { word } else { heading }
}

/// Whether a section that is served began above the next line.
fn served_behind(served: bool, word: &[u8]) -> bool
    ensures { result ≡ (served || spec.is_front word.now) }
{
    served || is_front(word)
}

/// What is to be said of the lines of a configuration that has no fault, in their order: sections that listen and aren't served,
/// rules and tables in `defaults`, and ACLs that nothing uses.
#[tactic(auto, unfolding(crate::specs::FileLines::file_warnings))]
pub fn file_warnings(alloc: Global, text: &[u8]) -> Result<Sequence<Warning>, NoMemory>
    ensures { IfOk result (λ warnings. warnings ≡ spec.file_warnings text.now) }
{
    let mut lines = Lines::new(text);
    let mut all = Sequence::new(alloc);
    let mut heading: &[u8] = b"";
    let mut served = false;
    let mut others = 0usize;
    while let Some(line) = lines.next() {
        others += 1;
        let behind = lines_behind(text, others);
        let warning = line_warning(heading, served, others as u64, line, behind);
        all = and_one(all, warning)?;
        let word = keyword(line);
        heading = heading_behind(heading, word);
        served = served_behind(served, word);
    }
    Ok(all)
}
