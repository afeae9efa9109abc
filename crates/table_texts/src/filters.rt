//! Several filters after `show table T` and `clear table T`; `tcp_watch` takes them on the stats socket, and no other socket does.

ghost use Rattle.std.specs.Prelude.{◌≡◌, option_map};
ghost use Rattle.base_lines.specs.Words.{words_left};
ghost use Rattle.base_lines.specs.declared.words.Blanks.TheVariants.{SpacesAndTabs};
ghost use Rattle.table_texts.specs.Filters as spec;
ghost use Rattle.table_texts.specs.Filters.{filtered_of, of_table, seen_filtered};
ghost use Rattle.table_texts.specs.Seen.{words_of};

use crate::form::{datum_name, read_op};
use base_lines::{Blanks, Words};

/// The entries of a table that match all of two to four filters, in the words that were given.
#[derive(Clone, Copy)]
pub struct Filtered<'a> {
    pub table: &'a [u8],
    /// The filters, each `data.X OP V`.
    pub filters: &'a [u8],
}

/// As many filters as a command has at most, and as HAProxy 2.6 takes.
const MOST_FILTERS: u32 = 4;

/// Whether the first two words of three are those of a filter.
fn is_filter(word: &[u8], op: &[u8]) -> bool
    ensures { result ≡ spec.is_filter word.now op.now }
{
    datum_name(word).is_some() && read_op(op).is_some()
}

/// Whether words are filters, at most so many.
fn are_filters(text: &[u8], most: u32) -> bool
    ensures { result ≡ spec.are_filters most (words_of text.now) }
{
    let mut words = Words::new(text, Blanks::SpacesAndTabs);
    let mut left = most;
    while let Some(word) = words.next() {
        let Some(op) = words.next() else {
            return false;
        };
        let Some(_value) = words.next() else {
            return false;
        };
        if left == 0 {
            return false;
        }
        if !is_filter(word, op) {
            return false;
        }
        left -= 1;
    }
    true
}

/// Whether there are more words than one filter has.
fn are_more_than_one(mut words: Words<'_>) -> bool
    ensures { result ≡ spec.are_more_than_one (words_left words.entry) }
{
    let Some(_word) = words.next() else {
        return false;
    };
    let Some(_op) = words.next() else {
        return false;
    };
    let Some(_value) = words.next() else {
        return false;
    };
    words.next().is_some()
}

/// The entries that words mean: those of a table, and two to four filters.
fn read_of_table(mut rest: Words<'_>) -> Option<Filtered<'_>>
    requires { rest.blanks ≡ SpacesAndTabs }
    ensures { option_map seen_filtered result ≡ of_table (words_left rest.entry) }
{
    let Some(table) = rest.next() else {
        return None;
    };
    let filters = rest.rest();
    if are_more_than_one(rest) && are_filters(filters, MOST_FILTERS) {
        return Some(Filtered { table, filters });
    }
    None
}

/// The entries that a command means by two to four filters, where it begins with this word and `table`.
pub fn read_filtered<'a>(verb: &[u8], command: &'a [u8]) -> Option<Filtered<'a>>
    ensures { option_map seen_filtered result ≡ filtered_of verb.now (words_of command.now) }
{
    let mut rest = Words::new(command, Blanks::SpacesAndTabs);
    let Some(first) = rest.next() else {
        return None;
    };
    let Some(noun) = rest.next() else {
        return None;
    };
    if first == verb && noun == b"table".as_slice() {
        return read_of_table(rest);
    }
    None
}
