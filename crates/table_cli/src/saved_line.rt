//! A line of a saved file, read from its bytes; `loading` calls `read_line`.

ghost use Rattle.std.specs.Prelude.{◌≡◌};
ghost use Rattle.base_lines.specs.Words.{words_left};
ghost use Rattle.table_cli.specs.SavedLines as spec;
ghost use Rattle.table_cli.specs.SavedLines.{by_verb, entry_of, line_of};
ghost use Rattle.table_cli.specs.SeenLines.{seen};
ghost use Rattle.std.specs.List.{list_any};
ghost use Rattle.base_lines.specs.Parts.{is_semicolon};

use crate::load_fault::LineFault;
use base_lines::{Blanks, Words, read_number, without_cr};
use table_texts::{Form, Request, read_form};

/// What a line says.
#[derive(Drop)]
pub enum Line<'a> {
    /// Nothing: it is empty, or a comment.
    Passed,
    /// An entry of a table has so many ms left, and this command makes it.
    Makes {
        left: u64,
        table: &'a [u8],
        command: &'a [u8],
    },
    Wrong(LineFault<'a>),
}

/// Whether a word begins a comment.
fn is_comment(word: &[u8]) -> bool
    ensures { result ≡ spec.is_comment word.now }
{
    match word.split_first() {
        Some((first, _rest)) => *first == b'#',
        None => false,
    }
}

/// Whether a command has a semicolon, behind which another one begins.
fn has_semicolon(command: &[u8]) -> bool
    ensures { result ≡ list_any is_semicolon command.now }
{
    command.iter().any(|byte| *byte == b';')
}

/// Reads the command that makes an entry.
fn read_entry(left: u64, command: &[u8]) -> Line<'_>
    ensures { seen result ≡ entry_of left command.now }
{
    if has_semicolon(command) {
        return Line::Wrong(LineFault::NoEntry(command));
    }
    match read_form(command) {
        Form::Of(table, Request::Set(_key, _pairs)) => Line::Makes {
            left,
            table,
            command,
        },
        _ => Line::Wrong(LineFault::NoEntry(command)),
    }
}

/// Reads `cmd`, and the command behind it.
fn read_verb(left: u64, mut words: Words<'_>) -> Line<'_>
    ensures { seen result ≡ by_verb left (words_left words.entry) words.entry }
{
    let Some(verb) = words.next() else {
        return Line::Wrong(LineFault::NoCommand(b""));
    };
    if verb == b"cmd".as_slice() {
        return read_entry(left, words.rest());
    }
    Line::Wrong(LineFault::NoCommand(verb))
}

/// Reads a line: `LEFT cmd set table T key K [data.X V]..`, a comment, or an empty one.
pub fn read_line(line: &[u8]) -> Line<'_>
    ensures { seen result ≡ line_of line.now }
{
    let mut words = Words::new(without_cr(line), Blanks::SpacesAndTabs);
    let Some(word) = words.next() else {
        return Line::Passed;
    };
    if is_comment(word) {
        return Line::Passed;
    }
    match read_number(word) {
        Some(left) => read_verb(left, words),
        None => Line::Wrong(LineFault::NoTime(word)),
    }
}
