//! The last line of a saved file, which says how many entries it has, so that a file that is cut is told; `loading` asks it, and
//! `stickd_ctl` writes such lines.

ghost use Rattle.std.specs.Prelude.{◌≡◌, ◌≤◌, ◌<◌, ◌+◌, ◌^◌, if◌then◌else◌};
ghost use Rattle.table_cli.specs.SavedEnd as spec;
ghost use Rattle.table_cli.specs.SeenLines.{seen_ending};

use crate::load_fault::{LineFault, LoadFault};
use crate::saved_line::{Line, read_line};
use base_lines::{Parts, read_number, without_cr};
use std::marker::Model;

/// The first line of a saved file, by which one is known that ends with the number of its entries.
pub const FIRST_LINE: &[u8] =
    b"# saved by stickd, and whole if its last line says how many entries it has\n";

/// What stands before that number on the last line.
pub const END_MARK: &[u8] = b"# entries: ";

/// Whether a text begins as such a file, or is cut within its first line. Of any other file nobody can tell whether it is cut.
pub fn promises_end(text: &[u8]) -> bool
    ensures { result ≡ spec.promises_end text.now }
{
    !text.is_empty() && (text.starts_with(FIRST_LINE) || FIRST_LINE.starts_with(text))
}

/// How many entries a line makes: one, where it is neither empty nor a comment.
fn entries_on(line: &[u8]) -> u64
    ensures count { result ≡ (if spec.is_entry line.now then 1 else 0) }
    ensures few { result ≤ 1 }
{
    match read_line(line) {
        Line::Passed => 0,
        _ => 1,
    }
}

/// The number that a last line says.
fn number_on(line: &[u8]) -> Option<u64>
    ensures { result ≡ spec.number_on line.now }
{
    if line.starts_with(END_MARK) {
        read_number(&line[END_MARK.len()..])
    } else {
        None
    }
}

/// What is known of some lines: how many there are, how many make entries, which one was the last that isn't empty, and that line.
#[derive(Drop)]
struct Ending<'a> {
    lines: u64,
    entries: u64,
    last: u64,
    text: &'a [u8],
}

impl<'a> Model for Ending<'a> {
    ghost use Rattle.table_cli.specs.SavedEnd.{Ending as ItsEnding};

    ghost Value = { ItsEnding };

    ghost view = { λ ending. record { lines = ending.lines; entries = ending.entries; last = ending.last; text = ending.text.now } };
}

impl<'a> Ending<'a> {
    /// Of no line.
    fn new() -> Ending<'a>
        ensures { result ≡ spec.no_lines }
    {
        Ending {
            lines: 0,
            entries: 0,
            last: 0,
            text: b"",
        }
    }

    /// Of one line more.
    fn with(self, line: &'a [u8]) -> Ending<'a>
        requires lines { self.lines + 1 < 2 ^ 64 }
        requires entries { self.entries ≤ self.lines }
        ensures { result ≡ spec.with_line self.entry line.now }
    {
        let Ending {
            lines,
            entries,
            last,
            text,
        } = self;
        let lines = lines + 1;
        let entries = entries + entries_on(line);
        if line.is_empty() {
            return Ending {
                lines,
                entries,
                last,
                text,
            };
        }
        Ending {
            lines,
            entries,
            last: lines,
            text: line,
        }
    }
}

/// How a text ends.
fn ending_of(text: &[u8]) -> Ending<'_>
    ensures { result ≡ spec.ending_of text.now }
{
    let mut lines = Parts::new(text, b'\n');
    let mut ending = Ending::new();
    while let Some(line) = lines.next() {
        ending = ending.with(line);
    }
    ending
}

/// Says why a saved file isn't whole, where its first line says that its last one has the number of its entries.
pub fn check_whole(text: &[u8]) -> Result<(), LoadFault<'_>>
    ensures { seen_ending result ≡ spec.judged text.now }
{
    if !promises_end(text) {
        return Ok(());
    }
    let Ending {
        lines: _,
        entries,
        last,
        text,
    } = ending_of(text);
    let Some(said) = number_on(without_cr(text)) else {
        return Err(LoadFault {
            line: last,
            fault: LineFault::Cut,
        });
    };
    if said == entries {
        return Ok(());
    }
    let fault = LineFault::Miscounted {
        said,
        found: entries,
    };
    Err(LoadFault { line: last, fault })
}
