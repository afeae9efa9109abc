//! How much of a terminal there is, and what of a text fits in it; `asking` and `showing` show in place by it.

ghost use Rattle.std.specs.Prelude.{◌≡◌, ◌-◌, ◌≤◌, ◌++◌, OnOk, max, length, take, option_map};
ghost use Rattle.std.specs.List.{flat_map};
ghost use Rattle.base_lines.specs.Parts.{is_line_end, parts};
ghost use Rattle.stickd_ctl.specs.Windows as spec;
ghost use Rattle.stickd_ctl.specs.Windows.{cut_line, fitting, more_line, size_of};

use base_lines::{Parts, push_decimal, read_number};
use base_sequence::NoMemory;

/// The lines of a terminal that doesn't say.
pub const LINES: usize = 24;

/// The columns of a terminal that doesn't say.
pub const COLUMNS: usize = 80;

/// A terminal's size.
#[derive(Clone, Copy, Debug, PartialEq, Eq)]
pub struct Window {
    pub lines: usize,
    pub columns: usize,
}

/// A number other than 0, or the usual size.
fn size_or(usual: usize, number: Option<u64>) -> usize
    ensures { result ≡ spec.size_or usual number }
{
    let Some(number) = number else {
        return usual;
    };
    match usize::try_from(number) {
        Ok(0) | Err(_) => usual,
        Ok(size) => size,
    }
}

/// A size by what a variable says: a number other than 0, or the usual size.
fn read_size(text: Option<&[u8]>, usual: usize) -> usize
    ensures { result ≡ size_of usual (option_map (λ text. text.now) text.entry) }
{
    match text {
        Some(text) => size_or(usual, read_number(text)),
        None => usual,
    }
}

impl Window {
    /// A terminal of this size, where the variables `LINES` and `COLUMNS` say these texts.
    pub fn of(lines: Option<&[u8]>, columns: Option<&[u8]>) -> Window
        ensures lines { result.lines ≡ size_of LINES (option_map (λ text. text.now) lines.entry) }
        ensures columns { result.columns ≡ size_of COLUMNS (option_map (λ text. text.now) columns.entry) }
    {
        Window {
            lines: read_size(lines, LINES),
            columns: read_size(columns, COLUMNS),
        }
    }

    /// How many entries fit below their headings, and above the line where the cursor waits: one at least.
    pub fn entries(self) -> usize
        ensures { result ≡ max (self.lines - 2) 1 }
    {
        self.lines.saturating_sub(2).max(1)
    }
}

/// How many lines a text has, of which the last has no line end.
fn count_lines(text: &[u8]) -> usize
    ensures { result ≡ length (parts is_line_end text.now) }
{
    let mut lines = Parts::new(text, b'\n');
    let mut count = 0;
    while lines.next().is_some() {
        count += 1;
    }
    count
}

/// Appends a line cut to so many bytes.
fn push_cut_line(text: &mut Vec<u8>, line: &[u8], columns: usize) -> Result<(), NoMemory>
    ensures { OnOk result (text.new.items ≡ text.old.items ++ cut_line columns line.now) }
{
    text.extend_from_slice(&line[..line.len().min(columns)])?;
    text.push(b'\n')?;
    Ok(())
}

/// Appends the first lines, at most so many, each cut to so many bytes.
fn push_cut(
    text: &mut Vec<u8>,
    mut lines: Parts<'_>,
    most: usize,
    columns: usize,
) -> Result<(), NoMemory>
    ensures { OnOk result (text.new.items ≡ text.old.items ++ flat_map (cut_line columns) (take most lines.entry)) }
{
    for _place in 0..most {
        let Some(line) = lines.next() else {
            return Ok(());
        };
        push_cut_line(text, line, columns)?;
    }
    Ok(())
}

/// Appends how many more lines there are.
fn push_more(text: &mut Vec<u8>, count: usize) -> Result<(), NoMemory>
    ensures { OnOk result (text.new.items ≡ text.old.items ++ more_line count) }
{
    text.extend_from_slice(b".. ")?;
    push_decimal(text, count as u64)?;
    text.extend_from_slice(b" more\n")?;
    Ok(())
}

/// Appends the lines of a text, of which the last has no line end, each cut to a window's columns: all where they fit above the line
/// where the cursor waits. Else those at its head, and how many more there are.
pub fn push_fitting(text: &mut Vec<u8>, shown: &[u8], window: Window) -> Result<(), NoMemory>
    ensures { OnOk result (text.new.items ≡ text.old.items ++ fitting window (parts is_line_end shown.now)) }
{
    let count = count_lines(shown);
    let lines = Parts::new(shown, b'\n');
    if count < window.lines {
        return push_cut(text, lines, count, window.columns);
    }
    let most = window.lines.saturating_sub(2);
    push_cut(text, lines, most, window.columns)?;
    push_more(text, count - most)?;
    Ok(())
}
