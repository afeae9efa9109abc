//! An answer as JSON.

ghost use Rattle.std.specs.Prelude.{◌≡◌, ◌++◌, IfOk, OnOk};
ghost use Rattle.std.specs.List.{flat_map};
ghost use Rattle.stickd_ctl.specs.Json as spec;
ghost use Rattle.stickd_ctl.specs.Json.{answer_json, array_json, header_json, line_json, number_json, row_json};

use crate::lines::{Header, is_row, key_of, name_of, number_of_word, read_header};
use crate::strings::push_string;
use base_lines::{Parts, push_decimal};
use base_sequence::NoMemory;

/// What was written last.
#[derive(Clone, Copy, PartialEq, Eq, Drop)]
enum Written {
    /// Nothing yet.
    Nothing,
    /// A table, whose entries may follow.
    Table,
    /// An entry of a table.
    Entry,
    /// A line that is neither.
    Other,
}

/// What parts a new object of the array from what was written last.
fn between(last: Written) -> &'static [u8]
    ensures { result.now ≡ spec.between last }
{
    match last {
        Written::Nothing => b"[\n",
        Written::Table | Written::Entry => b"]},\n",
        Written::Other => b",\n",
    }
}

/// What ends the array.
fn ending(last: Written) -> &'static [u8]
    ensures { result.now ≡ spec.ending last }
{
    match last {
        Written::Nothing => b"[]\n",
        Written::Table | Written::Entry => b"]}\n]\n",
        Written::Other => b"\n]\n",
    }
}

/// Adds a table's object, up to its entries.
fn push_header(text: &mut Vec<u8>, header: &Header<'_>) -> Result<(), NoMemory>
    ensures { OnOk result (text.new.items ≡ text.old.items ++ header_json header.now.name.now header.now.kind.now header.now.size header.now.used) }
{
    text.extend_from_slice(b"{\"name\": ")?;
    push_string(text, header.name)?;
    text.extend_from_slice(b", \"type\": ")?;
    push_string(text, header.kind)?;
    text.extend_from_slice(b", \"size\": ")?;
    push_decimal(text, header.size)?;
    text.extend_from_slice(b", \"used\": ")?;
    push_decimal(text, header.used)?;
    text.extend_from_slice(b", \"entries\": [")?;
    Ok(())
}

/// The number of a word, 0 where it has none.
fn number_or_zero(word: &[u8]) -> u64
    ensures { result ≡ spec.number_or_zero word.now }
{
    match number_of_word(word) {
        Some(number) => number,
        None => 0,
    }
}

/// Adds a number of an entry behind those before it, with its name.
fn push_number(text: &mut Vec<u8>, word: &[u8]) -> Result<(), NoMemory>
    ensures { OnOk result (text.new.items ≡ text.old.items ++ number_json word.now) }
{
    text.extend_from_slice(b", ")?;
    push_string(text, name_of(word))?;
    text.extend_from_slice(b": ")?;
    push_decimal(text, number_or_zero(word))?;
    Ok(())
}

/// Adds the numbers of an entry.
fn push_numbers(text: &mut Vec<u8>, words: &mut Parts<'_>) -> Result<(), NoMemory>
    ensures { OnOk result (text.new.items ≡ text.old.items ++ flat_map number_json words.old) }
{
    while let Some(word) = words.next() {
        push_number(text, word)?;
    }
    Ok(())
}

/// Adds the numbers that an entry's line has behind its address and its key.
fn push_numbers_of(text: &mut Vec<u8>, line: &[u8]) -> Result<(), NoMemory>
    ensures { OnOk result (text.new.items ≡ text.old.items ++ flat_map number_json (spec.numbers_of line.now)) }
{
    let mut words = Parts::new(line, b' ');
    let Some(_address) = words.next() else {
        return Ok(());
    };
    let Some(_key) = words.next() else {
        return Ok(());
    };
    push_numbers(text, &mut words)
}

/// Adds an entry's object.
fn push_entry(text: &mut Vec<u8>, line: &[u8]) -> Result<(), NoMemory>
    ensures { OnOk result (text.new.items ≡ text.old.items ++ row_json line.now) }
{
    text.extend_from_slice(b"{\"key\": ")?;
    push_string(text, key_of(line))?;
    push_numbers_of(text, line)?;
    text.extend_from_slice(b"}")?;
    Ok(())
}

/// Adds an object that has nothing but a text.
fn push_answer(text: &mut Vec<u8>, answer: &[u8]) -> Result<(), NoMemory>
    ensures { OnOk result (text.new.items ≡ text.old.items ++ answer_json answer.now) }
{
    text.extend_from_slice(b"{\"answer\": ")?;
    push_string(text, answer)?;
    text.extend_from_slice(b"}")?;
    Ok(())
}

/// Adds a line's object, with its text alone.
fn push_plain(text: &mut Vec<u8>, last: Written, line: &[u8]) -> Result<(), NoMemory>
    ensures { OnOk result (text.new.items ≡ text.old.items ++ spec.plain_json last line.now) }
{
    text.extend_from_slice(between(last))?;
    push_answer(text, line)?;
    Ok(())
}

/// Adds the object of an entry's line. It belongs to the table before it; where there is none, it is a line as any other.
fn push_member(text: &mut Vec<u8>, last: Written, line: &[u8]) -> Result<(), NoMemory>
    ensures { OnOk result (text.new.items ≡ text.old.items ++ spec.entry_json last line.now) }
{
    match last {
        Written::Table => {
            text.extend_from_slice(b"\n")?;
            push_entry(text, line)
        }
        Written::Entry => {
            text.extend_from_slice(b",\n")?;
            push_entry(text, line)
        }
        Written::Nothing | Written::Other => push_plain(text, last, line),
    }
}

/// What was written last behind an entry's line.
fn behind_member(last: Written) -> Written
    ensures { result ≡ spec.entry_written last }
{
    match last {
        Written::Table | Written::Entry => Written::Entry,
        Written::Nothing | Written::Other => Written::Other,
    }
}

/// Adds a line's object that isn't a table's, and answers what was written last then.
fn push_other(text: &mut Vec<u8>, last: Written, line: &[u8]) -> Result<Written, NoMemory>
    ensures text { OnOk result (text.new.items ≡ text.old.items ++ spec.other_json last line.now) }
    ensures last { IfOk result (λ written. written ≡ spec.other_written last line.now) }
{
    if is_row(line) {
        push_member(text, last, line)?;
        return Ok(behind_member(last));
    }
    push_plain(text, last, line)?;
    Ok(Written::Other)
}

/// Adds what stands for a line in the array, and answers what was written last then. An empty line parts answers, and has
/// no object.
fn push_line(text: &mut Vec<u8>, last: Written, line: &[u8]) -> Result<Written, NoMemory>
    ensures text { OnOk result (text.new.items ≡ text.old.items ++ line_json last line.now) }
    ensures last { IfOk result (λ written. written ≡ spec.written_by last line.now) }
{
    if line.is_empty() {
        return Ok(last);
    }
    let Some(header) = read_header(line) else {
        return push_other(text, last, line);
    };
    text.extend_from_slice(between(last))?;
    push_header(text, &header)?;
    Ok(Written::Table)
}

/// Adds the array of an answer's tables and other lines.
fn push_array(text: &mut Vec<u8>, answer: &[u8]) -> Result<(), NoMemory>
    ensures { OnOk result (text.new.items ≡ text.old.items ++ array_json answer.now) }
{
    let mut last = Written::Nothing;
    let mut lines = Parts::new(answer, b'\n');
    while let Some(line) = lines.next() {
        last = push_line(text, last, line)?;
    }
    text.extend_from_slice(ending(last))?;
    Ok(())
}

/// Whether a line is a table's.
fn is_table(line: &[u8]) -> bool
    ensures { result ≡ spec.is_table line.now }
{
    match read_header(line) {
        Some(_header) => true,
        None => false,
    }
}

/// Whether a line of an answer is a table's.
fn has_table(answer: &[u8]) -> bool
    ensures { result ≡ spec.has_table answer.now }
{
    let mut lines = Parts::new(answer, b'\n');
    while let Some(line) = lines.next() {
        if is_table(line) {
            return true;
        }
    }
    false
}

/// An answer without the line end and the empty line that end it.
fn without_end(answer: &[u8]) -> &[u8]
    ensures { result.now ≡ spec.without_end answer.now }
{
    if answer.ends_with(b"\n\n") {
        return &answer[..answer.len() - 2];
    }
    if answer.ends_with(b"\n") {
        return &answer[..answer.len() - 1];
    }
    answer
}

/// Adds an answer as JSON: an array with an object for each table, and for each line that is no table's; or where no line is
/// a table's, one object with the whole text.
pub fn push_json(text: &mut Vec<u8>, answer: &[u8]) -> Result<(), NoMemory>
    ensures { OnOk result (text.new.items ≡ text.old.items ++ spec.json answer.now) }
{
    if has_table(answer) {
        return push_array(text, answer);
    }
    push_answer(text, without_end(answer))?;
    text.extend_from_slice(b"\n")?;
    Ok(())
}
