//! A listing as comma-separated values (RFC 4180); `exported` calls `push_csv`.

ghost use Rattle.std.specs.Prelude.{◌≡◌, ◌++◌, OnOk};
ghost use Rattle.std.specs.List.{flat_map};
ghost use Rattle.stickd_ctl.specs.Csv as spec;
ghost use Rattle.stickd_ctl.specs.Csv.{csv, doubled_byte, field_text, heading_of, heading_text, name_field, row_csv, rows_of, value_field};
ghost use Rattle.stickd_ctl.specs.Json.{numbers_of};

use crate::lines::{is_row, key_of, name_of, split_at_first};
use base_lines::Parts;
use base_sequence::NoMemory;

/// The heading of a table without entries.
const NO_ENTRIES: &[u8] = b"key,use,exp\n";

/// Whether a field with this byte stands between quotes.
fn wants_quotes(byte: u8) -> bool
    ensures { result ≡ spec.wants_quotes byte }
{
    byte == b',' || byte == b'"' || byte == b'\r' || byte == b'\n'
}

/// Whether a field stands between quotes.
fn is_quoted(bytes: &[u8]) -> bool
    ensures { result ≡ spec.is_quoted bytes.now }
{
    bytes.iter().any(|byte| wants_quotes(*byte))
}

/// Appends a byte, and a quote twice.
fn push_doubled(text: &mut Vec<u8>, byte: u8) -> Result<(), NoMemory>
    ensures { OnOk result (text.new.items ≡ text.old.items ++ doubled_byte byte) }
{
    if byte == b'"' {
        text.push(b'"')?;
    }
    text.push(byte)?;
    Ok(())
}

/// Appends bytes, and each quote twice.
fn push_body(text: &mut Vec<u8>, bytes: &[u8]) -> Result<(), NoMemory>
    ensures { OnOk result (text.new.items ≡ text.old.items ++ flat_map doubled_byte bytes.now) }
{
    for byte in bytes {
        push_doubled(text, *byte)?;
    }
    Ok(())
}

/// Appends a text as a field: between quotes where it has a comma, a quote or the end of a line, with each of its quotes twice.
fn push_field(text: &mut Vec<u8>, bytes: &[u8]) -> Result<(), NoMemory>
    ensures { OnOk result (text.new.items ≡ text.old.items ++ field_text bytes.now) }
{
    if !is_quoted(bytes) {
        text.extend_from_slice(bytes)?;
        return Ok(());
    }
    text.push(b'"')?;
    push_body(text, bytes)?;
    text.push(b'"')?;
    Ok(())
}

/// Appends the name of a number, behind a comma.
fn push_name(text: &mut Vec<u8>, word: &[u8]) -> Result<(), NoMemory>
    ensures { OnOk result (text.new.items ≡ text.old.items ++ name_field word.now) }
{
    text.push(b',')?;
    push_field(text, name_of(word))?;
    Ok(())
}

/// Appends a number, behind a comma.
fn push_value(text: &mut Vec<u8>, word: &[u8]) -> Result<(), NoMemory>
    ensures { OnOk result (text.new.items ≡ text.old.items ++ value_field word.now) }
{
    let (_name, value) = split_at_first(word, b'=');
    text.push(b',')?;
    push_field(text, value)?;
    Ok(())
}

/// Appends the names of the numbers that are left.
fn push_names(text: &mut Vec<u8>, words: &mut Parts<'_>) -> Result<(), NoMemory>
    ensures { OnOk result (text.new.items ≡ text.old.items ++ flat_map name_field words.old) }
{
    while let Some(word) = words.next() {
        push_name(text, word)?;
    }
    Ok(())
}

/// Appends the numbers that are left.
fn push_values(text: &mut Vec<u8>, words: &mut Parts<'_>) -> Result<(), NoMemory>
    ensures { OnOk result (text.new.items ≡ text.old.items ++ flat_map value_field words.old) }
{
    while let Some(word) = words.next() {
        push_value(text, word)?;
    }
    Ok(())
}

/// Appends the names of the numbers that an entry's line has.
fn push_names_of(text: &mut Vec<u8>, line: &[u8]) -> Result<(), NoMemory>
    ensures { OnOk result (text.new.items ≡ text.old.items ++ flat_map name_field (numbers_of line.now)) }
{
    let mut words = Parts::new(line, b' ');
    let Some(_address) = words.next() else {
        return Ok(());
    };
    let Some(_key) = words.next() else {
        return Ok(());
    };
    push_names(text, &mut words)
}

/// Appends the numbers that an entry's line has.
fn push_values_of(text: &mut Vec<u8>, line: &[u8]) -> Result<(), NoMemory>
    ensures { OnOk result (text.new.items ≡ text.old.items ++ flat_map value_field (numbers_of line.now)) }
{
    let mut words = Parts::new(line, b' ');
    let Some(_address) = words.next() else {
        return Ok(());
    };
    let Some(_key) = words.next() else {
        return Ok(());
    };
    push_values(text, &mut words)
}

/// Appends the heading of a table, by the line of an entry.
fn push_heading(text: &mut Vec<u8>, line: &[u8]) -> Result<(), NoMemory>
    ensures { OnOk result (text.new.items ≡ text.old.items ++ heading_text line.now) }
{
    text.extend_from_slice(b"key")?;
    push_names_of(text, line)?;
    text.push(b'\n')?;
    Ok(())
}

/// Appends an entry.
fn push_row(text: &mut Vec<u8>, line: &[u8]) -> Result<(), NoMemory>
    ensures { OnOk result (text.new.items ≡ text.old.items ++ row_csv line.now) }
{
    push_field(text, key_of(line))?;
    push_values_of(text, line)?;
    text.push(b'\n')?;
    Ok(())
}

/// Appends the heading of a listing, by its first entry.
fn push_heading_of(text: &mut Vec<u8>, listing: &[u8]) -> Result<(), NoMemory>
    ensures { OnOk result (text.new.items ≡ text.old.items ++ heading_of (rows_of listing.now)) }
{
    let mut lines = Parts::new(listing, b'\n');
    while let Some(line) = lines.next() {
        if is_row(line) {
            return push_heading(text, line);
        }
    }
    text.extend_from_slice(NO_ENTRIES)?;
    Ok(())
}

/// Appends the entries of a listing.
fn push_rows(text: &mut Vec<u8>, listing: &[u8]) -> Result<(), NoMemory>
    ensures { OnOk result (text.new.items ≡ text.old.items ++ flat_map row_csv (rows_of listing.now)) }
{
    let mut lines = Parts::new(listing, b'\n');
    while let Some(line) = lines.next() {
        if !is_row(line) {
            continue;
        }
        push_row(text, line)?;
    }
    Ok(())
}

/// Appends the entries of a table's listing as comma-separated values (RFC 4180), but that LF alone ends each line. The heading has
/// `key`, and the names of numbers as the first entry has them; each entry has its key as the listing writes it, and its numbers.
pub fn push_csv(text: &mut Vec<u8>, listing: &[u8]) -> Result<(), NoMemory>
    ensures { OnOk result (text.new.items ≡ text.old.items ++ csv listing.now) }
{
    push_heading_of(text, listing)?;
    push_rows(text, listing)?;
    Ok(())
}
