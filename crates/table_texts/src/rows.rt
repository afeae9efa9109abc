//! The rows of a listing, each a line; `answer_text` calls it.

ghost use Rattle.std.specs.Prelude.{◌≡◌, ◌++◌, All, OnOk};
ghost use Rattle.std.specs.List.{flat_map};
ghost use Rattle.stick_key.specs.Dotted.{dotted};
ghost use Rattle.stick_key.specs.KeyText.{text as key_text};
ghost use Rattle.stick_model.specs.Reading.{rows_in_place};
ghost use Rattle.table_texts.specs.Labels.{IsLabel};
ghost use Rattle.table_texts.specs.Shown.{shown_row};
ghost use Rattle.table_texts.specs.Text.{row_text};

use crate::labels::{Label, labels_of, push_cells};
use base_lines::push_decimal;
use base_sequence::NoMemory;
use std::alloc::Global;
use stick_key::{KeyType, StickKey, write_key};
use stick_model::{Cell, InPlace, PackedRow, Row};
use stored_data::{Column, StoredSet};

/// Appends the text of an IPv4 address.
fn push_dotted(text: &mut Vec<u8>, address: [u8; 4]) -> Result<(), NoMemory>
    ensures { OnOk result (text.new.items ≡ text.old.items ++ dotted address) }
{
    let [first, second, third, fourth] = address;
    push_decimal(text, u64::from(first))?;
    text.push(b'.')?;
    push_decimal(text, u64::from(second))?;
    text.push(b'.')?;
    push_decimal(text, u64::from(third))?;
    text.push(b'.')?;
    push_decimal(text, u64::from(fourth))?;
    Ok(())
}

/// Appends the text of a key. That of an IPv4 address takes no memory of its own.
fn push_key(
    alloc: Global,
    text: &mut Vec<u8>,
    kind: KeyType,
    key: &StickKey,
) -> Result<(), NoMemory>
    ensures { OnOk result (text.new.items ≡ text.old.items ++ key_text kind key.now) }
{
    if let (KeyType::Ip, Some(address)) = (kind, key.bytes().as_array()) {
        return push_dotted(text, *address);
    }
    let printed = write_key(alloc, kind, key)?;
    text.extend_from_slice(&printed)?;
    Ok(())
}

/// What a row shows.
#[derive(Clone, Copy)]
struct Shown<'a> {
    key: &'a StickKey,
    refs: u32,
    left: u64,
    cells: &'a [Cell],
}

impl<'a> From<&'a Row> for Shown<'a> {
    ghost from_gives = { λ row shown. shown_row shown ≡ row.now };

    fn from(row: &'a Row) -> Shown<'a> {
        Shown {
            key: &row.key,
            refs: row.refs,
            left: row.left,
            cells: row.cells.as_slice(),
        }
    }
}

/// Appends a row: its key, its references, what is left of its life in ms, and its fields.
fn push_row(
    alloc: Global,
    text: &mut Vec<u8>,
    kind: KeyType,
    columns: &[Column],
    labels: &[Label],
    row: Shown<'_>,
) -> Result<(), NoMemory>
    requires { All (IsLabel columns.now) labels.now }
    ensures { OnOk result (text.new.items ≡ text.old.items ++ row_text kind columns.now (shown_row row.entry)) }
{
    text.extend_from_slice(b"0x0: key=")?;
    push_key(alloc, text, kind, row.key)?;
    text.extend_from_slice(b" use=")?;
    push_decimal(text, u64::from(row.refs))?;
    text.extend_from_slice(b" exp=")?;
    push_decimal(text, row.left)?;
    push_cells(text, columns, labels, row.cells)?;
    text.extend_from_slice(b"\n")?;
    Ok(())
}

/// Appends rows as they are shown.
fn push_shown(
    alloc: Global,
    text: &mut Vec<u8>,
    kind: KeyType,
    columns: &[Column],
    labels: &[Label],
    rows: &[Row],
) -> Result<(), NoMemory>
    requires { All (IsLabel columns.now) labels.now }
    ensures { OnOk result (text.new.items ≡ text.old.items ++ flat_map (row_text kind columns.now) rows.now) }
{
    for row in rows {
        push_row(alloc, text, kind, columns, labels, Shown::from(row))?;
    }
    Ok(())
}

/// Appends rows that lie as tables gathered them. The memory of a row's fields is that of the next one's, too.
fn push_packed(
    alloc: Global,
    text: &mut Vec<u8>,
    kind: KeyType,
    columns: &[Column],
    labels: &[Label],
    rows: &[PackedRow<'_>],
) -> Result<(), NoMemory>
    requires { All (IsLabel columns.now) labels.now }
    ensures { OnOk result (text.new.items ≡ text.old.items ++ flat_map (row_text kind columns.now) rows.now) }
{
    let mut cells = Vec::new(alloc);
    for row in rows {
        row.show_cells(&mut cells)?;
        let shown = Shown {
            key: row.key(),
            refs: row.refs(),
            left: row.left(),
            cells: cells.as_slice(),
        };
        push_row(alloc, text, kind, columns, labels, shown)?;
    }
    Ok(())
}

/// Appends rows of a table with these columns, each a line.
pub fn push_rows(
    alloc: Global,
    text: &mut Vec<u8>,
    kind: KeyType,
    columns: &StoredSet,
    rows: &InPlace<'_>,
) -> Result<(), NoMemory>
    ensures { OnOk result (text.new.items ≡ text.old.items ++ flat_map (row_text kind columns.now) (rows_in_place rows.now)) }
{
    let labels = labels_of(alloc, columns.columns(), columns.fields())?;
    match rows {
        InPlace::Shown(rows) => push_shown(alloc, text, kind, columns.columns(), &labels, rows),
        InPlace::Packed(rows) => push_packed(alloc, text, kind, columns.columns(), &labels, rows),
    }
}
