//! The rows of `show stat` in HAProxy's typed and JSON outputs; `stat` prints them.

ghost use Rattle.std.specs.Prelude.{◌≡◌, ◌++◌, OnOk};
ghost use Rattle.std.specs.List.{flat_map};
ghost use Rattle.tcp_stats.specs.StatFields as spec;
ghost use Rattle.tcp_stats.specs.StatFields.{is_nothing, json_field, json_row, stat_field, typed_field, typed_row};
ghost use Rattle.tcp_stats.specs.Typed.{seen_field};
ghost use Rattle.tcp_stats.specs.Values.{seen_value};

use crate::Snapshot;
use crate::column::{COLUMNS, Column};
use crate::json_part::JsonPart;
use crate::stat_row::StatRow;
use crate::value::Value;
use base_lines::push_decimal;
use base_sequence::NoMemory;

/// Whether there is no value.
fn is_missing(value: Value<'_>) -> bool
    ensures { result ≡ is_nothing (seen_value value.entry) }
{
    matches!(value, Value::Nothing)
}

/// Whether a row has a value in a column.
fn has_value(column: Column, row: StatRow, now: &Snapshot<'_>) -> bool
    ensures { result ≡ spec.has_value now.now row column }
{
    !(column.is_mark() || is_missing(column.value(row, now)))
}

/// Appends what begins a line of a row.
#[tactic(auto, unfolding(crate::specs::StatFields::typed_head))]
fn push_typed_head(text: &mut Vec<u8>, row: StatRow) -> Result<(), NoMemory>
    ensures { OnOk result (text.new.items ≡ text.old.items ++ spec.typed_head row) }
{
    text.push(row.letter())?;
    text.extend_from_slice(b".2.")?;
    push_decimal(text, row.service_number())?;
    text.push(b'.')?;
    Ok(())
}

/// Appends a row's line of a column, where it has a value there.
#[tactic(auto, unfolding(crate::specs::StatFields::typed_field))]
fn push_typed_field(
    text: &mut Vec<u8>,
    column: Column,
    row: StatRow,
    now: &Snapshot<'_>,
) -> Result<(), NoMemory>
    ensures { OnOk result (text.new.items ≡ text.old.items ++ typed_field now.now row column) }
{
    if !has_value(column, row, now) {
        return Ok(());
    }
    push_typed_head(text, row)?;
    column.field(row, now).push_typed(text)?;
    Ok(())
}

/// Appends a row's lines of these columns.
fn push_typed_fields(
    text: &mut Vec<u8>,
    columns: &[Column],
    row: StatRow,
    now: &Snapshot<'_>,
) -> Result<(), NoMemory>
    ensures { OnOk result (text.new.items ≡ text.old.items ++ flat_map (typed_field now.now row) columns.now) }
{
    for column in columns {
        push_typed_field(text, *column, row, now)?;
    }
    Ok(())
}

/// Appends the lines of a row.
pub(crate) fn push_typed_row(
    text: &mut Vec<u8>,
    row: StatRow,
    now: &Snapshot<'_>,
) -> Result<(), NoMemory>
    ensures { OnOk result (text.new.items ≡ text.old.items ++ typed_row now.now row) }
{
    push_typed_fields(text, &COLUMNS, row, now)
}

/// Appends what begins an object of a row.
#[tactic(auto, unfolding(crate::specs::StatFields::json_head))]
fn push_json_head(text: &mut Vec<u8>, column: Column, row: StatRow) -> Result<(), NoMemory>
    ensures { OnOk result (text.new.items ≡ text.old.items ++ spec.json_head row column) }
{
    text.extend_from_slice(if column.place() == 0 { b"" } else { b"," })?;
    text.extend_from_slice(JsonPart::Kind.text().as_bytes())?;
    text.extend_from_slice(row.word().as_bytes())?;
    text.extend_from_slice(JsonPart::Proxy.text().as_bytes())?;
    push_decimal(text, row.service_number())?;
    text.push(b',')?;
    Ok(())
}

/// Appends a row's object of a column, where it has a value there.
#[tactic(auto, unfolding(crate::specs::StatFields::json_field))]
fn push_json_field(
    text: &mut Vec<u8>,
    column: Column,
    row: StatRow,
    now: &Snapshot<'_>,
) -> Result<(), NoMemory>
    ensures { OnOk result (text.new.items ≡ text.old.items ++ json_field now.now row column) }
{
    if !has_value(column, row, now) {
        return Ok(());
    }
    push_json_head(text, column, row)?;
    column.field(row, now).push_json(text)?;
    Ok(())
}

/// Appends a row's objects of these columns.
fn push_json_fields(
    text: &mut Vec<u8>,
    columns: &[Column],
    row: StatRow,
    now: &Snapshot<'_>,
) -> Result<(), NoMemory>
    ensures { OnOk result (text.new.items ≡ text.old.items ++ flat_map (json_field now.now row) columns.now) }
{
    for column in columns {
        push_json_field(text, *column, row, now)?;
    }
    Ok(())
}

/// Appends a row as an array of objects.
pub(crate) fn push_json_row(
    text: &mut Vec<u8>,
    row: StatRow,
    now: &Snapshot<'_>,
) -> Result<(), NoMemory>
    ensures { OnOk result (text.new.items ≡ text.old.items ++ json_row now.now row) }
{
    text.push(b'[')?;
    push_json_fields(text, &COLUMNS, row, now)?;
    text.push(b']')?;
    Ok(())
}
