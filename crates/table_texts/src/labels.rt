//! The fields of a listing's rows, each ` NAME=VALUE`; `rows` calls it.

ghost use Rattle.std.specs.Prelude.{◌≡◌, [], ◌∷◌, ◌++◌, All, OnOk, IfOk, IfSome, decimal};
ghost use Rattle.std.specs.List.{flat_map};
ghost use Rattle.table_texts.specs.Text.{period_of as specified_period, field_text, cell_text};
ghost use Rattle.table_texts.specs.Labels.{IsLabel, label_text};

use base_lines::push_decimal;
use base_sequence::NoMemory;
use std::alloc::Global;
use stick_model::Cell;
use stored_data::{Column, Datum, Field, name};

/// What stands before a field's value, ` NAME=`, made once for all rows of a listing.
#[derive(Drop)]
pub(crate) struct Label {
    field: Field,
    text: Vec<u8>,
}

/// The period of a datum's column in ms, 0 where it has none.
fn period_of(columns: &[Column], datum: Datum) -> u32
    ensures { result ≡ specified_period columns.now datum }
{
    for column in columns {
        if column.datum.place() == datum.place() {
            return column.period;
        }
    }
    0
}

/// Appends a number in brackets of some kind.
fn push_enclosed(text: &mut Vec<u8>, opening: u8, number: u32, closing: u8) -> Result<(), NoMemory>
    ensures { OnOk result (text.new.items ≡ text.old.items ++ opening ∷ decimal number ++ closing ∷ []) }
{
    text.push(opening)?;
    push_decimal(text, u64::from(number))?;
    text.push(closing)?;
    Ok(())
}

/// Appends a field's name: that of a rate with its period, that of an element with its index.
fn push_field(text: &mut Vec<u8>, columns: &[Column], field: Field) -> Result<(), NoMemory>
    ensures { OnOk result (text.new.items ≡ text.old.items ++ field_text columns.now field) }
{
    text.extend_from_slice(name(field.datum).as_bytes())?;
    if field.datum.is_rate() {
        return push_enclosed(text, b'(', period_of(columns, field.datum), b')');
    }
    if field.datum.is_array() {
        return push_enclosed(text, b'[', field.index, b']');
    }
    Ok(())
}

/// Appends what stands before a field's value.
fn push_name(text: &mut Vec<u8>, columns: &[Column], field: Field) -> Result<(), NoMemory>
    ensures { OnOk result (text.new.items ≡ text.old.items ++ label_text columns.now field) }
{
    text.extend_from_slice(b" ")?;
    push_field(text, columns, field)?;
    text.extend_from_slice(b"=")?;
    Ok(())
}

/// The label of a field.
fn label_of(alloc: Global, columns: &[Column], field: Field) -> Result<Label, NoMemory>
    ensures { IfOk result (IsLabel columns.now) }
{
    let mut text = Vec::new(alloc);
    push_name(&mut text, columns, field)?;
    Ok(Label { field, text })
}

/// The labels of fields, in their order.
pub(crate) fn labels_of(
    alloc: Global,
    columns: &[Column],
    fields: &[Field],
) -> Result<Vec<Label>, NoMemory>
    ensures { IfOk result (λ labels. All (IsLabel columns.now) labels.items) }
{
    let mut labels = Vec::with_capacity(alloc, fields.len())?;
    for field in fields {
        labels.push(label_of(alloc, columns, *field)?)?;
    }
    Ok(labels)
}

/// Appends a field and its value, by the label at its place if that is the field's.
fn push_cell(
    text: &mut Vec<u8>,
    columns: &[Column],
    label: Option<&Label>,
    cell: &Cell,
) -> Result<(), NoMemory>
    requires { IfSome label (λ label. IsLabel columns.now label.now) }
    ensures { OnOk result (text.new.items ≡ text.old.items ++ cell_text columns.now cell.now) }
{
    match label {
        Some(label) if label.field == cell.field => text.extend_from_slice(&label.text)?,
        _ => push_name(text, columns, cell.field)?,
    }
    push_decimal(text, cell.value)?;
    Ok(())
}

/// Appends a row's fields and their values. Labels in the order of the fields make it quick.
pub(crate) fn push_cells(
    text: &mut Vec<u8>,
    columns: &[Column],
    labels: &[Label],
    cells: &[Cell],
) -> Result<(), NoMemory>
    requires { All (IsLabel columns.now) labels.now }
    ensures { OnOk result (text.new.items ≡ text.old.items ++ flat_map (cell_text columns.now) cells.now) }
{
    for place in 0..cells.len() {
        push_cell(text, columns, labels.get(place), &cells[place])?;
    }
    Ok(())
}
