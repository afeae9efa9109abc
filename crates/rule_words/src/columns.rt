//! What a table stores, read from the list behind `store`; `table` calls it.

ghost use Rattle.std.specs.Prelude.{◌≡◌};
ghost use Rattle.base_lines.specs.Parts.{parts, is_byte};
ghost use Rattle.rule_model.specs.Reading.{Leaves};
ghost use Rattle.rule_words.specs.Table.{column_of, with_item, with_items};

use crate::numbers::{read_bounded, read_time};
use base_lines::{Parts, before_parenthesis, inside};
use rule_model::{Fault, ReadError};
use stored_data::{Column, Datum, StoredSet, read_datum};

/// The most elements of an array.
const MOST_ELEMENTS: u32 = 100;

/// Reads the column of a datum by what follows its name: for a rate its period in parentheses, for an array how
/// many elements it has, and for all else nothing.
fn read_column(datum: Datum, text: &[u8]) -> Result<Column, Fault>
    ensures { result ≡ column_of datum text.now }
{
    if datum.is_rate() {
        let Some(period) = inside(text) else {
            return Err(Fault::UnknownType);
        };
        let period = read_time(period)?;
        return Ok(Column {
            datum,
            period,
            count: 0,
        });
    }
    if datum.is_array() {
        let Some(count) = inside(text) else {
            return Err(Fault::UnknownType);
        };
        let count = read_bounded(count, 1, MOST_ELEMENTS)?;
        return Ok(Column {
            datum,
            period: 0,
            count,
        });
    }
    if !text.is_empty() {
        return Err(Fault::UnknownType);
    }
    Ok(Column {
        datum,
        period: 0,
        count: 0,
    })
}

/// Adds the column of a datum's name, with a period in parentheses exactly where it is a rate, and a count exactly where
/// it is an array.
#[tactic(auto, unfolding(crate::specs::Table::with_item))]
fn add_item(columns: &mut StoredSet, text: &[u8]) -> Result<(), ReadError>
    ensures { Leaves result columns.new (with_item columns.old text.now) }
{
    let (name, rest) = before_parenthesis(text);
    let Some(datum) = read_datum(name) else {
        return Err(ReadError::Wrong(Fault::UnknownType));
    };
    if columns.holds(datum) || columns.excludes(datum) {
        return Err(ReadError::Wrong(Fault::UnknownType));
    }
    let column = read_column(datum, rest)?;
    columns.add(column)?;
    Ok(())
}

/// Adds the columns of a list with commas.
pub fn add_items(columns: &mut StoredSet, list: &[u8]) -> Result<(), ReadError>
    ensures { Leaves result columns.new (with_items columns.old (parts (is_byte 44) list.now)) }
{
    let mut items = Parts::new(list, b',');
    while let Some(item) = items.next() {
        add_item(columns, item)?;
    }
    Ok(())
}
