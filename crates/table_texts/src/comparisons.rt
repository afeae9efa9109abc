//! What several filters compare, read of their words; `table_cli` lists the entries of a table by it.

ghost use Rattle.std.specs.Prelude.{◌≡◌, [], unwrap_or};
ghost use Rattle.base_lines.specs.Number.{number_of};
ghost use Rattle.table_texts.specs.Comparisons as spec;
ghost use Rattle.table_texts.specs.Comparisons.{ReadsComparisons};
ghost use Rattle.table_texts.specs.FieldNames.{field_of};
ghost use Rattle.table_texts.specs.Form.{datum_name as specified_name, op_of};
ghost use Rattle.table_texts.specs.Seen.{words_of};

use crate::Message;
use crate::field_name::read_field;
use crate::form::{datum_name, read_op};
use base_lines::{Blanks, Words, read_number};
use base_sequence::Sequence;
use std::alloc::Global;
use stick_model::Op;
use stored_data::Field;

/// What a filter compares: the value of a field with a bound.
#[derive(Clone, Copy, Debug, PartialEq, Eq)]
pub struct Comparison {
    pub field: Field,
    pub op: Op,
    pub bound: u64,
}

/// Reads what a filter of three words compares.
fn read_comparison(word: &[u8], op: &[u8], value: &[u8]) -> Result<Comparison, Message>
    ensures { result ≡ spec.comparison_of (op_of op.now) (field_of (unwrap_or (specified_name word.now) [])) (number_of value.now) }
{
    let Some(op) = read_op(op) else {
        return Err(Message::UnknownCommand);
    };
    let name = match datum_name(word) {
        Some(name) => name,
        None => b"".as_slice(),
    };
    let Some(field) = read_field(name) else {
        return Err(Message::NotStored);
    };
    let Some(bound) = read_number(value) else {
        return Err(Message::InvalidValue);
    };
    Ok(Comparison { field, op, bound })
}

/// Reads what filters compare, up to the first that is wrong.
pub fn read_comparisons(alloc: Global, text: &[u8]) -> Result<Sequence<Comparison>, Message>
    ensures { ReadsComparisons (words_of text.now) result }
{
    let mut words = Words::new(text, Blanks::SpacesAndTabs);
    let mut all = Sequence::new(alloc);
    while let Some(word) = words.next() {
        let Some(op) = words.next() else {
            return Ok(all);
        };
        let Some(value) = words.next() else {
            return Ok(all);
        };
        let one = read_comparison(word, op, value)?;
        match all.push(one) {
            Ok(()) => {}
            Err(_) => return Err(Message::OutOfMemory),
        }
    }
    Ok(all)
}
