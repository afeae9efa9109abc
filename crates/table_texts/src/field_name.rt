//! The names of fields behind `data.`; `request` reads them.

ghost use Rattle.std.specs.Prelude.{◌≡◌, option_map, option_and_then};
ghost use Rattle.stored_data.specs.Names.{datum_of};
ghost use Rattle.table_texts.specs.FieldNames as spec;
ghost use Rattle.table_texts.specs.FieldNames.{element_at, field_of, index_of, plain_field};

use base_lines::{Parts, read_number};
use stored_data::{Field, read_datum};

/// What stands before the bracket at a text's end.
fn before_bracket(text: &[u8]) -> Option<&[u8]>
    ensures { option_map (λ rest. rest.now) result ≡ spec.before_bracket text.now }
{
    text.strip_suffix(b"]")
}

/// Reads the index of `I]`.
fn read_index(text: &[u8]) -> Option<u32>
    ensures { result ≡ index_of text.now }
{
    u32::try_from(read_number(before_bracket(text)?)?).ok()
}

/// The field of a datum's name, where it is no array.
fn named_field(name: &[u8]) -> Option<Field>
    ensures { result ≡ option_and_then plain_field (datum_of name.now) }
{
    let datum = read_datum(name)?;
    if !datum.is_array() {
        return Some(Field::plain(datum));
    }
    None
}

/// The element of the array of this name.
fn named_element(name: &[u8], index: u32) -> Option<Field>
    ensures { result ≡ option_and_then (element_at index) (datum_of name.now) }
{
    let datum = read_datum(name)?;
    if datum.is_array() {
        Some(Field { datum, index })
    } else {
        None
    }
}

/// The field of a name: that of a datum that is no array, or `NAME[I]` of an array. Case matters.
pub fn read_field(text: &[u8]) -> Option<Field>
    ensures { result ≡ field_of text.now }
{
    let mut parts = Parts::new(text, b'[');
    let Some(name) = parts.next() else {
        return None;
    };
    let Some(rest) = parts.next() else {
        return named_field(name);
    };
    if parts.next().is_some() {
        return None;
    }
    named_element(name, read_index(rest)?)
}
