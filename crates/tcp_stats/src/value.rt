//! A value of a row, and how it is printed; the rows of `show info`, `show stat` and the metrics have one each.

ghost use Rattle.std.specs.Prelude.{◌≡◌, ◌+◌, ◌/◌, ◌%◌, ◌<◌, ◌∷◌, ◌++◌, [], OnOk, decimal};
ghost use Rattle.tcp_stats.specs.Values.{two_digits, seen_value, span_text, value_text, plain_text};

use crate::csv::push_csv;
use base_lines::push_decimal;
use base_sequence::NoMemory;

/// What stands behind a name.
#[derive(Clone, Copy)]
pub(crate) enum Value<'a> {
    /// There is no value.
    Nothing,
    Number(u64),
    Word(&'a str),
    /// A name, between quotes where it has to be among values with commas between.
    Name(&'a str),
    /// So many seconds, as days, hours, minutes and seconds.
    Span(u64),
}

/// Appends a number below 100 in two digits.
fn push_two_digits(text: &mut Vec<u8>, number: u8) -> Result<(), NoMemory>
    requires { number < 100 }
    ensures { OnOk result (text.new.items ≡ text.old.items ++ two_digits number) }
{
    text.push(b'0' + number / 10)?;
    text.push(b'0' + number % 10)?;
    Ok(())
}

/// Appends a span of seconds, as `1d 2h03m04s`.
fn push_span(text: &mut Vec<u8>, seconds: u64) -> Result<(), NoMemory>
    ensures { OnOk result (text.new.items ≡ text.old.items ++ span_text seconds) }
{
    push_decimal(text, seconds / 86_400)?;
    text.extend_from_slice(b"d ")?;
    push_decimal(text, seconds / 3_600 % 24)?;
    text.push(b'h')?;
    push_two_digits(text, (seconds / 60 % 60) as u8)?;
    text.push(b'm')?;
    push_two_digits(text, (seconds % 60) as u8)?;
    text.push(b's')?;
    Ok(())
}

/// Appends a value as one among others with commas between.
pub(crate) fn push_value(text: &mut Vec<u8>, value: Value<'_>) -> Result<(), NoMemory>
    ensures { OnOk result (text.new.items ≡ text.old.items ++ value_text (seen_value value.entry)) }
{
    match value {
        Value::Nothing => Ok(()),
        Value::Number(number) => push_decimal(text, number),
        Value::Word(word) => {
            text.extend_from_slice(word.as_bytes())?;
            Ok(())
        }
        Value::Name(name) => push_csv(text, name.as_bytes()),
        Value::Span(seconds) => push_span(text, seconds),
    }
}

/// Appends a value as it is.
pub(crate) fn push_plain(text: &mut Vec<u8>, value: Value<'_>) -> Result<(), NoMemory>
    ensures { OnOk result (text.new.items ≡ text.old.items ++ plain_text (seen_value value.entry)) }
{
    match value {
        Value::Name(name) => {
            text.extend_from_slice(name.as_bytes())?;
            Ok(())
        }
        other => push_value(text, other),
    }
}
