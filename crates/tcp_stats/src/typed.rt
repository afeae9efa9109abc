//! A value with all that HAProxy's typed and JSON outputs say of it; `info` and `stat` print their values by it.

ghost use Rattle.std.specs.Prelude.{◌≡◌, ◌<◌, ◌++◌, OnOk, decimal};
ghost use Rattle.std.specs.List.{flat_map};
ghost use Rattle.tcp_stats.specs.Typed as spec;
ghost use Rattle.tcp_stats.specs.Typed.{json_byte, json_string, json_value, number_type, seen_field, type_text};
ghost use Rattle.tcp_stats.specs.Values.{plain_text, seen_value};

use crate::json_part::JsonPart;
use crate::tags::{Nature, Tags};
use crate::value::{Value, push_plain};
use base_lines::push_decimal;
use base_sequence::NoMemory;

/// How an answer is laid out.
#[derive(Clone, Copy, Debug, PartialEq, Eq)]
pub enum Format {
    /// Names and values, or columns.
    Plain,
    /// A line for each value, with its place, its tags and its type (HAProxy Management Guide 2.6, section 9.2).
    Typed,
    /// The same as JSON.
    Json,
}

/// A value, and what is said of it.
#[derive(Clone, Copy)]
pub(crate) struct Field<'a> {
    /// Its place among HAProxy's, of which some aren't here.
    pub place: u64,
    pub name: &'static str,
    pub tags: Tags,
    pub value: Value<'a>,
}

/// Appends a byte of a text of JSON (RFC 8259, section 7).
fn push_json_byte(text: &mut Vec<u8>, byte: u8) -> Result<(), NoMemory>
    ensures { OnOk result (text.new.items ≡ text.old.items ++ json_byte byte) }
{
    if byte == b'"' || byte == b'\\' {
        text.push(b'\\')?;
        text.push(byte)?;
        return Ok(());
    }
    if byte < 32 {
        text.extend_from_slice(b"\\u00")?;
        text.push(b'0' + byte / 16)?;
        text.push(hex_digit(byte % 16))?;
        return Ok(());
    }
    text.push(byte)?;
    Ok(())
}

/// A hexadecimal digit.
fn hex_digit(number: u8) -> u8
    requires { number < 16 }
    ensures { result ≡ spec.hex_digit number }
{
    if number < 10 {
        b'0' + number
    } else {
        b'a' + (number - 10)
    }
}

/// Appends a text as one of JSON.
#[tactic(auto, unfolding(crate::specs::Typed::json_string))]
fn push_json_string(text: &mut Vec<u8>, value: &[u8]) -> Result<(), NoMemory>
    ensures { OnOk result (text.new.items ≡ text.old.items ++ json_string value.now) }
{
    text.push(b'"')?;
    push_json_bytes(text, value)?;
    text.push(b'"')?;
    Ok(())
}

/// Appends the bytes of a text of JSON.
fn push_json_bytes(text: &mut Vec<u8>, value: &[u8]) -> Result<(), NoMemory>
    ensures { OnOk result (text.new.items ≡ text.old.items ++ flat_map json_byte value.now) }
{
    for byte in value {
        push_json_byte(text, *byte)?;
    }
    Ok(())
}

/// The type of a number: what only goes up has 64 bits.
fn number_type(nature: Nature) -> &'static str
    ensures { result.now ≡ spec.number_type nature }
{
    match nature {
        Nature::Counter => "u64",
        _ => "u32",
    }
}

/// The type of a value that says this.
fn type_name(nature: Nature, value: Value<'_>) -> &'static str
    ensures { result.now ≡ type_text nature (seen_value value.entry) }
{
    match value {
        Value::Number(_) => number_type(nature),
        Value::Nothing | Value::Word(_) | Value::Name(_) | Value::Span(_) => "str",
    }
}

/// Appends a value as JSON: a number, or a text.
fn push_json_value(text: &mut Vec<u8>, value: Value<'_>) -> Result<(), NoMemory>
    ensures { OnOk result (text.new.items ≡ text.old.items ++ json_value (seen_value value.entry)) }
{
    match value {
        Value::Number(number) => push_decimal(text, number),
        Value::Word(word) => push_json_string(text, word.as_bytes()),
        Value::Name(name) => push_json_string(text, name.as_bytes()),
        // Digits and letters, of which JSON escapes none.
        Value::Nothing | Value::Span(_) => push_quoted(text, value),
    }
}

/// Appends a value between quotes.
fn push_quoted(text: &mut Vec<u8>, value: Value<'_>) -> Result<(), NoMemory>
    ensures { OnOk result (text.new.items ≡ text.old.items ++ spec.quoted (plain_text (seen_value value.entry))) }
{
    text.push(b'"')?;
    push_plain(text, value)?;
    text.push(b'"')?;
    Ok(())
}

impl Field<'_> {
    /// Appends its line, from its place on.
    #[tactic(auto, unfolding(crate::specs::Typed::typed_line))]
    pub(crate) fn push_typed(self, text: &mut Vec<u8>) -> Result<(), NoMemory>
        ensures { OnOk result (text.new.items ≡ text.old.items ++ spec.typed_line (seen_field self.entry)) }
    {
        self.push_label(text)?;
        text.extend_from_slice(type_name(self.tags.nature, self.value).as_bytes())?;
        text.push(b':')?;
        push_plain(text, self.value)?;
        text.push(b'\n')?;
        Ok(())
    }

    /// Appends its place, its name, the number of the process, and its tags.
    #[tactic(auto, unfolding(crate::specs::Typed::typed_label))]
    fn push_label(self, text: &mut Vec<u8>) -> Result<(), NoMemory>
        ensures { OnOk result (text.new.items ≡ text.old.items ++ spec.typed_label (seen_field self.entry)) }
    {
        push_decimal(text, self.place)?;
        text.push(b'.')?;
        text.extend_from_slice(self.name.as_bytes())?;
        text.extend_from_slice(b".1:")?;
        self.tags.push_letters(text)?;
        text.push(b':')?;
        Ok(())
    }

    /// Appends the rest of its object of JSON, from its place on.
    #[tactic(auto, unfolding(crate::specs::Typed::json_rest))]
    pub(crate) fn push_json(self, text: &mut Vec<u8>) -> Result<(), NoMemory>
        ensures { OnOk result (text.new.items ≡ text.old.items ++ spec.json_rest (seen_field self.entry)) }
    {
        self.push_json_label(text)?;
        text.extend_from_slice(JsonPart::Type.text().as_bytes())?;
        text.extend_from_slice(type_name(self.tags.nature, self.value).as_bytes())?;
        text.extend_from_slice(JsonPart::Value.text().as_bytes())?;
        push_json_value(text, self.value)?;
        text.extend_from_slice(b"}}")?;
        Ok(())
    }

    /// Appends its place as JSON, and what stands before its name.
    #[tactic(auto, unfolding(crate::specs::Typed::json_place))]
    fn push_json_place(self, text: &mut Vec<u8>) -> Result<(), NoMemory>
        ensures { OnOk result (text.new.items ≡ text.old.items ++ spec.json_place (seen_field self.entry)) }
    {
        text.extend_from_slice(JsonPart::Place.text().as_bytes())?;
        push_decimal(text, self.place)?;
        text.extend_from_slice(JsonPart::Name.text().as_bytes())?;
        Ok(())
    }

    /// Appends its place, its name, the number of the process, and its tags, as JSON.
    #[tactic(auto, unfolding(crate::specs::Typed::json_label))]
    fn push_json_label(self, text: &mut Vec<u8>) -> Result<(), NoMemory>
        ensures { OnOk result (text.new.items ≡ text.old.items ++ spec.json_label (seen_field self.entry)) }
    {
        self.push_json_place(text)?;
        text.extend_from_slice(self.name.as_bytes())?;
        text.extend_from_slice(JsonPart::Tags.text().as_bytes())?;
        self.tags.push_json(text)?;
        Ok(())
    }
}
