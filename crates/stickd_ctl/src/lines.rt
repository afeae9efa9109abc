//! The lines of an answer: a table's, and those of its entries.

ghost use Rattle.std.specs.Prelude.{◌≡◌, None, Some, MatchOption, option_map};
ghost use Rattle.std.specs.List.{list_all};
ghost use Rattle.base_lines.specs.Parts.{first_part, is_byte};
ghost use Rattle.stickd_ctl.specs.Lines as spec;
ghost use Rattle.stickd_ctl.specs.Lines.{behind, behind_prefix, header_of, header_text, value_in};

use base_lines::{Parts, before_parenthesis, read_number};

/// What stands before the first such byte, and behind it: all, and nothing, of a text that has none.
pub(crate) fn split_at_first(text: &[u8], separator: u8) -> (&[u8], &[u8])
    ensures first { result.0.now ≡ first_part (is_byte separator) text.now }
    ensures rest { result.1.now ≡ behind separator text.now }
{
    for (place, byte) in text.iter().enumerate() {
        if *byte == separator {
            return (&text[..place], &text[place + 1..]);
        }
    }
    (text, b"")
}

/// What stands behind a prefix, where a text begins with it.
pub(crate) fn after<'a>(text: &'a [u8], prefix: &[u8]) -> Option<&'a [u8]>
    ensures { MatchOption result (behind_prefix prefix.now text.now ≡ None) (λ rest. behind_prefix prefix.now text.now ≡ Some rest.now) }
{
    if text.starts_with(prefix) {
        Some(&text[prefix.len()..])
    } else {
        None
    }
}

/// The number behind a prefix.
pub(crate) fn number_after(text: &[u8], prefix: &[u8]) -> Option<u64>
    ensures { result ≡ spec.number_behind prefix.now text.now }
{
    read_number(after(text, prefix)?)
}

/// What a table's line says: its name, what its keys are, its whole size, and how many entries it has.
#[derive(Clone, Copy, Drop)]
pub struct Header<'a> {
    pub name: &'a [u8],
    pub kind: &'a [u8],
    pub size: u64,
    pub used: u64,
}

/// What a line of the form `# table: NAME, type: TYPE, size:N, used:N` says. None for any other.
pub fn read_header(line: &[u8]) -> Option<Header<'_>>
    ensures { option_map header_text result ≡ header_of line.now }
{
    let mut parts = Parts::new(after(line, b"# table: ")?, b',');
    let name = parts.next()?;
    let kind = after(parts.next()?, b" type: ")?;
    let size = number_after(parts.next()?, b" size:")?;
    let used = number_after(parts.next()?, b" used:")?;
    match parts.next() {
        Some(_more) => None,
        None => Some(Header {
            name,
            kind,
            size,
            used,
        }),
    }
}

/// The number behind a word's first `=`.
pub(crate) fn number_of_word(word: &[u8]) -> Option<u64>
    ensures { result ≡ spec.number_of_word word.now }
{
    let (_name, number) = split_at_first(word, b'=');
    read_number(number)
}

/// Whether a word is a number with its name, as `use=1`.
fn is_number(word: &[u8]) -> bool
    ensures { result ≡ spec.is_number word.now }
{
    number_of_word(word).is_some()
}

/// Whether all words that are left are numbers with their names.
fn are_numbers(words: &mut Parts<'_>) -> bool
    ensures { result ≡ list_all spec.is_number words.old }
{
    while let Some(word) = words.next() {
        if !is_number(word) {
            return false;
        }
    }
    true
}

/// Whether a line is an entry's: `0x..: key=KEY`, and numbers with their names.
pub fn is_row(line: &[u8]) -> bool
    ensures { result ≡ spec.is_row line.now }
{
    let mut words = Parts::new(line, b' ');
    let Some(address) = words.next() else {
        return false;
    };
    let Some(key) = words.next() else {
        return false;
    };
    address.starts_with(b"0x") && key.starts_with(b"key=") && are_numbers(&mut words)
}

/// The key of an entry's line.
pub fn key_of(line: &[u8]) -> &[u8]
    ensures { result.now ≡ spec.key_of line.now }
{
    let mut words = Parts::new(line, b' ');
    let Some(_address) = words.next() else {
        return b"";
    };
    let Some(key) = words.next() else {
        return b"";
    };
    let (_name, text) = split_at_first(key, b'=');
    text
}

/// The name of a word's number.
pub(crate) fn name_of(word: &[u8]) -> &[u8]
    ensures { result.now ≡ first_part (is_byte 61) word.now }
{
    let (name, _number) = split_at_first(word, b'=');
    name
}

/// The name of a word's number, without the period that a rate has in parentheses.
pub(crate) fn bare_name(word: &[u8]) -> &[u8]
    ensures { result.now ≡ spec.bare_name word.now }
{
    let (bare, _period) = before_parenthesis(name_of(word));
    bare
}

/// The number of this name among the words that are left.
fn value_among(words: &mut Parts<'_>, name: &[u8]) -> Option<u64>
    ensures { result ≡ value_in name.now words.old }
{
    while let Some(word) = words.next() {
        if bare_name(word) == name {
            return number_of_word(word);
        }
    }
    None
}

/// The number of this name in an entry's line, as of `use` or `conn_rate`.
pub fn value_of(line: &[u8], name: &[u8]) -> Option<u64>
    ensures { result ≡ spec.value_of name.now line.now }
{
    let mut words = Parts::new(line, b' ');
    let Some(_address) = words.next() else {
        return None;
    };
    let Some(_key) = words.next() else {
        return None;
    };
    value_among(&mut words, name)
}
