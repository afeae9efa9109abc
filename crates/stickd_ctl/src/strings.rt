//! JSON's strings.

ghost use Rattle.std.specs.Prelude.{◌≡◌, ◌≤◌, ◌++◌, OnOk};
ghost use Rattle.std.specs.Str.{is_utf8};
ghost use Rattle.stickd_ctl.specs.Strings as spec;
ghost use Rattle.stickd_ctl.specs.Strings.{char_text, string_body, string_text};

use base_sequence::NoMemory;
use std::str;

/// Whether bytes are UTF-8.
fn is_text(bytes: &[u8]) -> bool
    ensures { result ≡ is_utf8 bytes.now }
{
    match str::from_utf8(bytes) {
        Ok(_) => true,
        Err(_) => false,
    }
}

/// Whether bytes begin with this many bytes that are UTF-8.
fn begins_with_text(bytes: &[u8], count: usize) -> bool
    ensures { result ≡ spec.begins_with_text bytes.now count }
{
    count <= bytes.len() && is_text(&bytes[..count])
}

/// How many bytes the character takes that bytes begin with. None begins where a byte isn't UTF-8: 0.
fn char_length(bytes: &[u8]) -> usize
    ensures { result ≡ spec.char_length bytes.now }
{
    if begins_with_text(bytes, 1) {
        return 1;
    }
    if begins_with_text(bytes, 2) {
        return 2;
    }
    if begins_with_text(bytes, 3) {
        return 3;
    }
    if begins_with_text(bytes, 4) {
        return 4;
    }
    0
}

/// The hexadecimal digit of a number below 16.
fn hex_digit(number: u8) -> u8
    requires { number ≤ 15 }
    ensures { result ≡ spec.hex_digit number }
{
    if number < 10 {
        b'0' + number
    } else {
        b'a' + (number - 10)
    }
}

/// Adds a byte of ASCII, with what escapes it.
fn push_ascii(text: &mut Vec<u8>, byte: u8) -> Result<(), NoMemory>
    ensures { OnOk result (text.new.items ≡ text.old.items ++ spec.ascii_text byte) }
{
    if byte == b'"' || byte == b'\\' {
        text.push(b'\\')?;
        text.push(byte)?;
        return Ok(());
    }
    if byte < 32 {
        text.extend_from_slice(b"\\u00")?;
        text.push(hex_digit(byte / 16))?;
        text.push(hex_digit(byte % 16))?;
        return Ok(());
    }
    text.push(byte)?;
    Ok(())
}

/// Adds what bytes begin with: a character of so many bytes, or the sign for a byte that isn't UTF-8.
fn push_char(text: &mut Vec<u8>, bytes: &[u8], count: usize) -> Result<(), NoMemory>
    ensures { OnOk result (text.new.items ≡ text.old.items ++ char_text bytes.now count) }
{
    if count == 0 || bytes.len() < count {
        text.extend_from_slice(b"\xef\xbf\xbd")?;
        return Ok(());
    }
    if count == 1 {
        return push_ascii(text, bytes[0]);
    }
    text.extend_from_slice(&bytes[..count])?;
    Ok(())
}

/// Adds what stands between the quotes of a text's string.
#[tactic(auto, using(crate::proofs::StringLemmas::body_skips, crate::proofs::StringLemmas::body_goes_on))]
fn push_body(text: &mut Vec<u8>, bytes: &[u8]) -> Result<(), NoMemory>
    ensures { OnOk result (text.new.items ≡ text.old.items ++ string_body 0 bytes.now) }
{
    let mut skipped = 0usize;
    for place in 0..bytes.len() {
        if skipped > 0 {
            skipped -= 1;
            continue;
        }
        let (_, rest) = bytes.split_at(place);
        let count = char_length(rest);
        push_char(text, rest, count)?;
        skipped = count.saturating_sub(1);
    }
    Ok(())
}

/// Adds a text as a JSON string. Each byte that isn't UTF-8 is U+FFFD there.
pub fn push_string(text: &mut Vec<u8>, bytes: &[u8]) -> Result<(), NoMemory>
    ensures { OnOk result (text.new.items ≡ text.old.items ++ string_text bytes.now) }
{
    text.push(b'"')?;
    push_body(text, bytes)?;
    text.push(b'"')?;
    Ok(())
}
