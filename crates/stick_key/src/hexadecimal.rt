//! Bytes written in hexadecimal digits, two a byte; `text` reads and prints binary keys by it.
ghost use Rattle.std.specs.Prelude.{◌≡◌, ◌<◌, ◌≤◌, ◌++◌, IfOk, IsOk, OnOk, nat_lt, take, true};
ghost use Rattle.std.specs.Char.{digit_value};
ghost use Rattle.std.specs.List.{list_all};
ghost use Rattle.stick_key.specs.Hexadecimal as spec;
ghost use Rattle.stick_key.specs.Hexadecimal.{fitted, hex_byte, hexadecimal, spelled};

use crate::text::hex_digit;
use crate::{NoMemory, StickKey};
use smallvec::SmallVec;
use std::alloc::Global;

fn is_digit(byte: u8) -> bool
    ensures { result ≡ nat_lt (digit_value byte) 16 }
{
    char::from(byte).is_digit(16)
}

fn are_digits(text: &[u8]) -> bool
    ensures { result ≡ list_all (λ byte. nat_lt (digit_value byte) 16) text.now }
{
    text.iter().all(|byte| is_digit(*byte))
}

/// Whether a text is of hexadecimal digits, in either case, an even number of them and at least two.
pub(crate) fn is_hexadecimal(text: &[u8]) -> bool
    ensures { result ≡ spec.is_hexadecimal text.now }
{
    !text.is_empty() && are_digits(text) && text.len() % 2 == 0
}

/// The number of a hexadecimal digit, in either case.
fn digit(byte: u8) -> u8
    requires { digit_value byte < 16 }
    ensures { result ≡ digit_value byte }
{
    match byte {
        b'0'..=b'9' => byte - b'0',
        b'A'..=b'F' => byte - b'A' + 10,
        _ => byte - b'a' + 10,
    }
}

/// The bytes that digits spell, and no more of them than are asked for. There is room for as many.
fn spelled_bytes(alloc: Global, digits: &[u8], count: u32) -> Result<SmallVec<u8, 16>, NoMemory>
    requires { spec.is_hexadecimal digits.now ≡ true }
    ensures bytes { IfOk result (λ bytes. bytes.items ≡ take count (spelled digits.now)) }
    ensures room { IfOk result (λ bytes. count ≤ bytes.capacity) }
    ensures inline { count ≤ 16 → IsOk result }
{
    let mut bytes = SmallVec::with_capacity(alloc, count as usize)?;
    for place in 0..(count as usize).min(digits.len() / 2) {
        bytes.push_reserved(16 * digit(digits[2 * place]) + digit(digits[2 * place + 1]));
    }
    Ok(bytes)
}

/// The key of so many bytes that begins with those that digits spell.
pub(crate) fn spelled_key(alloc: Global, digits: &[u8], count: u32) -> Result<StickKey, NoMemory>
    requires { spec.is_hexadecimal digits.now ≡ true }
    ensures key { IfOk result (λ key. key ≡ fitted count (spelled digits.now)) }
    ensures inline { count ≤ 16 → IsOk result }
{
    StickKey::fitted(spelled_bytes(alloc, digits, count)?, count)
}

/// Writes the two lower-case digits of a byte.
fn push_byte(text: &mut Vec<u8>, byte: u8) -> Result<(), NoMemory>
    ensures { OnOk result (text.new.items ≡ text.old.items ++ hex_byte byte) }
{
    text.extend_from_slice(&[hex_digit(byte / 16), hex_digit(byte % 16)])
}

/// The digits of bytes.
pub(crate) fn print_hexadecimal(alloc: Global, bytes: &[u8]) -> Result<Vec<u8>, NoMemory>
    ensures { IfOk result (λ text. text.items ≡ hexadecimal bytes.now) }
{
    let mut text = Vec::new(alloc);
    for byte in bytes {
        push_byte(&mut text, *byte)?;
    }
    Ok(text)
}
