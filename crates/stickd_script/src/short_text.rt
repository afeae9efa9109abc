//! Short texts on the stack, made without memory; `server` answers lines by it.

ghost use Rattle.std.specs.Prelude.{◌≡◌, ◌+◌, ◌≤◌, ◌++◌, [], length, decimal};

use std::marker::Model;

/// A text of at most 32 bytes, kept on the stack. Contracts see its bytes.
#[derive(Drop)]
pub(crate) struct ShortText {
    bytes: [u8; 32],
    len: usize,
}

impl Model for ShortText {
    ghost use Rattle.std.specs.Prelude.{ℕ, ◌≤◌, List, take};

    ghost Value = { List ℕ };

    ghost view = { λ text. take text.len text.bytes };

    ghost invariant = { λ text. text.len ≤ 32 };
}

impl ShortText {
    /// The empty text.
    pub(crate) fn new() -> ShortText
        ensures { result ≡ [] }
    {
        ShortText {
            bytes: [0; 32],
            len: 0,
        }
    }

    /// The text of these bytes.
    pub(crate) fn of(bytes: &[u8]) -> ShortText
        requires { length bytes.now ≤ 32 }
        ensures { result ≡ bytes.now }
    {
        let mut text = ShortText::new();
        text.push(bytes);
        text
    }

    /// Adds bytes at the end.
    pub(crate) fn push(&mut self, bytes: &[u8])
        requires { length self.old + length bytes.now ≤ 32 }
        ensures { self.new ≡ self.old ++ bytes.now }
    {
        let end = self.len + bytes.len();
        self.bytes[self.len..end].copy_from_slice(bytes);
        self.len = end;
    }

    /// Adds the decimal text of a number, without leading zeros.
    pub(crate) fn push_decimal(&mut self, number: u32)
        requires { length self.old + length (decimal number) ≤ 32 }
        ensures { self.new ≡ self.old ++ decimal number }
    {
        if number < 10 {
            self.push(&[b'0' + number as u8]);
            return;
        }
        self.push_decimal(number / 10);
        self.push(&[b'0' + (number % 10) as u8]);
    }

    /// The bytes.
    pub(crate) fn as_slice(&self) -> &[u8]
        ensures { result.now ≡ self.now }
    {
        &self.bytes[..self.len]
    }
}
