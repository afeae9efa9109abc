//! The bytes of a header that is written, on the stack; `line_written` and `binary_written` make them, and `Greeting` holds them.

ghost use Rattle.std.specs.Prelude.{◌≡◌, ◌+◌, ◌≤◌, ◌++◌, [], length, decimal};

use std::marker::Model;

/// How many bytes a header has that is written, at most: as many as one of version 1 may have.
pub(crate) const ROOM: usize = 107;

/// Bytes in their order, up to `ROOM` of them. Contracts see them.
#[derive(Drop)]
pub(crate) struct HeaderBytes {
    bytes: [u8; ROOM],
    len: usize,
}

impl Model for HeaderBytes {
    ghost use Rattle.std.specs.Prelude.{ℕ, ◌≤◌, List, take};
    ghost use Rattle.proxy_header.specs.declared.header_bytes.TheConstants.{ROOM};

    ghost Value = { List ℕ };

    ghost view = { λ header. take header.len header.bytes };

    ghost invariant = { λ header. header.len ≤ ROOM };
}

impl HeaderBytes {
    /// No bytes.
    pub(crate) fn new() -> HeaderBytes
        ensures { result ≡ [] }
    {
        HeaderBytes {
            bytes: [0; ROOM],
            len: 0,
        }
    }

    /// Adds bytes at the end.
    pub(crate) fn push(&mut self, bytes: &[u8])
        requires { length self.old + length bytes.now ≤ 107 }
        ensures { self.new ≡ self.old ++ bytes.now }
    {
        let end = self.len + bytes.len();
        self.bytes[self.len..end].copy_from_slice(bytes);
        self.len = end;
    }

    /// Adds the decimal text of a number, without leading zeros.
    fn push_decimal(&mut self, number: u16)
        requires { length self.old + length (decimal number) ≤ 107 }
        ensures { self.new ≡ self.old ++ decimal number }
    {
        if number < 10 {
            self.push(&[b'0' + number as u8]);
            return;
        }
        self.push_decimal(number / 10);
        self.push(&[b'0' + (number % 10) as u8]);
    }

    /// Adds the decimal text of a byte.
    pub(crate) fn push_byte(&mut self, number: u8)
        requires { length self.old + 3 ≤ 107 }
        ensures text { self.new ≡ self.old ++ decimal number }
        ensures room { length self.new ≤ length self.old + 3 }
    {
        self.push_decimal(u16::from(number));
    }

    /// Adds the decimal text of a port.
    pub(crate) fn push_port(&mut self, port: u16)
        requires { length self.old + 5 ≤ 107 }
        ensures text { self.new ≡ self.old ++ decimal port }
        ensures room { length self.new ≤ length self.old + 5 }
    {
        self.push_decimal(port);
    }

    /// The bytes.
    pub(crate) fn as_slice(&self) -> &[u8]
        ensures { result.now ≡ self.now }
    {
        &self.bytes[..self.len]
    }

    /// How many bytes there are.
    pub(crate) fn len(&self) -> usize
        ensures len { result ≡ length self.now }
        ensures room { length self.now ≤ 107 }
    {
        self.len
    }
}
