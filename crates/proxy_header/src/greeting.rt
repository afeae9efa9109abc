//! What a server is told before anything else, and how much of it is left; `write` makes it.

ghost use Rattle.std.specs.Prelude.{◌≡◌, ◌≤◌, drop, length};

use crate::header_bytes::HeaderBytes;
use std::marker::Model;

/// A header that is being written, of at most 107 bytes, which takes no memory but its own. Contracts see the bytes that are left.
#[derive(Drop)]
pub struct Greeting {
    header: HeaderBytes,
    written: usize,
}

impl Model for Greeting {
    ghost use Rattle.std.specs.Prelude.{ℕ, ◌≤◌, List, drop, length};

    ghost Value = { List ℕ };

    ghost view = { λ greeting. drop greeting.written greeting.header };

    ghost invariant = { λ greeting. (greeting.written ≤ length greeting.header) × (length greeting.header ≤ 107) };
}

impl Greeting {
    /// A header of which nothing is written yet.
    pub(crate) fn new(header: HeaderBytes) -> Greeting
        ensures { result ≡ header }
    {
        let _length = header.len();
        Greeting { header, written: 0 }
    }

    /// The bytes that are left to be written; none once all are.
    pub fn left(&self) -> &[u8]
        ensures bytes { result.now ≡ self.now }
        ensures room { length self.now ≤ 107 }
    {
        &self.header.as_slice()[self.written..]
    }

    /// Counts so many more bytes as written.
    pub fn count(&mut self, written: usize)
        requires { written ≤ length self.old }
        ensures { self.new ≡ drop written self.old }
    {
        self.written += written;
    }
}
