//! A buffer of bytes on the stack; `GatheringSink` gathers in it.

ghost use Rattle.std.specs.Prelude.{◌≡◌, ◌+◌, ◌<◌, ◌++◌, [], length, take, OnOk, OnErr};
ghost use Rattle.byte_ports.specs.declared.held_bytes.TheConstants.{ROOM};

use std::marker::Model;

/// How many bytes are gathered at most.
pub const ROOM: usize = 16_384;

/// There is no room for so many bytes more.
#[derive(Drop)]
pub(crate) struct NoRoom;

/// Bytes in their order, up to `ROOM` of them, which take no memory but the struct's own. Contracts see them.
#[derive(Drop)]
pub(crate) struct HeldBytes {
    bytes: [u8; ROOM],
    len: usize,
}

impl Model for HeldBytes {
    ghost use Rattle.std.specs.Prelude.{ℕ, ◌≤◌, List, take};
    ghost use Rattle.byte_ports.specs.declared.held_bytes.TheConstants.{ROOM};

    ghost Value = { List ℕ };

    ghost view = { λ held. take held.len held.bytes };

    ghost invariant = { λ held. held.len ≤ ROOM };
}

impl HeldBytes {
    /// No bytes.
    pub(crate) fn new() -> Self
        ensures { result ≡ [] }
    {
        HeldBytes {
            bytes: [0; ROOM],
            len: 0,
        }
    }

    /// The bytes.
    pub(crate) fn as_slice(&self) -> &[u8]
        ensures { result.now ≡ self.now }
    {
        &self.bytes[..self.len]
    }

    /// Adds bytes at the end: all of them, or none where there is no room for all.
    pub(crate) fn try_extend_from_slice(&mut self, bytes: &[u8]) -> Result<(), NoRoom>
        ensures added { OnOk result (self.new ≡ self.old ++ bytes.now) }
        ensures full { OnErr result (ROOM < length self.old + length bytes.now) }
        ensures unchanged { OnErr result (self.new ≡ self.old) }
    {
        if bytes.len() > ROOM - self.len {
            return Err(NoRoom);
        }
        let end = self.len + bytes.len();
        self.bytes[self.len..end].copy_from_slice(bytes);
        self.len = end;
        Ok(())
    }

    /// Keeps the first bytes, so many at most.
    pub(crate) fn truncate(&mut self, most: usize)
        ensures { self.new ≡ take most self.old }
    {
        self.len = self.len.min(most);
    }
}
