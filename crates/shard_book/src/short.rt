//! A key of at most sixteen bytes, in seventeen; `brief` keeps it, since a `StickKey` takes thirty-two.

ghost use Rattle.std.specs.Prelude.{◌≡◌, ◌≤◌, ◌↔◌, IsTrue, IfSome, IsSome, length};

use std::alloc::Global;
use std::marker::Model;
use stick_key::{KeyType, Sample, StickKey, convert};

/// A key of at most sixteen bytes. Contracts see it as the key.
#[derive(Drop)]
pub(crate) struct Short {
    bytes: [u8; 16],
    len: u8,
}

impl Model for Short {
    ghost use Rattle.std.specs.Prelude.{List, ℕ, ◌≤◌, take};

    ghost Value = { List ℕ };

    ghost view = { λ short. take short.len short.bytes };

    ghost invariant = { λ short. short.len ≤ 16 };
}

impl Short {
    /// A key, if it has at most sixteen bytes.
    pub(crate) fn of(key: &StickKey) -> Option<Short>
        ensures key { IfSome result (λ short. short ≡ key.now) }
        ensures short { IsSome result ↔ (length key.now ≤ 16) }
    {
        let bytes = key.bytes();
        if bytes.len() > 16 {
            return None;
        }
        let mut kept = [0; 16];
        kept[..bytes.len()].copy_from_slice(bytes);
        Some(Short {
            bytes: kept,
            len: bytes.len() as u8,
        })
    }

    /// The key, which takes no memory. A binary key of an address of sixteen bytes has the first of these.
    pub(crate) fn key(&self, alloc: Global) -> StickKey
        ensures { result ≡ self.now }
    {
        let all = Sample::V6(self.bytes);
        match convert(alloc, &all, KeyType::Binary(u32::from(self.len))) {
            Ok(Some(key)) => key,
            _ => unreachable!(),
        }
    }

    /// Whether it is this key.
    pub(crate) fn is(&self, key: &StickKey) -> bool
        ensures { IsTrue result ↔ (key.now ≡ self.now) }
    {
        key.bytes() == &self.bytes[..self.len as usize]
    }
}
