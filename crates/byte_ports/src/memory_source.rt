//! A source in memory, whose bytes contracts see; tests read from it.

ghost use Rattle.std.specs.Prelude.{◌≡◌, ◌<◌};

use crate::pace::Pace;
use crate::{Failed, Source};
use std::marker::Model;

/// Hands out the bytes of a slice. Contracts see what is left of them, its pace, and how
/// often a call failed.
#[derive(Drop)]
pub struct MemorySource<'a> {
    left: &'a [u8],
    pace: Pace,
    failures: u64,
}

impl<'a> Model for MemorySource<'a> {
    ghost use Rattle.byte_ports.specs.Memory.{Supply};

    ghost Value = { Supply };

    ghost view = { λ source. record { left = source.left.now; piece = source.pace.piece; limit = source.pace.limit; failures = source.failures } };
}

impl<'a> MemorySource<'a> {
    /// A source of these bytes, of which at most `piece` pass in a call. With a `limit`, every call fails once so
    /// many bytes have passed, also at their end; without one none does.
    pub fn new(bytes: &'a [u8], piece: usize, limit: Option<usize>) -> Self
        requires { 0 < piece }
        ensures { result ≡ record { left = bytes.now; piece = piece; limit = limit; failures = 0 } }
    {
        MemorySource {
            left: bytes,
            pace: Pace { piece, limit },
            failures: 0,
        }
    }

    /// The bytes that have not passed yet.
    pub fn left(&self) -> &'a [u8]
        ensures { result.now ≡ self.now.left }
    {
        self.left
    }
}

impl<'a> Source for MemorySource<'a> {
    ghost tells = { Unit {0} };

    ghost left = { λ source. source.left };

    ghost failures = { λ source. source.failures };

    fn read(&mut self, buffer: &mut [u8]) -> Result<usize, Failed> {
        let Some(count) = self.pace.passing(self.left.len().min(buffer.len())) else {
            self.failures = self.failures.wrapping_add(1);
            return Err(Failed);
        };
        let (piece, left) = self.left.split_at(count);
        buffer[..count].copy_from_slice(piece);
        self.left = left;
        self.pace.spend(count);
        Ok(count)
    }
}
