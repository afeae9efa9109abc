//! A sink in memory, whose bytes contracts see; tests write to it.

ghost use Rattle.std.specs.Prelude.{◌≡◌, ◌<◌, []};

use crate::pace::Pace;
use crate::{Failed, Sink};
use std::alloc::Global;
use std::marker::Model;

/// Keeps the bytes that it takes. Contracts see them, its pace, and how often a call failed.
#[derive(Drop)]
pub struct MemorySink {
    written: Vec<u8>,
    pace: Pace,
    failures: u64,
}

impl Model for MemorySink {
    ghost use Rattle.byte_ports.specs.Memory.{Store};

    ghost Value = { Store };

    ghost view = { λ sink. record { written = sink.written.items; piece = sink.pace.piece; limit = sink.pace.limit; failures = sink.failures } };
}

impl MemorySink {
    /// An empty sink, which takes at most `piece` bytes in a call. With a `limit`, every call fails once it has taken
    /// so many bytes. A call also fails where its growth is refused.
    pub fn new(alloc: Global, piece: usize, limit: Option<usize>) -> Self
        requires { 0 < piece }
        ensures { result ≡ record { written = []; piece = piece; limit = limit; failures = 0 } }
    {
        MemorySink {
            written: Vec::new(alloc),
            pace: Pace { piece, limit },
            failures: 0,
        }
    }

    /// The bytes that were taken.
    pub fn written(&self) -> &[u8]
        ensures { result.now ≡ self.now.written }
    {
        &self.written
    }
}

impl Sink for MemorySink {
    ghost tells = { Unit {0} };

    ghost written = { λ sink. sink.written };

    ghost failures = { λ sink. sink.failures };

    fn write(&mut self, bytes: &[u8]) -> Result<usize, Failed> {
        let Some(count) = self.pace.passing(bytes.len()) else {
            self.failures = self.failures.wrapping_add(1);
            return Err(Failed);
        };
        if self.written.extend_from_slice(&bytes[..count]).is_err() {
            self.failures = self.failures.wrapping_add(1);
            return Err(Failed);
        }
        self.pace.spend(count);
        Ok(count)
    }
}
