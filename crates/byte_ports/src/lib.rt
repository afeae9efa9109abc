//! Readers and writers whose contracts name the bytes that pass and count the failures; line services, commands, scripts and
//! `tcp_flow` use them.
//!
//! A function that works on any `Source` and `Sink` can promise what it did with the bytes, and that it answers a fault only
//! where a device failed. `MemorySource` and `MemorySink` tell their bytes to contracts; `StreamSource` and `StreamSink` tell
//! none, as no contract can say what a file or a socket gives.
//!
//! The words of the contracts are in `specs::Bytes`. A crate above cites the lemmas on them as `Rattle.byte_ports.proofs.Pieces`.
//!
//! Writes can be gathered, so that many short ones are a single one of the device. `GatheringSink` is a `Sink` over another, and
//! its contracts see what it has taken. `SharedSink` and `FlushingSource` are the two ends of a conversation that share one: what
//! was written comes before the next read.
#![tactic(auto)]

ghost use Rattle.std.specs.Prelude.{◌≡◌, ℕ, ◌<◌, ◌≤◌, List, [], length, take, IfOk, OnOk, OnErr};
ghost use Rattle.byte_ports.specs.Bytes.{Grows, IsAtEnd, IsOneMore, Takes};

mod flushing_source;
mod gathering_sink;
mod held_bytes;
mod memory_sink;
mod memory_source;
mod pace;
mod shared_sink;
mod stream_sink;
mod stream_source;
mod writes;

pub use flushing_source::{FlushingSource, flush_shared};
pub use gathering_sink::GatheringSink;
pub use held_bytes::ROOM;
pub use memory_sink::MemorySink;
pub use memory_source::MemorySource;
pub use shared_sink::SharedSink;
pub use stream_sink::StreamSink;
pub use stream_source::StreamSource;
pub use writes::{Stopped, write_all};

/// The device failed in this call.
#[derive(Clone, Copy, Debug, PartialEq, Eq)]
pub struct Failed;

/// What bytes are read from.
pub trait Source {
    // Whether contracts see the bytes.
    ghost tells: { Type 0 };

    // The bytes that it will hand out from here on.
    ghost left: { Self → List ℕ };

    // How often a call failed, modulo 2 ^ 64.
    ghost failures: { Self → ℕ };

    /// Fills a prefix of the buffer with the next bytes, and answers how many they are. 0 bytes into a buffer with
    /// room mean that the input has ended. `Failed` comes exactly where the device failed, and takes no bytes.
    fn read(&mut self, buffer: &mut [u8]) -> Result<usize, Failed>
        ensures bound { IfOk result (λ count. count ≤ length buffer.old) }
        ensures bytes { IfOk result (λ count. Takes tells (left self.old) (left self.new) (take count buffer.new)) }
        ensures end { result ≡ Ok 0 → 0 < length buffer.old → IsAtEnd tells (left self.new) }
        ensures ok { OnOk result (failures self.new ≡ failures self.old) }
        ensures err { OnErr result (IsOneMore (failures self.old) (failures self.new)) }
        ensures kept { OnErr result (Takes tells (left self.old) (left self.new) []) };
}

/// What bytes are written to.
pub trait Sink {
    // Whether contracts see the bytes.
    ghost tells: { Type 0 };

    // The bytes that were taken so far.
    ghost written: { Self → List ℕ };

    // How often a call failed, modulo 2 ^ 64.
    ghost failures: { Self → ℕ };

    /// Takes a prefix of the bytes, at least one where there is one, and answers how many. `Failed` comes exactly
    /// where the device failed, and takes no bytes.
    fn write(&mut self, bytes: &[u8]) -> Result<usize, Failed>
        ensures bound { IfOk result (λ count. count ≤ length bytes.now) }
        ensures some { 0 < length bytes.now → IfOk result (λ count. 0 < count) }
        ensures bytes { IfOk result (λ count. Grows tells (written self.old) (written self.new) (take count bytes.now)) }
        ensures ok { OnOk result (failures self.new ≡ failures self.old) }
        ensures err { OnErr result (IsOneMore (failures self.old) (failures self.new)) }
        ensures kept { OnErr result (Grows tells (written self.old) (written self.new) []) };
}
