//! The traits of readers and writers that never wait; `Direction` calls them, and `ReadyStream` implements them.
//!
//! Where the device isn't ready they answer so.

ghost use Rattle.std.specs.Prelude.{◌≡◌, ℕ, ◌<◌, ◌≤◌, List, [], length, take, IfErr, IfOk, OnErr, OnOk};
ghost use Rattle.byte_ports.specs.Bytes.{Grows, IsAtEnd, Takes};
ghost use Rattle.tcp_flow.specs.Halts.{HasCounted};

use crate::halts::Halt;

/// What bytes are read from, as far as they are there.
pub trait ReadySource {
    // Whether contracts see the bytes.
    ghost tells: { Type 0 };

    // The bytes that it will hand out from here on.
    ghost left: { Self → List ℕ };

    // How often a call failed, modulo 2 ^ 64.
    ghost failures: { Self → ℕ };

    /// Fills a prefix of the buffer with the next bytes, and answers how many they are. 0 bytes into a buffer with
    /// room mean that the input has ended. `NotNow` comes where none are there yet, `Failed` exactly where the device
    /// failed; neither takes bytes.
    fn read_now(&mut self, buffer: &mut [u8]) -> Result<usize, Halt>
        ensures bound { IfOk result (λ count. count ≤ length buffer.old) }
        ensures bytes { IfOk result (λ count. Takes tells (left self.old) (left self.new) (take count buffer.new)) }
        ensures end { result ≡ Ok 0 → 0 < length buffer.old → IsAtEnd tells (left self.new) }
        ensures ok { OnOk result (failures self.new ≡ failures self.old) }
        ensures err { IfErr result (HasCounted (failures self.old) (failures self.new)) }
        ensures kept { OnErr result (Takes tells (left self.old) (left self.new) []) };
}

/// What bytes are written to, as far as it has room.
pub trait ReadySink {
    // Whether contracts see the bytes.
    ghost tells: { Type 0 };

    // The bytes that were taken so far.
    ghost written: { Self → List ℕ };

    // How often a call failed, modulo 2 ^ 64.
    ghost failures: { Self → ℕ };

    /// Takes a prefix of the bytes, at least one where there is one, and answers how many. `NotNow` comes where it has
    /// no room yet, `Failed` exactly where the device failed; neither takes bytes.
    fn write_now(&mut self, bytes: &[u8]) -> Result<usize, Halt>
        ensures bound { IfOk result (λ count. count ≤ length bytes.now) }
        ensures some { 0 < length bytes.now → IfOk result (λ count. 0 < count) }
        ensures bytes { IfOk result (λ count. Grows tells (written self.old) (written self.new) (take count bytes.now)) }
        ensures ok { OnOk result (failures self.new ≡ failures self.old) }
        ensures err { IfErr result (HasCounted (failures self.old) (failures self.new)) }
        ensures kept { OnErr result (Grows tells (written self.old) (written self.new) []) };
}
