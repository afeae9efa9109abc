//! The write of a whole slice, in as many calls as it takes; `table_cli`, `stickd_script` and `GatheringSink` call it.

ghost use Rattle.std.specs.Prelude.{◌≡◌, ◌≤◌, length, take, IfErr, OnOk, OnErr};
ghost use Rattle.byte_ports.specs.Bytes.{Grows, IsOneMore};

use crate::{Failed, Sink};

/// A write failed after so many bytes were taken.
#[derive(Clone, Copy, Debug, PartialEq, Eq)]
pub struct Stopped {
    pub written: usize,
}

/// Writes all of the bytes, in as many calls as it takes. It stops at the first call that fails.
pub fn write_all<W: Sink>(writer: &mut W, bytes: &[u8]) -> Result<(), Stopped>
    ensures bytes { OnOk result (Grows W.tells (W.written writer.old) (W.written writer.new) bytes.now) }
    ensures ok { OnOk result (W.failures writer.new ≡ W.failures writer.old) }

    // What was taken before it stopped is a prefix of the bytes.
    ensures stopped { IfErr result (λ stopped. stopped.written ≤ length bytes.now) }
    ensures prefix { IfErr result (λ stopped. Grows W.tells (W.written writer.old) (W.written writer.new) (take stopped.written bytes.now)) }
    ensures err { OnErr result (IsOneMore (W.failures writer.old) (W.failures writer.new)) }
{
    let mut written = 0;
    while written < bytes.len() {
        match writer.write(&bytes[written..]) {
            Ok(count) => written += count,
            Err(Failed) => return Err(Stopped { written }),
        }
    }
    Ok(())
}
