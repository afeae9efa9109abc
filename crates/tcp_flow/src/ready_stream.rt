//! A port that doesn't wait over a stream of std, whose bytes no contract sees; `tcp_link` puts its sockets into it.

ghost use Rattle.std.specs.Prelude.{◌≡◌, ◌<◌, ◌≤◌, length, IfOk};
ghost use Rattle.std.specs.IoError.{error_kind};
ghost use Rattle.tcp_flow.specs.Halts.{HasCounted, halt_of};

use crate::halts::Halt;
use crate::ready::{ReadySink, ReadySource};
use std::io::{Error, ErrorKind, Read, Write};
use std::marker::Model;

/// How often a call that a signal interrupts is tried.
const TRIES: u32 = 16;

/// A ready source over a reader of std, and a ready sink over a writer, as a `&TcpStream` that doesn't block. `WouldBlock`
/// is `NotNow`; a write that takes none of some bytes is a failure. A call that is interrupted is tried again, 16 times at
/// most, and has then failed: were it `NotNow`, a poll that tells each change once would tell nothing more. Contracts see
/// how often a call failed.
#[derive(Drop)]
pub struct ReadyStream<S> {
    stream: S,
    failures: u64,
}

impl<S> Model for ReadyStream<S> {
    ghost use Rattle.std.specs.Prelude.{ℕ};

    ghost Value = { ℕ };

    ghost view = { λ port. port.failures };
}

impl<S> ReadyStream<S> {
    /// A port over this stream, of which no call has failed.
    pub fn new(stream: S) -> Self
        ensures { result ≡ 0 }
    {
        ReadyStream {
            stream,
            failures: 0,
        }
    }

    /// Counts a call that took no bytes, where it failed.
    fn note(&mut self, halt: Halt)
        ensures { HasCounted self.old self.new halt }
    {
        match halt {
            Halt::NotNow => {}
            Halt::Failed => self.failures = self.failures.wrapping_add(1),
        }
    }
}

/// Why a call took no bytes that ended with this error. None where a signal interrupted it, so that it is to be made again.
fn halt_of(error: &Error) -> Option<Halt>
    ensures { result ≡ halt_of (error_kind error.now) }
{
    match error.kind() {
        ErrorKind::WouldBlock => Some(Halt::NotNow),
        ErrorKind::Interrupted => None,
        _ => Some(Halt::Failed),
    }
}

/// One read, or more where a signal interrupts it.
fn try_to_read<R: Read>(reader: &mut R, buffer: &mut [u8]) -> Result<usize, Halt>
    ensures bound { IfOk result (λ count. count ≤ length buffer.old) }
{
    for _try in 0..TRIES {
        match reader.read(buffer) {
            Ok(count) => return Ok(count),
            Err(error) => {
                if let Some(halt) = halt_of(&error) {
                    return Err(halt);
                }
            }
        }
    }
    Err(Halt::Failed)
}

/// One write, or more where a signal interrupts it.
fn try_to_write<W: Write>(writer: &mut W, bytes: &[u8]) -> Result<usize, Halt>
    ensures bound { IfOk result (λ count. count ≤ length bytes.now) }
    ensures some { 0 < length bytes.now → IfOk result (λ count. 0 < count) }
{
    for _try in 0..TRIES {
        match writer.write(bytes) {
            Ok(count) if count > 0 || bytes.is_empty() => return Ok(count),
            Ok(_) => return Err(Halt::Failed),
            Err(error) => {
                if let Some(halt) = halt_of(&error) {
                    return Err(halt);
                }
            }
        }
    }
    Err(Halt::Failed)
}

impl<S: Read> ReadySource for ReadyStream<S> {
    ghost use Rattle.std.specs.Prelude.{[]};

    ghost tells = { ⊥ };

    ghost left = { λ _. [] };

    ghost failures = { λ failures. failures };

    fn read_now(&mut self, buffer: &mut [u8]) -> Result<usize, Halt> {
        match try_to_read(&mut self.stream, buffer) {
            Ok(count) => Ok(count),
            Err(halt) => {
                self.note(halt);
                Err(halt)
            }
        }
    }
}

impl<S: Write> ReadySink for ReadyStream<S> {
    ghost use Rattle.std.specs.Prelude.{[]};

    ghost tells = { ⊥ };

    ghost written = { λ _. [] };

    ghost failures = { λ failures. failures };

    fn write_now(&mut self, bytes: &[u8]) -> Result<usize, Halt> {
        match try_to_write(&mut self.stream, bytes) {
            Ok(count) => Ok(count),
            Err(halt) => {
                self.note(halt);
                Err(halt)
            }
        }
    }
}
