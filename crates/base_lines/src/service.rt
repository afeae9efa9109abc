//! The service of each line of a reader, until that ends; `table_cli` calls it for clients, `stickd_script` for scripts.

ghost use Rattle.std.specs.Prelude.{◌≡◌, ◌≤◌, ◌⊎◌, ℕ, List, length, IfErr, OnOk};
ghost use Rattle.byte_ports.specs.Bytes.{Grows, IsAtEnd, IsOneMore, Takes};
ghost use Rattle.base_lines.specs.Service.{ServesAll, StopsAfter, most_turns};

use crate::feed::feed;
use crate::line::LineSoFar;
use crate::server::LineServer;
use byte_ports::{Sink, Source};

/// How many reads one call makes at most: a reader that never ends is a fault after them.
pub const MAX_TURNS: u64 = 1 << 40;

/// What failed.
#[derive(Clone, Copy, Debug, PartialEq, Eq)]
pub enum LineFaultKind {
    Read,
    Write,
}

/// Why the service stopped before the reader's end, and how many lines it had served.
#[derive(Clone, Copy, Debug, PartialEq, Eq)]
pub struct LineFault {
    pub kind: LineFaultKind,
    pub done: u64,
}

impl LineFault {
    fn read(done: u64) -> LineFault
        ensures { result ≡ record { kind = LineFaultKind.Read; done = done } }
    {
        LineFault {
            kind: LineFaultKind::Read,
            done,
        }
    }

    fn write(done: u64) -> LineFault
        ensures { result ≡ record { kind = LineFaultKind.Write; done = done } }
    {
        LineFault {
            kind: LineFaultKind::Write,
            done,
        }
    }
}

/// Serves each line of a reader until it ends. The last line needs no line end.
pub fn serve_lines<L: LineServer, R: Source, W: Sink>(
    server: &mut L,
    reader: &mut R,
    writer: &mut W,
) -> Result<(), LineFault>
    requires { L.holds (L.state server.old) }
    // All of the input was read, and what was written is what its lines say, and nothing else.
    ensures whole { OnOk result ((whole output : List ℕ) × Takes R.tells (R.left reader.old) (R.left reader.new) whole
        × Grows W.tells (W.written writer.old) (W.written writer.new) output
        × ServesAll L.says (L.state server.old) whole output (L.state server.new)) }
    ensures holds { OnOk result (L.holds (L.state server.new)) }
    ensures end { OnOk result (IsAtEnd R.tells (R.left reader.new)) }
    ensures fault { IfErr result (λ fault. (whole output : List ℕ) × Takes R.tells (R.left reader.old) (R.left reader.new) whole
        × Grows W.tells (W.written writer.old) (W.written writer.new) output
        × StopsAfter L.says L.stops (L.state server.old) whole fault.done output (L.state server.new)) }
    // A fault comes only where a device failed, or there were too many reads.
    ensures read { IfErr result (λ fault. fault.kind ≡ LineFaultKind.Read → (IsOneMore (R.failures reader.old) (R.failures reader.new)
        ⊎ ((whole : List ℕ) × Takes R.tells (R.left reader.old) (R.left reader.new) whole × (most_turns ≤ length whole)))) }
    ensures write { IfErr result (λ fault. fault.kind ≡ LineFaultKind.Write → IsOneMore (W.failures writer.old) (W.failures writer.new)) }
{
    let mut line = LineSoFar::new();
    let mut buffer = [0u8; 4096];
    let mut done = 0u64;
    for _turn in 0..MAX_TURNS {
        let count = match reader.read(&mut buffer) {
            Ok(count) => count,
            Err(_) => return Err(LineFault::read(done)),
        };
        if count == 0 {
            return match server.serve(line.line(), writer) {
                Ok(()) => Ok(()),
                Err(_) => Err(LineFault::write(done)),
            };
        }
        match feed(server, &mut line, &buffer[..count], writer) {
            Ok(lines) => done += lines,
            Err(lines) => return Err(LineFault::write(done + lines)),
        }
    }
    Err(LineFault::read(done))
}
