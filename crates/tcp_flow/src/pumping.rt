//! The carriage of all bytes of a reader to a writer, by ports that wait; only tests call it.

ghost use Rattle.std.specs.Prelude.{◌≡◌, ◌≢◌};
ghost use Rattle.byte_ports.specs.Bytes.{IsAtEnd};
ghost use Rattle.tcp_flow.specs.Carried.{Carried, Faults};

use crate::flow::{Flow, MAX_TURNS, ROOM};
use byte_ports::{Sink, Source};

/// How a direction ended.
#[derive(Clone, Copy, Debug, PartialEq, Eq)]
pub enum Ending {
    /// The input has ended, and all of it was written.
    EndOfInput,
    /// A read failed, or there were too many; all that was read was written.
    ReadFault,
    /// A write failed.
    WriteFault,
}

/// How many bytes a direction has read and written, and how it ended.
#[derive(Clone, Copy, Debug, PartialEq, Eq)]
pub struct PumpEnd {
    pub read: u64,
    pub written: u64,
    pub ending: Ending,
}

fn end(flow: &Flow, ending: Ending) -> PumpEnd
    ensures { result ≡ record { read = flow.now.read; written = flow.now.written; ending = ending } }
{
    PumpEnd {
        read: flow.read(),
        written: flow.written(),
        ending,
    }
}

/// Writes all that it reads, until the input ends or a device fails. `ReadFault` also comes after `MAX_TURNS` reads, so that
/// it ends whatever the reader does.
pub fn pump<R: Source, W: Sink>(reader: &mut R, writer: &mut W) -> PumpEnd
    // What was written is what was read, or a prefix of it where a write failed.
    ensures carried { Carried R.tells (R.left reader.old) (R.left reader.new) W.tells (W.written writer.old) (W.written writer.new) result.read result.written }
    ensures whole { result.ending ≢ Ending.WriteFault → result.written ≡ result.read }
    ensures end { result.ending ≡ Ending.EndOfInput → IsAtEnd R.tells (R.left reader.new) }
    ensures faults { Faults result.ending result.read (R.failures reader.old) (R.failures reader.new) (W.failures writer.old) (W.failures writer.new) }
{
    let mut flow = Flow::new();
    let mut buffer = [0u8; ROOM];
    for _turn in 0..MAX_TURNS {
        if let Err(ending) = flow.fill(reader, &mut buffer) {
            return end(&flow, ending);
        }
        if flow.drain_all(writer, &buffer).is_err() {
            return end(&flow, Ending::WriteFault);
        }
    }
    end(&flow, Ending::ReadFault)
}
