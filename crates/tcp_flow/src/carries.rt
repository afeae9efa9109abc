//! What a reader has now goes to a writer, as far as that has room; `Direction` calls it in each turn.

ghost use Rattle.std.specs.Prelude.{◌≡◌, ◌<◌, ◌≤◌, ◌+◌, ◌*◌, ◌≢◌, [], length, IfErr, OnOk};
ghost use Rattle.byte_ports.specs.Bytes.{IsAtEnd};
ghost use Rattle.tcp_flow.specs.FlowState.{Keeps};
ghost use Rattle.tcp_flow.specs.Passage.{HasMoved, passage};
ghost use Rattle.tcp_flow.specs.Turns.{HasFailed, KeepsAt, step_of};

use crate::flow::Flow;
use crate::halts::Halt;
use crate::ready::{ReadySink, ReadySource};
use crate::steps::{Cause, Step};

/// Where a direction stands whose writer takes no more.
pub fn halted(halt: Halt) -> Step
    ensures { result ≡ step_of halt }
{
    match halt {
        Halt::NotNow => Step::WaitsToWrite,
        Halt::Failed => Step::Failed(Cause::Write),
    }
}

/// Reads once, and writes what was read.
fn carry_once<R: ReadySource, W: ReadySink>(
    flow: &mut Flow,
    reader: &mut R,
    writer: &mut W,
    buffer: &mut [u8],
) -> Result<usize, Step>
    requires empty { ¬ Keeps flow.old }
    requires some { 0 < length buffer.old }
    requires room { length buffer.old ≤ 65536 }
    ensures moved { HasMoved R.tells (R.left reader.old) (R.left reader.new) W.tells (W.written writer.old) (W.written writer.new) (passage flow.old []) (passage flow.new buffer.new) }
    ensures ok { OnOk result (¬ Keeps flow.new) }
    ensures some { OnOk result (flow.old.read < flow.new.read) }
    ensures calm { OnOk result ((R.failures reader.new ≡ R.failures reader.old) × (W.failures writer.new ≡ W.failures writer.old)) }
    ensures kept { IfErr result (λ step. KeepsAt step flow.new) }
    ensures not_yet { IfErr result (λ step. step ≢ Step.Yields) }
    ensures end { IfErr result (λ step. step ≡ Step.Ended → IsAtEnd R.tells (R.left reader.new)) }
    ensures failed { IfErr result (λ step. HasFailed step flow.new.read (R.failures reader.old) (R.failures reader.new) (W.failures writer.old) (W.failures writer.new)) }
    ensures most { flow.new.read ≤ flow.old.read + length buffer.old }
    ensures end_room { Keeps flow.new → flow.new.end ≤ length buffer.new }
{
    let count = flow.fill_now(reader, buffer)?;
    match flow.drain_all_now(writer, buffer) {
        Ok(()) => Ok(count),
        Err(halt) => Err(halted(halt)),
    }
}

/// Reads at most so many times, and writes what was read, until the reader has nothing now or has ended, the writer has no
/// room, or one of them fails. A read that leaves the buffer part empty is the last, unless the end is waited for.
pub fn carry_now<R: ReadySource, W: ReadySink>(
    flow: &mut Flow,
    reader: &mut R,
    writer: &mut W,
    buffer: &mut [u8],
    reads: u32,
    until_end: bool,
) -> Step
    requires empty { ¬ Keeps flow.old }
    requires some { 0 < length buffer.old }
    requires room { length buffer.old ≤ 65536 }
    ensures moved { HasMoved R.tells (R.left reader.old) (R.left reader.new) W.tells (W.written writer.old) (W.written writer.new) (passage flow.old []) (passage flow.new buffer.new) }
    ensures kept { KeepsAt result flow.new }
    ensures end { result ≡ Step.Ended → IsAtEnd R.tells (R.left reader.new) }
    ensures failed { HasFailed result flow.new.read (R.failures reader.old) (R.failures reader.new) (W.failures writer.old) (W.failures writer.new) }
    ensures most { flow.new.read ≤ flow.old.read + reads * length buffer.old }
    ensures yields { result ≡ Step.Yields → flow.old.read + reads ≤ flow.new.read }
    ensures end_room { Keeps flow.new → flow.new.end ≤ length buffer.new }
{
    for _read in 0..reads {
        match carry_once(flow, reader, writer, buffer) {
            Ok(count) if count < buffer.len() && !until_end => return Step::WaitsToRead,
            Ok(_) => {}
            Err(step) => return step,
        }
    }
    Step::Yields
}
