//! One direction of a connection whose sockets don't wait; `tcp_link` gives it a turn whenever a socket is ready.

ghost use Rattle.std.specs.Prelude.{◌≡◌, ◌<◌, ◌≤◌, ◌+◌, ◌*◌, ◌↔◌, false, [], length, IsTrue, OnErr, OnOk, vec_len};
ghost use Rattle.byte_ports.specs.Bytes.{IsAtEnd};
ghost use Rattle.tcp_flow.specs.FlowState.{Keeps, from_its_start, kept};
ghost use Rattle.tcp_flow.specs.Passage.{passage};
ghost use Rattle.tcp_flow.specs.Turns.{HasFailed, HasTurned, IsDirection, beginning, is_last, unbegun};

use crate::carries::carry_now;
use crate::flow::Flow;
use crate::halts::Halt;
use crate::ready::{ReadySink, ReadySource};
use crate::steps::{Cause, Step};
use std::alloc::{AllocError, Global};
use std::marker::Model;

/// How many bytes were read and written, and the bytes for which the writer had no room. It takes memory only while there
/// are such bytes. A direction that has ended or failed keeps none.
#[derive(Drop)]
pub struct Direction {
    flow: Flow,
    rest: Vec<u8>,
    over: bool,
}

impl Model for Direction {
    ghost use Rattle.tcp_flow.specs.Turns.{DirectionState, IsDirection};
    ghost use Rattle.tcp_flow.specs.Passage.{passage};

    ghost Value = { DirectionState };

    ghost view = { λ direction. record { passage = passage direction.flow direction.rest.items; over = direction.over } };

    ghost invariant = { λ direction. IsDirection direction.flow direction.rest.items direction.over };
}

impl Direction {
    /// A direction through which nothing has passed. It takes no memory yet.
    pub fn new(alloc: Global) -> Direction
        ensures { result ≡ unbegun }
    {
        Direction::beginning(Vec::new(alloc))
    }

    /// A direction that gives these bytes before all that its reader gives. They count as read.
    pub fn beginning(first: Vec<u8>) -> Direction
        requires room { vec_len first ≤ 65536 }
        ensures { result ≡ beginning first.items }
    {
        Direction {
            flow: Flow::keeping(first.len()),
            rest: first,
            over: false,
        }
    }

    /// How many bytes were read.
    pub fn read(&self) -> u64
        ensures { result ≡ self.now.passage.read }
    {
        self.flow.read()
    }

    /// How many bytes were written.
    pub fn written(&self) -> u64
        ensures { result ≡ self.now.passage.written }
    {
        self.flow.written()
    }

    /// Whether bytes that were read wait to be written. Until it is over, what was read is what was written and what waits.
    pub fn keeps(&self) -> bool
        ensures kept { IsTrue result ↔ (0 < length self.now.passage.rest) }
        ensures sum { self.now.over ≡ false → self.now.passage.written + length self.now.passage.rest ≡ self.now.passage.read }
    {
        !self.over && self.flow.keeps()
    }

    /// Whether it has ended or failed, so that no turn follows.
    pub fn is_over(&self) -> bool
        ensures { result ≡ self.now.over }
    {
        self.over
    }

    /// Writes what is kept, and then what it reads, with at most so many reads into the buffer, until the reader has nothing
    /// now or has ended, the writer has no room, or one of them fails. What finds no room is kept, for which memory is
    /// taken. A read that leaves the buffer part empty is the last, unless the end is waited for, as it must be where the
    /// reader's end was told and won't be told again.
    ///
    /// `Step::Failed(Cause::Read)` also comes once 2^40 reads gave bytes. Where the writer fails, or there is no memory for
    /// what it left, what was read and not written is lost.
    pub fn turn<R: ReadySource, W: ReadySink>(
        &mut self,
        reader: &mut R,
        writer: &mut W,
        buffer: &mut [u8],
        reads: u32,
        until_end: bool,
    ) -> Step
        requires going { self.old.over ≡ false }
        requires some { 0 < length buffer.old }
        requires room { length buffer.old ≤ 65536 }
        ensures turned { HasTurned R.tells (R.left reader.old) (R.left reader.new) W.tells (W.written writer.old) (W.written writer.new) self.old.passage self.new.passage result }
        ensures over { self.new.over ≡ is_last result }
        ensures end { result ≡ Step.Ended → IsAtEnd R.tells (R.left reader.new) }
        ensures failed { HasFailed result self.new.passage.read (R.failures reader.old) (R.failures reader.new) (W.failures writer.old) (W.failures writer.new) }
        ensures most { self.new.passage.read ≤ self.old.passage.read + reads * length buffer.old }
        ensures yields { result ≡ Step.Yields → self.old.passage.read + reads ≤ self.new.passage.read }
    {
        let step = run(
            &mut self.flow,
            &mut self.rest,
            reader,
            writer,
            buffer,
            reads,
            until_end,
        );
        self.over = step.is_last();
        step
    }
}

/// Gives the memory back.
fn give_back(rest: &mut Vec<u8>)
    ensures { rest.new.items ≡ [] }
{
    *rest = Vec::new(*rest.allocator());
}

/// Keeps what waits in a buffer.
fn keep(flow: &mut Flow, rest: &mut Vec<u8>, buffer: &[u8]) -> Result<(), AllocError>
    requires empty { rest.old.items ≡ [] }
    requires room { flow.old.end ≤ length buffer.now }
    ensures ok { OnOk result ((rest.new.items ≡ kept flow.old buffer.now) × (flow.new ≡ from_its_start flow.old)) }
    ensures err { OnErr result ((rest.new.items ≡ []) × (flow.new ≡ flow.old)) }
{
    rest.extend_from_slice(flow.kept(buffer))?;
    flow.moves_to_a_start();
    Ok(())
}

/// What a turn does once nothing is kept.
fn carry_and_keep<R: ReadySource, W: ReadySink>(
    flow: &mut Flow,
    rest: &mut Vec<u8>,
    reader: &mut R,
    writer: &mut W,
    buffer: &mut [u8],
    reads: u32,
    until_end: bool,
) -> Step
    requires empty { ¬ Keeps flow.old }
    requires nothing { rest.old.items ≡ [] }
    requires some { 0 < length buffer.old }
    requires room { length buffer.old ≤ 65536 }
    ensures turned { HasTurned R.tells (R.left reader.old) (R.left reader.new) W.tells (W.written writer.old) (W.written writer.new) (passage flow.old rest.old.items) (passage flow.new rest.new.items) result }
    ensures kept { IsDirection flow.new rest.new.items (is_last result) }
    ensures end { result ≡ Step.Ended → IsAtEnd R.tells (R.left reader.new) }
    ensures failed { HasFailed result flow.new.read (R.failures reader.old) (R.failures reader.new) (W.failures writer.old) (W.failures writer.new) }
    ensures most { flow.new.read ≤ flow.old.read + reads * length buffer.old }
    ensures yields { result ≡ Step.Yields → flow.old.read + reads ≤ flow.new.read }
{
    match carry_now(flow, reader, writer, buffer, reads, until_end) {
        Step::WaitsToWrite => match keep(flow, rest, buffer) {
            Ok(()) => Step::WaitsToWrite,
            Err(_) => Step::Failed(Cause::Memory),
        },
        step => step,
    }
}

/// A turn over the bytes that are kept and those that are read.
fn run<R: ReadySource, W: ReadySink>(
    flow: &mut Flow,
    rest: &mut Vec<u8>,
    reader: &mut R,
    writer: &mut W,
    buffer: &mut [u8],
    reads: u32,
    until_end: bool,
) -> Step
    requires kept { IsDirection flow.old rest.old.items false }
    requires some { 0 < length buffer.old }
    requires room { length buffer.old ≤ 65536 }
    ensures turned { HasTurned R.tells (R.left reader.old) (R.left reader.new) W.tells (W.written writer.old) (W.written writer.new) (passage flow.old rest.old.items) (passage flow.new rest.new.items) result }
    ensures kept { IsDirection flow.new rest.new.items (is_last result) }
    ensures end { result ≡ Step.Ended → IsAtEnd R.tells (R.left reader.new) }
    ensures failed { HasFailed result flow.new.read (R.failures reader.old) (R.failures reader.new) (W.failures writer.old) (W.failures writer.new) }
    ensures most { flow.new.read ≤ flow.old.read + reads * length buffer.old }
    ensures yields { result ≡ Step.Yields → flow.old.read + reads ≤ flow.new.read }
{
    match flow.drain_all_now(writer, rest) {
        Ok(()) => {
            give_back(rest);
            carry_and_keep(flow, rest, reader, writer, buffer, reads, until_end)
        }
        Err(Halt::NotNow) => Step::WaitsToWrite,
        Err(Halt::Failed) => {
            give_back(rest);
            Step::Failed(Cause::Write)
        }
    }
}
