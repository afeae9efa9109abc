//! One direction as a state, whose steps are one read or one write each; `pump` and `Direction` make the steps.

ghost use Rattle.std.specs.Prelude.{◌≡◌, ◌+◌, ◌-◌, ◌<◌, ◌≤◌, ◌↔◌, [], length, IsTrue, OnOk, OnErr, IfErr};
ghost use Rattle.byte_ports.specs.Bytes.{Grows, IsOneMore};
ghost use Rattle.tcp_flow.specs.FlowState.{HasRead, HasStopped, HasWritten, Keeps, fresh, keeping};

mod now;

use crate::Ending;
use byte_ports::{Failed, Sink, Source};
use std::marker::Model;

/// How many bytes a read takes at most.
pub const ROOM: usize = 8192;

/// How many reads that give bytes one direction makes at most.
pub const MAX_TURNS: u64 = 1 << 40;

/// What one direction has counted, and which bytes of its buffer were read and wait to be written. The buffer is its
/// caller's, so that many directions may share one while they keep nothing.
#[derive(Drop)]
pub struct Flow {
    reads: u64,
    read: u64,
    written: u64,
    start: usize,
    end: usize,
}

impl Model for Flow {
    ghost use Rattle.tcp_flow.specs.FlowState.{FlowState, IsFlow};

    ghost Value = { FlowState };

    ghost view = { λ flow. record { reads = flow.reads; read = flow.read; written = flow.written; start = flow.start; end = flow.end } };

    ghost invariant = { λ flow. IsFlow (record { reads = flow.reads; read = flow.read; written = flow.written; start = flow.start; end = flow.end }) };
}

impl Flow {
    /// A direction that has carried nothing.
    pub fn new() -> Flow
        ensures { result ≡ fresh }
    {
        Flow {
            reads: 0,
            read: 0,
            written: 0,
            start: 0,
            end: 0,
        }
    }

    /// A direction whose buffer begins with so many bytes that wait to be written, as if one read had given them, if
    /// there are any.
    pub(crate) fn keeping(count: usize) -> Flow
        requires room { count ≤ 65536 }
        ensures { result ≡ keeping count }
    {
        Flow {
            reads: count.min(1) as u64,
            read: count as u64,
            written: 0,
            start: 0,
            end: count,
        }
    }

    /// How many bytes were read.
    pub fn read(&self) -> u64
        ensures { result ≡ self.now.read }
    {
        self.read
    }

    /// How many bytes were written.
    pub fn written(&self) -> u64
        ensures { result ≡ self.now.written }
    {
        self.written
    }

    /// Whether bytes that were read wait to be written.
    pub fn keeps(&self) -> bool
        ensures kept { IsTrue result ↔ Keeps self.now }
        ensures sum { self.now.written + (self.now.end - self.now.start) ≡ self.now.read }
    {
        self.start < self.end
    }

    /// Reads once into the buffer, which then keeps what was read; or says why nothing more comes: the input has ended,
    /// the read failed, or there were `MAX_TURNS` reads.
    pub fn fill<R: Source>(&mut self, reader: &mut R, buffer: &mut [u8]) -> Result<(), Ending>
        requires empty { ¬ Keeps self.old }
        requires some { 0 < length buffer.old }
        requires room { length buffer.old ≤ 65536 }
        ensures ok { OnOk result (HasRead R.tells (R.left reader.old) (R.left reader.new) self.old buffer.new self.new) }
        ensures calm { OnOk result (R.failures reader.new ≡ R.failures reader.old) }
        ensures stopped { IfErr result (HasStopped R.tells (R.left reader.old) (R.left reader.new) (R.failures reader.old) (R.failures reader.new) self.old.reads) }
        ensures err { OnErr result (self.new ≡ self.old) }
    {
        if self.reads == MAX_TURNS {
            return Err(Ending::ReadFault);
        }
        match reader.read(buffer) {
            Ok(0) => Err(Ending::EndOfInput),
            Ok(count) => {
                self.reads += 1;
                self.read += count as u64;
                self.start = 0;
                self.end = count;
                Ok(())
            }
            Err(Failed) => Err(Ending::ReadFault),
        }
    }

    /// Writes once of what the buffer keeps. A failure changes nothing here.
    pub fn drain<W: Sink>(&mut self, writer: &mut W, buffer: &[u8]) -> Result<(), Failed>
        requires room { self.old.end ≤ length buffer.now }
        ensures ok { OnOk result (HasWritten W.tells (W.written writer.old) (W.written writer.new) self.old buffer.now self.new) }
        ensures some { Keeps self.old → OnOk result (self.old.written < self.new.written) }
        ensures calm { OnOk result (W.failures writer.new ≡ W.failures writer.old) }
        ensures failed { OnErr result (IsOneMore (W.failures writer.old) (W.failures writer.new)) }
        ensures kept { OnErr result (Grows W.tells (W.written writer.old) (W.written writer.new) []) }
        ensures err { OnErr result (self.new ≡ self.old) }
    {
        let count = writer.write(&buffer[self.start..self.end])?;
        self.written += count as u64;
        self.start += count;
        Ok(())
    }

    /// Writes all of what the buffer keeps, in as many calls as it takes. It stops at the first that fails.
    pub fn drain_all<W: Sink>(&mut self, writer: &mut W, buffer: &[u8]) -> Result<(), Failed>
        requires room { self.old.end ≤ length buffer.now }
        ensures bytes { HasWritten W.tells (W.written writer.old) (W.written writer.new) self.old buffer.now self.new }
        ensures ok { OnOk result (¬ Keeps self.new) }
        ensures calm { OnOk result (W.failures writer.new ≡ W.failures writer.old) }
        ensures failed { OnErr result (IsOneMore (W.failures writer.old) (W.failures writer.new)) }
    {
        while self.keeps() {
            self.drain(writer, buffer)?;
        }
        Ok(())
    }
}
