//! The steps of a flow between ports that don't wait; `Direction` and `carries` make them.

ghost use Rattle.std.specs.Prelude.{◌≡◌, ◌<◌, ◌≤◌, [], length, OnOk, OnErr, IfErr, IfOk};
ghost use Rattle.byte_ports.specs.Bytes.{Grows};
ghost use Rattle.tcp_flow.specs.FlowState.{HasRead, HasWritten, Keeps, from_its_start, kept};
ghost use Rattle.tcp_flow.specs.Halts.{HasCounted};
ghost use Rattle.tcp_flow.specs.Turns.{HasPaused};

use super::{Flow, MAX_TURNS};
use crate::halts::Halt;
use crate::ready::{ReadySink, ReadySource};
use crate::steps::{Cause, Step};

impl Flow {
    /// Reads once into the buffer, which then keeps what was read, and answers how many bytes it was; or says why no more
    /// comes: nothing is there for now, the input has ended, the read failed, or there were `MAX_TURNS` reads.
    pub fn fill_now<R: ReadySource>(
        &mut self,
        reader: &mut R,
        buffer: &mut [u8],
    ) -> Result<usize, Step>
        requires empty { ¬ Keeps self.old }
        requires some { 0 < length buffer.old }
        requires room { length buffer.old ≤ 65536 }
        ensures ok { OnOk result (HasRead R.tells (R.left reader.old) (R.left reader.new) self.old buffer.new self.new) }
        ensures count { IfOk result (λ count. self.new.end ≡ count) }
        ensures calm { OnOk result (R.failures reader.new ≡ R.failures reader.old) }
        ensures paused { IfErr result (HasPaused R.tells (R.left reader.old) (R.left reader.new) (R.failures reader.old) (R.failures reader.new) self.old.reads) }
        ensures err { OnErr result (self.new ≡ self.old) }
        ensures turns { self.new.reads ≤ self.new.read }
    {
        if self.reads == MAX_TURNS {
            return Err(Step::Failed(Cause::Read));
        }
        match reader.read_now(buffer) {
            Ok(0) => Err(Step::Ended),
            Ok(count) => {
                self.reads += 1;
                self.read += count as u64;
                self.start = 0;
                self.end = count;
                Ok(count)
            }
            Err(Halt::NotNow) => Err(Step::WaitsToRead),
            Err(Halt::Failed) => Err(Step::Failed(Cause::Read)),
        }
    }

    /// Writes once of what the buffer keeps. Where it takes none, nothing changes here.
    pub fn drain_now<W: ReadySink>(&mut self, writer: &mut W, buffer: &[u8]) -> Result<(), Halt>
        requires room { self.old.end ≤ length buffer.now }
        ensures ok { OnOk result (HasWritten W.tells (W.written writer.old) (W.written writer.new) self.old buffer.now self.new) }
        ensures some { Keeps self.old → OnOk result (self.old.written < self.new.written) }
        ensures calm { OnOk result (W.failures writer.new ≡ W.failures writer.old) }
        ensures halted { IfErr result (HasCounted (W.failures writer.old) (W.failures writer.new)) }
        ensures kept { OnErr result (Grows W.tells (W.written writer.old) (W.written writer.new) []) }
        ensures err { OnErr result (self.new ≡ self.old) }
    {
        let count = writer.write_now(&buffer[self.start..self.end])?;
        self.written += count as u64;
        self.start += count;
        Ok(())
    }

    /// Writes what the buffer keeps, until nothing is kept, or the writer has no room or fails.
    pub fn drain_all_now<W: ReadySink>(&mut self, writer: &mut W, buffer: &[u8]) -> Result<(), Halt>
        requires room { Keeps self.old → self.old.end ≤ length buffer.now }
        ensures bytes { HasWritten W.tells (W.written writer.old) (W.written writer.new) self.old buffer.now self.new }
        ensures ok { OnOk result (¬ Keeps self.new) }
        ensures calm { OnOk result (W.failures writer.new ≡ W.failures writer.old) }
        ensures halted { IfErr result (HasCounted (W.failures writer.old) (W.failures writer.new)) }
        ensures kept { OnErr result (Keeps self.new) }
    {
        while self.keeps() {
            if let Err(halt) = self.drain_now(writer, buffer) {
                return Err(halt);
            }
        }
        Ok(())
    }

    /// The bytes that are kept were moved to the start of another buffer.
    pub fn moves_to_a_start(&mut self)
        ensures { self.new ≡ from_its_start self.old }
    {
        self.end -= self.start;
        self.start = 0;
    }

    /// What is kept of a buffer.
    pub fn kept<'a>(&self, buffer: &'a [u8]) -> &'a [u8]
        requires room { self.now.end ≤ length buffer.now }
        ensures { result.now ≡ kept self.now buffer.now }
    {
        &buffer[self.start..self.end]
    }
}
