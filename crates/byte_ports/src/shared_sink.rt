//! A sink over a `GatheringSink` in a cell, which others see too; `table_socket` writes its answers to it.

ghost use Rattle.std.specs.Prelude.{◌≡◌, ◌<◌, ◌≤◌, length, IfOk};

use crate::gathering_sink::GatheringSink;
use crate::{Failed, Sink};
use std::cell::RefCell;

/// A sink whose bytes are gathered there. Contracts see how often a call failed, and not the bytes: none knows what a
/// cell holds.
#[derive(Drop)]
pub struct SharedSink<'a, W> {
    gathered: &'a RefCell<GatheringSink<W>>,
    failures: u64,
}

impl<'a, W: Sink> SharedSink<'a, W> {
    /// A sink of what is to be gathered there.
    pub fn new(gathered: &'a RefCell<GatheringSink<W>>) -> Self
        ensures { result.failures ≡ 0 }
    {
        SharedSink {
            gathered,
            failures: 0,
        }
    }

    /// Gathers a prefix of these bytes.
    fn gather(&self, bytes: &[u8]) -> Result<usize, Failed>
        ensures bound { IfOk result (λ count. count ≤ length bytes.now) }
        ensures some { 0 < length bytes.now → IfOk result (λ count. 0 < count) }
    {
        match self.gathered.try_borrow_mut() {
            Ok(mut sink) => sink.write(bytes),
            Err(_) => Err(Failed),
        }
    }
}

impl<'a, W: Sink> Sink for SharedSink<'a, W> {
    ghost use Rattle.std.specs.Prelude.{[]};

    ghost tells = { ⊥ };

    ghost written = { λ _. [] };

    ghost failures = { λ sink. sink.failures };

    fn write(&mut self, bytes: &[u8]) -> Result<usize, Failed> {
        match self.gather(bytes) {
            Ok(count) => Ok(count),
            Err(_) => {
                self.failures = self.failures.wrapping_add(1);
                Err(Failed)
            }
        }
    }
}
