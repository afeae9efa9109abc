//! A source that writes what is gathered before each read; `table_socket` reads its clients through it.

ghost use Rattle.std.specs.Prelude.{◌≡◌};

use crate::gathering_sink::GatheringSink;
use crate::{Failed, Sink, Source};
use std::cell::RefCell;

/// Has what is gathered written.
pub fn flush_shared<W: Sink>(gathered: &RefCell<GatheringSink<W>>) -> Result<(), Failed> {
    match gathered.try_borrow_mut() {
        Ok(mut sink) => sink.flush(),
        Err(_) => Err(Failed),
    }
}

/// A source that has what is gathered written before each read, which may wait for what the other side sends once it has
/// its answers. A failure of that write is one of this read. Contracts see what the source behind tells.
#[derive(Drop)]
pub struct FlushingSource<'a, R, W> {
    reader: R,
    gathered: &'a RefCell<GatheringSink<W>>,
    failures: u64,
}

impl<'a, R: Source, W: Sink> FlushingSource<'a, R, W> {
    /// A source of what this one reads, each time behind what is gathered there.
    pub fn new(reader: R, gathered: &'a RefCell<GatheringSink<W>>) -> Self
        ensures reader { result.reader ≡ reader }
        ensures failures { result.failures ≡ 0 }
    {
        FlushingSource {
            reader,
            gathered,
            failures: 0,
        }
    }
}

impl<'a, R: Source, W: Sink> Source for FlushingSource<'a, R, W> {
    ghost tells = { R.tells };

    ghost left = { λ source. R.left source.reader };

    ghost failures = { λ source. source.failures };

    fn read(&mut self, buffer: &mut [u8]) -> Result<usize, Failed> {
        if flush_shared(self.gathered).is_err() {
            self.failures = self.failures.wrapping_add(1);
            return Err(Failed);
        }
        match self.reader.read(buffer) {
            Ok(count) => Ok(count),
            Err(_) => {
                self.failures = self.failures.wrapping_add(1);
                Err(Failed)
            }
        }
    }
}
