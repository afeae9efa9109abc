//! A sink over a writer of std, whose bytes no contract sees; `stickd` and `table_socket` write to it.

ghost use Rattle.std.specs.Prelude.{◌≡◌};

use crate::{Failed, Sink};
use std::io::Write;
use std::marker::Model;

/// A sink over a writer of std. A write that takes none of some bytes is a failure. Contracts see how often a call
/// failed.
#[derive(Drop)]
pub struct StreamSink<W> {
    writer: W,
    failures: u64,
}

impl<W> Model for StreamSink<W> {
    ghost use Rattle.std.specs.Prelude.{ℕ};

    ghost Value = { ℕ };

    ghost view = { λ sink. sink.failures };
}

impl<W: Write> StreamSink<W> {
    /// A sink over this writer.
    pub fn new(writer: W) -> Self
        ensures { result ≡ 0 }
    {
        StreamSink {
            writer,
            failures: 0,
        }
    }
}

impl<W: Write> Sink for StreamSink<W> {
    ghost use Rattle.std.specs.Prelude.{[]};

    ghost tells = { ⊥ };

    ghost written = { λ _. [] };

    ghost failures = { λ failures. failures };

    fn write(&mut self, bytes: &[u8]) -> Result<usize, Failed> {
        match self.writer.write(bytes) {
            Ok(count) if count > 0 || bytes.is_empty() => Ok(count),
            _ => {
                self.failures = self.failures.wrapping_add(1);
                Err(Failed)
            }
        }
    }
}
