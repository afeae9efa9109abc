//! A source over a reader of std, whose bytes no contract sees; `stickd` and `table_socket` read from it.

ghost use Rattle.std.specs.Prelude.{◌≡◌};

use crate::{Failed, Source};
use std::io::Read;
use std::marker::Model;

/// A source over a reader of std. Contracts see how often a call failed.
#[derive(Drop)]
pub struct StreamSource<R> {
    reader: R,
    failures: u64,
}

impl<R> Model for StreamSource<R> {
    ghost use Rattle.std.specs.Prelude.{ℕ};

    ghost Value = { ℕ };

    ghost view = { λ source. source.failures };
}

impl<R: Read> StreamSource<R> {
    /// A source over this reader.
    pub fn new(reader: R) -> Self
        ensures { result ≡ 0 }
    {
        StreamSource {
            reader,
            failures: 0,
        }
    }
}

impl<R: Read> Source for StreamSource<R> {
    ghost use Rattle.std.specs.Prelude.{[]};

    ghost tells = { ⊥ };

    ghost left = { λ _. [] };

    ghost failures = { λ failures. failures };

    fn read(&mut self, buffer: &mut [u8]) -> Result<usize, Failed> {
        match self.reader.read(buffer) {
            Ok(count) => Ok(count),
            Err(_) => {
                self.failures = self.failures.wrapping_add(1);
                Err(Failed)
            }
        }
    }
}
