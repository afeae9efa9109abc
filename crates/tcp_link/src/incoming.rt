//! What a peer sends, as it is read of the socket; `Way` reads through it.

ghost use Rattle.std.specs.Prelude.{◌≡◌, ◌&&◌, Ok, true, false, length, nat_lt, IfOk, OnErr};
ghost use Rattle.std.specs.Io.{ReadsAtMost};
ghost use Rattle.tcp_link.specs.Aheads.{is_last};

use crate::Ahead;
use crate::end::End;
use std::io::{self, ErrorKind, Read};

/// What a peer sends. Where all of it is there already, the read behind the last needs no call of the system to find the end.
#[derive(Drop)]
pub(crate) struct Incoming<'a> {
    end: &'a End,
    ahead: Ahead,
    /// Whether the last read was made.
    is_empty: bool,
}

impl<'a> Incoming<'a> {
    /// What comes through an end's socket, of which so much is known.
    pub(crate) fn new(end: &'a End, ahead: Ahead) -> Incoming<'a>
        ensures ahead { result.ahead ≡ ahead }
        ensures empty { result.is_empty ≡ false }
    {
        Incoming {
            end,
            ahead,
            is_empty: false,
        }
    }

    /// The next read. Behind the last there is nothing more.
    fn read_next(&mut self, buffer: &mut [u8]) -> io::Result<usize>
        ensures bound { ReadsAtMost result buffer.new }
        ensures end { self.old.is_empty ≡ true → result ≡ Ok 0 }
        ensures last { self.old.is_empty ≡ false → IfOk result (λ count. self.new.is_empty ≡ (is_last self.old.ahead && nat_lt count (length buffer.new))) }
        ensures ahead { self.new.ahead ≡ self.old.ahead }
        ensures err { OnErr result (self.new ≡ self.old) }
    {
        if self.is_empty {
            return Ok(0);
        }
        let mut socket = &self.end.socket;
        match socket.read(buffer) {
            // It was reset, and a write has taken the error.
            Ok(0) if !self.end.has_told_end() => {
                Err(io::Error::from(ErrorKind::ConnectionReset))
            }
            Ok(count) => {
                self.is_empty = self.ahead.is_last() && count < buffer.len();
                Ok(count)
            }
            Err(error) => {
                self.end.note_error(&error);
                Err(error)
            }
        }
    }
}

impl Read for Incoming<'_> {
    fn read(&mut self, buffer: &mut [u8]) -> io::Result<usize> {
        self.read_next(buffer)
    }
}
