//! Where a direction's bytes go, as they are written to the socket; `Way` writes through it.

ghost use Rattle.std.specs.Prelude.{◌≡◌, true, false};

use crate::end::End;
use std::io::{self, ErrorKind, Write};

/// A receiver of bytes. A server that may still refuse them takes none before it has accepted the connection: a write to one that
/// has refused fails, and what it should have written would be lost.
#[derive(Drop)]
pub(crate) struct Outgoing<'a> {
    end: &'a End,
    /// Whether the system is asked before a write whether it is connected.
    is_asked: bool,
}

impl<'a> Outgoing<'a> {
    /// The receiver behind an end's socket, which may not be connected where it is asked first.
    pub(crate) fn new(end: &'a End, is_asked: bool) -> Outgoing<'a>
        ensures { result.is_asked ≡ is_asked }
    {
        Outgoing { end, is_asked }
    }

    /// Whether it may be written to.
    fn is_open(&self) -> bool
        ensures { self.now.is_asked ≡ false → result ≡ true }
    {
        !self.is_asked || self.end.socket.peer_addr().is_ok()
    }
}

impl Write for Outgoing<'_> {
    /// Writes once. Until it is connected there is no room.
    fn write(&mut self, bytes: &[u8]) -> io::Result<usize> {
        if !self.is_open() {
            return Err(io::Error::from(ErrorKind::WouldBlock));
        }
        let mut socket = &self.end.socket;
        match socket.write(bytes) {
            Ok(count) => Ok(count),
            Err(error) => {
                self.end.note_error(&error);
                Err(error)
            }
        }
    }

    fn flush(&mut self) -> io::Result<()> {
        Ok(())
    }
}
