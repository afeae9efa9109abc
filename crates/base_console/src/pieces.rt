//! A line on its way to an outlet, in pieces that a pipe takes whole or not at all; `console` formats into one.

use crate::outlet::{Outlet, Unwritten};
use std::sync::atomic::AtomicU64;
use std::{fmt, io};

/// How many bytes a piece has at most: as many as a pipe takes whole (PIPE_BUF, pipe(7)).
pub(crate) const PIECE: usize = 4096;

/// A line on its way to an outlet.
#[derive(Drop)]
pub(crate) struct Pieces<'a> {
    outlet: &'a Outlet,
    /// How many ms may still be waited for room.
    patience: &'a AtomicU64,
    bytes: [u8; PIECE],
    count: usize,
    /// Whether something of the line is written.
    is_begun: bool,
    /// Why the rest of it isn't.
    reason: Option<io::Error>,
}

impl<'a> Pieces<'a> {
    /// An empty line.
    pub fn new(outlet: &'a Outlet, patience: &'a AtomicU64) -> Pieces<'a> {
        Pieces {
            outlet,
            patience,
            bytes: [0; PIECE],
            count: 0,
            is_begun: false,
            reason: None,
        }
    }

    /// Writes what is gathered.
    fn flush(&mut self) -> fmt::Result {
        let piece = self.bytes.get(..self.count).unwrap_or(&[]);
        match self.outlet.write(piece, self.patience) {
            Ok(()) => {
                self.count = 0;
                self.is_begun = true;
                Ok(())
            }
            Err(Unwritten { is_torn, reason }) => {
                self.is_begun = self.is_begun || is_torn;
                self.reason = Some(reason);
                Err(fmt::Error)
            }
        }
    }

    /// Gathers one more byte.
    fn push(&mut self, byte: u8) -> fmt::Result {
        if self.count >= PIECE {
            self.flush()?;
        }
        if let Some(place) = self.bytes.get_mut(self.count) {
            *place = byte;
            self.count = self.count.saturating_add(1);
        }
        Ok(())
    }

    /// Ends the line: all of it is written, or the reason why it isn't, and whether its beginning is.
    pub fn finish(mut self, is_formatted: bool) -> Result<(), Unwritten> {
        if is_formatted && self.flush().is_ok() {
            return Ok(());
        }
        Err(Unwritten {
            is_torn: self.is_begun,
            reason: match self.reason {
                Some(reason) => reason,
                None => io::Error::from(io::ErrorKind::Other),
            },
        })
    }
}

impl<'a> fmt::Write for Pieces<'a> {
    fn write_str(&mut self, text: &str) -> fmt::Result {
        for byte in text.as_bytes() {
            self.push(*byte)?;
        }
        Ok(())
    }
}
