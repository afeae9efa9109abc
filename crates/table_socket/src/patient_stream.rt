//! A client's stream, which waits for it no longer than its times; `clients` accepts and serves by it.

use crate::accepting::ClientStream;
use crate::patience::{AfterPatience, PATIENCE, after_patience};
use std::io::{self, ErrorKind, Read, Write};
use std::os::unix::net::UnixStream;
use std::sync::atomic::{AtomicBool, Ordering};
use std::time::{Clock, Duration, Instant};

/// A client's stream. A read or a write fails once the client has sent or taken nothing for so many patiences, once its time is over, and
/// within one patience of the stop. A write that takes some bytes is done, so that each call has all the patiences.
#[derive(Drop)]
pub(crate) struct PatientStream<'a, R> {
    pub rt: &'a R,
    pub stream: &'a ClientStream,
    pub stop: &'a AtomicBool,
    /// How many patiences a client has.
    pub most: u64,
    /// When its time for all that it came for is over, if that ever is.
    pub end: Option<Instant>,
}

impl<'a, R: Clock> PatientStream<'a, R> {
    /// Whether the program stops.
    fn is_stopping(&self) -> bool {
        self.stop.load(Ordering::SeqCst)
    }

    /// Whether the client's time is over. It is where no clock can be read.
    fn is_late(&self) -> bool {
        match self.end {
            Some(end) => match Instant::now(self.rt) {
                Ok(now) => now.checked_duration_since(end).is_some(),
                Err(_) => true,
            },
            None => false,
        }
    }

    /// Why a call fails once so many patiences have passed. None where it is to be tried again.
    fn failure_after(&self, passed: u64) -> Option<io::Error> {
        match after_patience(passed, self.most, self.is_late(), self.is_stopping()) {
            AfterPatience::TryAgain => None,
            AfterPatience::Stop => Some(io::Error::from(ErrorKind::ConnectionAborted)),
            AfterPatience::GiveUp => Some(io::Error::from(ErrorKind::TimedOut)),
        }
    }
}

impl<'a, R: Clock> Read for PatientStream<'a, R> {
    /// Reads once. Where the program stops, or the client's time is over, it is asked for nothing more.
    fn read(&mut self, buf: &mut [u8]) -> io::Result<usize> {
        if let Some(reason) = self.failure_after(0) {
            return Err(reason);
        }
        for passed in 0..u64::MAX {
            match self.stream.read(buf) {
                Ok(count) => return Ok(count),
                Err(reason) if reason.kind() == ErrorKind::WouldBlock => {}
                Err(reason) => return Err(reason),
            }
            if let Some(reason) = self.failure_after(passed + 1) {
                return Err(reason);
            }
        }
        Err(io::Error::from(ErrorKind::TimedOut))
    }
}

impl<'a, R: Clock> Write for PatientStream<'a, R> {
    /// Writes once. An answer that its client takes in its time is written to its end, also where the program stops.
    fn write(&mut self, buf: &[u8]) -> io::Result<usize> {
        if self.is_late() {
            return Err(io::Error::from(ErrorKind::TimedOut));
        }
        for passed in 0..u64::MAX {
            match self.stream.write(buf) {
                Ok(count) => return Ok(count),
                Err(reason) if reason.kind() == ErrorKind::WouldBlock => {}
                Err(reason) => return Err(reason),
            }
            if let Some(reason) = self.failure_after(passed + 1) {
                return Err(reason);
            }
        }
        Err(io::Error::from(ErrorKind::TimedOut))
    }

    fn flush(&mut self) -> io::Result<()> {
        Ok(())
    }
}

/// Has the system wait no longer than a patience, each time, for what is sent on a stream and for what is taken.
pub(crate) fn set_patience(stream: &UnixStream) -> io::Result<()> {
    let patience = Some(Duration::from_millis(PATIENCE));
    stream.set_read_timeout(patience)?;
    stream.set_write_timeout(patience)
}
