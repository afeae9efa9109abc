//! Standard output and standard error, for neither of which anybody waits longer than is told; a runtime is `Attended` by one.

use crate::marks::{LostLines, mark_of};
use crate::outlet::{Outlet, Unwritten};
use crate::pieces::Pieces;
use log::Level;
use std::fmt::{Display, Formatter};
use std::fs::Files;
use std::io;
use std::sync::atomic::{AtomicBool, AtomicU64, Ordering};

/// How many ms a console waits in all, where nothing else is told: as a program starts, and as it ends.
pub const PATIENCE: u64 = 1_000;

/// Standard output and standard error. Several threads may share one.
#[derive(Drop)]
pub struct Console {
    output: Outlet,
    errors: Outlet,
    /// Whether standard error is a terminal, where a human reads.
    is_terminal: bool,
    /// How many ms may still be waited for room.
    patience: AtomicU64,
    /// How many lines of standard error are lost, and aren't told of yet.
    lost: AtomicU64,
    /// Whether the last line there stopped part way.
    is_torn: AtomicBool,
}

/// Formats a text, and then what ends it, into an outlet.
fn write_to<D: Display + Drop>(
    outlet: &Outlet,
    patience: &AtomicU64,
    before: &str,
    text: D,
    end: &str,
) -> Result<(), Unwritten> {
    let mut formatter = Formatter::new(Pieces::new(outlet, patience));
    let is_formatted = formatter.write(before).is_ok()
        && formatter.write(text).is_ok()
        && formatter.write(end).is_ok();
    formatter.into_inner().finish(is_formatted)
}

impl Console {
    /// That of the process.
    pub fn open<R: Files>(rt: &R) -> Console {
        Console {
            output: Outlet::open(rt, libc::STDOUT_FILENO, "/proc/self/fd/1"),
            errors: Outlet::open(rt, libc::STDERR_FILENO, "/proc/self/fd/2"),
            is_terminal: libc::isatty(libc::STDERR_FILENO) == 1,
            patience: AtomicU64::new(PATIENCE),
            lost: AtomicU64::new(0),
            is_torn: AtomicBool::new(false),
        }
    }

    /// From now on so many ms may be waited for room in all. With 0 nobody waits.
    pub fn wait_at_most(&self, patience: u64) {
        self.patience.store(patience, Ordering::SeqCst);
    }

    /// What stands in front of a line of this level.
    pub fn mark(&self, level: Level) -> &'static str {
        mark_of(level, self.is_terminal)
    }

    /// Writes to standard error, on a line of its own where the last one stopped part way. Answers whether all is written.
    fn try_say<D: Display + Drop>(&self, mark: &str, text: D, end: &str) -> bool {
        let was_torn = self.is_torn.swap(false, Ordering::SeqCst);
        if was_torn && write_to(&self.errors, &self.patience, "", "", "\n").is_err() {
            self.is_torn.store(true, Ordering::SeqCst);
            return false;
        }
        match write_to(&self.errors, &self.patience, mark, text, end) {
            Ok(()) => true,
            Err(Unwritten { is_torn, reason: _ }) => {
                self.is_torn.store(is_torn, Ordering::SeqCst);
                false
            }
        }
    }

    /// Says how many lines were lost, if any were, and there is room for that. Answers whether nothing is left to tell.
    pub fn say_lost(&self) -> bool {
        let count = self.lost.swap(0, Ordering::SeqCst);
        if count == 0 || self.try_say(self.mark(Level::Warn), LostLines(count), "\n") {
            return true;
        }
        self.lost.fetch_add(count, Ordering::SeqCst);
        false
    }

    /// Writes to standard error, what was lost before it first. What can't be written in time is lost, and counted.
    pub fn say<D: Display + Drop>(&self, mark: &str, text: D, end: &str) {
        if !self.say_lost() || !self.try_say(mark, text, end) {
            self.lost.fetch_add(1, Ordering::SeqCst);
        }
    }

    /// Writes to standard output. It fails where there is no room in time (`WouldBlock`).
    pub fn print<D: Display + Drop>(&self, text: D, end: &str) -> io::Result<()> {
        match write_to(&self.output, &self.patience, "", text, end) {
            Ok(()) => Ok(()),
            Err(Unwritten { is_torn: _, reason }) => Err(reason),
        }
    }

    /// Writes bytes to standard output.
    pub fn write(&self, bytes: &[u8]) -> io::Result<()> {
        for piece in bytes.chunks(crate::pieces::PIECE) {
            match self.output.write(piece, &self.patience) {
                Ok(()) => {}
                Err(Unwritten { is_torn: _, reason }) => return Err(reason),
            }
        }
        Ok(())
    }
}
