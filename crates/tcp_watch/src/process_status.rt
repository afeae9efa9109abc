//! The status of the process, kept open; `tcp_proxy` looks at it ten times a second for signals that wait.

ghost use Rattle.std.specs.Prelude.{◌≤◌};

use crate::pending::{StopSignal, count_pending, is_blocked};
use os::FromRawFd;
use std::io;
use std::os::fd::{AsRawFd, OwnedFd};

/// Where the system says which signals wait for the process (proc_pid_status(5)).
const STATUS: &[u8] = b"/proc/self/status";

/// How many bytes of it are read. It takes less than half of that.
const MOST_BYTES: usize = 4096;

/// The status of the process. It is opened once and read anew at each look.
#[derive(Drop)]
pub struct ProcessStatus {
    file: OwnedFd,
}

impl ProcessStatus {
    /// Opens it. It fails where the system has none, or there is no descriptor for it.
    pub fn open() -> io::Result<ProcessStatus> {
        let descriptor = os::open_read(STATUS);
        if descriptor < 0 {
            return Err(io::Error::from_raw_os_error(os::errno()));
        }
        let file = unsafe { OwnedFd::from_raw_fd(descriptor) };
        Ok(ProcessStatus { file })
    }

    /// Whether a signal that asks the program to stop is blocked. Where the system doesn't say, it isn't.
    pub fn blocks(&self, stop: StopSignal) -> bool {
        let mut status = [0; MOST_BYTES];
        let count = self.read(&mut status);
        is_blocked(stop, &status[..count])
    }

    /// How many such signals wait to be delivered: 0, 1 or 2.
    pub fn count_pending(&self) -> u32 {
        let mut status = [0; MOST_BYTES];
        let count = self.read(&mut status);
        count_pending(&status[..count])
    }

    /// Reads it, and answers how many bytes came.
    fn read(&self, status: &mut [u8; MOST_BYTES]) -> usize
        ensures { result ≤ 4096 }
    {
        let count = libc::pread(self.file.as_raw_fd(), status, 0);
        usize::try_from(count).unwrap_or(0).min(MOST_BYTES)
    }
}
