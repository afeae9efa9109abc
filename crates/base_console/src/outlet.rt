//! A descriptor that is written to without a wait for who reads; `console` has two.

use crate::attempt::{Attempt, attempt_of};
use crate::patience::{STEP, left_after};
use crate::way::{Kind, Way, way_of};
use libc::net::{MSG_DONTWAIT, MSG_NOSIGNAL, POLLOUT, poll, send};
use libc::types::pollfd;
use os::FromRawFd;
use std::fs::{self, Files, Metadata};
use std::io::{self, ErrorKind};
use std::os::fd::{AsRawFd, OwnedFd};
use std::os::unix::fs::FileTypeExt;
use std::sync::atomic::{AtomicU64, Ordering};

/// Why a piece isn't written, and whether some of it is.
#[derive(Debug, Drop)]
pub struct Unwritten {
    pub is_torn: bool,
    pub reason: io::Error,
}

/// A descriptor that is written to without a wait for who reads.
#[derive(Debug, Drop)]
pub struct Outlet {
    number: i32,
    way: Way,
    /// The description of the program's own.
    own: Option<OwnedFd>,
}

/// What a file that was looked up is.
fn kind_of(found: io::Result<Metadata>) -> Kind {
    let Ok(found) = found else {
        return Kind::Unknown;
    };
    let file_type = found.file_type();
    if file_type.is_fifo() {
        return Kind::Pipe;
    }
    if file_type.is_socket() {
        return Kind::Socket;
    }
    if file_type.is_char_device() {
        return Kind::Device;
    }
    Kind::File
}

/// Opens once more what is open at a path of /proc/self/fd, so that no write there waits. A pipe's and a terminal's flags are then the
/// program's own (proc_pid_fd(5)).
fn reopen(path: &str) -> Option<OwnedFd> {
    let flags = libc::O_WRONLY | libc::O_NONBLOCK | libc::O_NOCTTY | libc::O_CLOEXEC;
    let descriptor = os::open_with(path.as_bytes(), flags, 0);
    if descriptor < 0 {
        return None;
    }
    Some(unsafe { OwnedFd::from_raw_fd(descriptor) })
}

/// The description of the program's own of what is open at a path, where it is of a kind that has readers.
fn own_of(kind: Kind, path: &str) -> Option<OwnedFd> {
    match kind {
        Kind::Pipe | Kind::Device => reopen(path),
        Kind::File | Kind::Socket | Kind::Unknown => None,
    }
}

/// What a call came to that answered this.
fn attempt_by(answer: isize) -> Attempt {
    attempt_of(usize::try_from(answer).ok(), os::errno().cast_unsigned())
}

impl Outlet {
    /// Standard output or standard error, by its number.
    pub fn open<R: Files>(rt: &R, number: i32, path: &str) -> Outlet {
        let kind = kind_of(fs::metadata(rt, path));
        let own = own_of(kind, path);
        let way = way_of(kind, own.is_some());
        Outlet { number, way, own }
    }

    /// What is written to.
    fn descriptor(&self) -> i32 {
        match &self.own {
            Some(own) => own.as_raw_fd(),
            None => self.number,
        }
    }

    /// Whether a write finds room, or an error, within so many ms.
    fn awaits_room(&self, wait: i32) -> bool {
        let mut asked = [pollfd {
            fd: self.descriptor(),
            events: POLLOUT,
            revents: 0,
        }];
        poll(&mut asked, wait) > 0
    }

    /// Writes once.
    fn attempt(&self, bytes: &[u8]) -> Attempt {
        match self.way {
            Way::Sent => attempt_by(unsafe {
                send(self.number, bytes, MSG_NOSIGNAL | MSG_DONTWAIT)
            }),
            Way::Asked if !self.awaits_room(0) => Attempt::Full,
            Way::AtOnce | Way::Reopened | Way::Asked => {
                attempt_by(libc::write(self.descriptor(), bytes))
            }
        }
    }

    /// Waits for room for one step, as long as that may be waited for. False where it may not.
    fn await_room(&self, patience: &AtomicU64) -> bool {
        let left = patience.load(Ordering::SeqCst);
        let Some(after) = left_after(left) else {
            return false;
        };
        if !self.awaits_room(STEP as i32) {
            patience.store(after, Ordering::SeqCst);
        }
        true
    }

    /// Writes all of a piece of at most PIPE_BUF bytes, and spends of these ms what it waits. It fails where there is no room in time
    /// (`WouldBlock`), and by the system's error.
    pub fn write(&self, piece: &[u8], patience: &AtomicU64) -> Result<(), Unwritten> {
        let mut rest = piece;
        for _try in 0..u64::MAX {
            if rest.is_empty() {
                return Ok(());
            }
            let reason = match self.attempt(rest) {
                Attempt::Took(count) => {
                    rest = rest.get(count..).unwrap_or(&[]);
                    continue;
                }
                Attempt::Interrupted => continue,
                Attempt::Full if self.await_room(patience) => continue,
                Attempt::Full => io::Error::from(ErrorKind::WouldBlock),
                Attempt::Failed(error) => io::Error::from_raw_os_error(error.cast_signed()),
            };
            let is_torn = rest.len() < piece.len();
            return Err(Unwritten { is_torn, reason });
        }
        Ok(())
    }
}
