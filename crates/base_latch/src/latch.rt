//! Something that is set once and stays set, and wakes whoever waits for it.

use crate::waits::{looked_for, poll_time};
use libc::net::{EFD_CLOEXEC, EFD_NONBLOCK, eventfd, poll};
use os::FromRawFd;
use std::io;
use std::os::fd::{AsRawFd, OwnedFd, RawFd};
use std::sync::Wait;
use std::sync::atomic::{AtomicBool, Ordering};

/// Something that is set once, and stays set. A thread that waits for it sleeps until then, so that it is woken for nothing else.
/// Threads share it. Its descriptor is readable once it is set, so that it can be watched beside sockets (epoll(7)).
#[derive(Drop)]
pub struct Latch {
    is_set: AtomicBool,
    /// A counter of the system's, which is readable once it isn't 0 (eventfd(2)).
    counter: OwnedFd,
}

impl Latch {
    /// A latch that isn't set. An error is that of eventfd(2), as where no descriptor is left.
    pub fn open() -> io::Result<Latch> {
        let counter = eventfd(0, EFD_CLOEXEC | EFD_NONBLOCK);
        if counter < 0 {
            return Err(io::Error::from_raw_os_error(os::errno()));
        }
        Ok(Latch {
            is_set: AtomicBool::new(false),
            counter: unsafe { OwnedFd::from_raw_fd(counter) },
        })
    }

    /// Sets it, and wakes all that wait for it.
    pub fn set(&self) {
        self.is_set.store(true, Ordering::SeqCst);
        // A counter that can't be raised any more is readable.
        let _ = libc::write(self.counter.as_raw_fd(), &1u64.to_ne_bytes());
    }

    /// Whether it is set.
    pub fn is_set(&self) -> bool {
        self.is_set.load(Ordering::SeqCst)
    }

    /// The same, for those that only look.
    pub fn flag(&self) -> &AtomicBool {
        &self.is_set
    }

    /// Waits until it is set, for so many ms at most, where that is said. A signal may end it sooner (poll(2)).
    pub fn wait(&self, _rt: &impl Wait, most: Option<u64>) {
        let mut watched = [looked_for(self.counter.as_raw_fd())];
        let _ = poll(&mut watched, poll_time(most));
    }

    /// Waits until it is set, or there is something to read or to accept. A signal may end it sooner (poll(2)).
    pub fn wait_beside(&self, _rt: &impl Wait, other: &impl AsRawFd) {
        let mut watched = [
            looked_for(self.counter.as_raw_fd()),
            looked_for(other.as_raw_fd()),
        ];
        let _ = poll(&mut watched, poll_time(None));
    }
}

impl AsRawFd for Latch {
    fn as_raw_fd(&self) -> RawFd {
        self.counter.as_raw_fd()
    }
}
