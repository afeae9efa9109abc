//! Why a socket can't be had, which is said as it happens; `listeners` and `sockets` answer it.

use log::{Log, error};
use std::fmt::Display;
use std::io;

/// Why the proxy doesn't start.
#[derive(Debug, Drop)]
pub(crate) enum BindFault {
    /// A socket can't be had. That was said on standard error.
    Said,
    /// Nothing can be said.
    Unsaid(io::Error),
}

impl From<io::Error> for BindFault {
    fn from(reason: io::Error) -> BindFault {
        BindFault::Unsaid(reason)
    }
}

/// Says on standard error that a place can't be bound.
pub(crate) fn say_unbound<R: Log, P: Display + Drop, D: Display + Drop>(
    rt: &R,
    place: P,
    reason: D,
) -> BindFault {
    error!(rt; "{place} can't be bound: {reason}");
    BindFault::Said
}

/// Says on standard error that there is no memory.
pub(crate) fn say_no_memory<R: Log>(rt: &R) -> BindFault {
    error!(rt; "out of memory");
    BindFault::Said
}
