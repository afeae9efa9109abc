//! How the system finds out that a peer is gone; `tcp_proxy` sets it on the listener, `ServerSocket` on its socket.

ghost use Rattle.std.specs.Prelude.{◌≡◌};
ghost use Rattle.tcp_link.specs.Keepalives.{user_timeout};

use crate::Keepalive;
use crate::calls::set_option;
use libc::net::{IPPROTO_TCP, TCP_USER_TIMEOUT};
use std::io;
use std::net::Net;
use std::os::fd::{AsRawFd, RawFd};

/// How long bytes may stay unacknowledged at most, in ms: what the system takes as a number (tcp(7), `TCP_USER_TIMEOUT`).
const LONGEST: u64 = 0x7fff_ffff;

/// How the system finds out that a peer is gone.
#[derive(Clone, Copy, Debug, PartialEq, Eq)]
pub struct Liveness {
    /// When a silent peer is asked whether it is still there. None: never.
    pub keepalive: Option<Keepalive>,
    /// How long bytes may stay unacknowledged. None: as long as the system lets them.
    pub user_timeout: Option<UserTimeout>,
}

impl Liveness {
    /// Has the system go by it at a socket, and at those that a listener accepts. What the system does then no contract says.
    pub fn apply(self, _rt: &impl Net, socket: &impl AsRawFd) -> io::Result<()> {
        let socket = socket.as_raw_fd();
        if let Some(keepalive) = self.keepalive {
            keepalive.apply(socket)?;
        }
        match self.user_timeout {
            Some(user_timeout) => user_timeout.apply(socket),
            None => Ok(()),
        }
    }
}

/// How long bytes that were sent may stay unacknowledged before the system gives the connection up (tcp(7), `TCP_USER_TIMEOUT`). It
/// counts a peer that answers, but has no room, as one that acknowledges nothing.
#[derive(Clone, Copy, Debug, PartialEq, Eq)]
pub struct UserTimeout {
    /// In ms, at least 1: the system takes 0 for its own time.
    pub time: u32,
}

impl UserTimeout {
    /// So many ms: at least 1, and at most 2^31 - 1.
    pub fn of(time: u64) -> UserTimeout
        ensures { result ≡ user_timeout time }
    {
        UserTimeout {
            time: time.clamp(1, LONGEST) as u32,
        }
    }

    /// Has the system go by it at a socket.
    fn apply(self, socket: RawFd) -> io::Result<()> {
        set_option(socket, IPPROTO_TCP, TCP_USER_TIMEOUT, self.time)
    }
}
