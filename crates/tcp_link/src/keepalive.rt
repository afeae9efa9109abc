//! When the system asks a silent peer whether it is still there; `Liveness` has it, beside how long bytes may stay unacknowledged.

ghost use Rattle.std.specs.Prelude.{◌≡◌};
ghost use Rattle.tcp_link.specs.Keepalives.{keepalive};

use crate::calls::set_option;
use libc::net::{IPPROTO_TCP, SO_KEEPALIVE, SOL_SOCKET, TCP_KEEPCNT, TCP_KEEPIDLE, TCP_KEEPINTVL};
use std::io;
use std::os::fd::RawFd;

/// How often a silent peer is asked before its connection has failed.
const PROBES: u32 = 3;

/// How long a peer may be silent at most before it is asked, in seconds (tcp(7), `TCP_KEEPIDLE`).
const LONGEST: u64 = 32_767;

/// When the system asks a silent peer whether it is still there (tcp(7)). How long bytes may stay unacknowledged it doesn't say: that
/// is `UserTimeout`'s.
#[derive(Clone, Copy, Debug, PartialEq, Eq)]
pub struct Keepalive {
    /// After how many seconds of silence it is asked (`TCP_KEEPIDLE`).
    pub idle: u32,
    /// After how many further seconds it is asked again (`TCP_KEEPINTVL`).
    pub interval: u32,
    /// How often it is asked (`TCP_KEEPCNT`).
    pub probes: u32,
}

impl Keepalive {
    /// Asks a peer that has been silent for so many ms, three times within as long again. Both are of whole seconds, rounded up,
    /// and the first is at most 32,767 of them.
    pub fn of(time: u64) -> Keepalive
        ensures { result ≡ keepalive time }
    {
        let idle = time.div_ceil(1000).clamp(1, LONGEST) as u32;
        let interval = idle.div_ceil(3);
        Keepalive {
            idle,
            interval,
            probes: PROBES,
        }
    }

    /// Has the system ask the peer of a socket so, and those of the sockets that a listener accepts. What the system does then
    /// no contract says.
    pub(crate) fn apply(self, socket: RawFd) -> io::Result<()> {
        set_option(socket, SOL_SOCKET, SO_KEEPALIVE, 1)?;
        set_option(socket, IPPROTO_TCP, TCP_KEEPIDLE, self.idle)?;
        set_option(socket, IPPROTO_TCP, TCP_KEEPINTVL, self.interval)?;
        set_option(socket, IPPROTO_TCP, TCP_KEEPCNT, self.probes)
    }
}
