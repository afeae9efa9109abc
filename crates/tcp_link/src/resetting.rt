//! The close of a connection by a reset; `tcp_relay` resets rejected clients, and `End` what it was sent too little.

use libc::net::{_SS_SIZE, POLLOUT, SO_SNDBUF, SOL_SOCKET, connect, poll, setsockopt};
use libc::types::pollfd;
use mio::net::TcpStream;
use std::net::Net;
use std::os::fd::AsRawFd;

/// How long an address is that names no family: `connect` to it ends a connection (connect(2), `AF_UNSPEC`).
const NOWHERE: u32 = 16;

/// Closes a connection by a reset in place of the orderly end: its peer is told at once, and the system has nothing more to do
/// for it. A peer that sees a reset reads nothing of what it hasn't read yet. What the system tells a peer no contract says.
pub fn reset(_rt: &impl Net, stream: TcpStream) {
    // Where it can't be reset, as it is gone already, closing it is all there is to do.
    let _ = unsafe { connect(stream.as_raw_fd(), &[0u8; _SS_SIZE], NOWHERE) };
}

/// Whether a peer has taken what was written, as far as the system tells it: a socket whose buffer is the least has room for more
/// only where less than 2,000 bytes are still on their way (socket(7), `SO_SNDBUF`). One that has failed has taken all it ever will.
pub(crate) fn has_taken_all(stream: &TcpStream) -> bool {
    let socket = stream.as_raw_fd();
    let mut least = [0u8; 16];
    least[0] = 1;
    // Where it can't be made so small, it has room the sooner.
    let _ = unsafe { setsockopt(socket, SOL_SOCKET, SO_SNDBUF, &least, 4) };
    let mut asked = [pollfd {
        fd: socket,
        events: POLLOUT,
        revents: 0,
    }];
    poll(&mut asked, 0) != 0
}
