//! The socket by which the service manager is told; `tcp_proxy` makes one as it starts.

use crate::notify_address::NotifyAddress;
use libc::net::{AF_UNIX, MSG_DONTWAIT, MSG_NOSIGNAL, SOCK_CLOEXEC, SOCK_DGRAM, sendto, socket};
use os::FromRawFd;
use std::io;
use std::os::fd::{AsRawFd, OwnedFd};

/// A socket to the service manager.
#[derive(Drop)]
pub struct Notifier {
    socket: OwnedFd,
    address: NotifyAddress,
}

impl Notifier {
    /// A socket that sends to this address. It fails where the system has none.
    pub fn open(address: NotifyAddress) -> io::Result<Notifier> {
        let descriptor = unsafe { socket(AF_UNIX, SOCK_DGRAM | SOCK_CLOEXEC, 0) };
        if descriptor < 0 {
            return Err(io::Error::from_raw_os_error(os::errno()));
        }
        let socket = unsafe { OwnedFd::from_raw_fd(descriptor) };
        Ok(Notifier { socket, address })
    }

    /// Sends a message. One that can't be sent is lost: the program serves all the same.
    pub fn send(&self, text: &[u8]) {
        let flags = MSG_NOSIGNAL | MSG_DONTWAIT;
        let NotifyAddress { bytes, length } = &self.address;
        let _ = unsafe { sendto(self.socket.as_raw_fd(), text, flags, bytes, *length) };
    }
}
