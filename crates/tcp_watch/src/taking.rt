//! Sockets by their numbers, as a service manager hands them over; `tcp_proxy` takes each once, as it starts.

use crate::handed::SocketFacts;
use libc::net::{
    AF_UNIX, IPPROTO_TCP, POLLIN, POLLOUT, TCP_NODELAY, getsockname, getsockopt, poll,
};
use libc::types::pollfd;
use os::FromRawFd;
use std::io::{self, ErrorKind};
use std::net::TcpListener;
use std::os::fd::OwnedFd;
use std::os::unix::net::UnixListener;

/// The error of the call before.
fn last_error() -> io::Error {
    io::Error::from_raw_os_error(os::errno())
}

/// The number of a descriptor, as the system takes it.
fn descriptor_of(number: u32) -> io::Result<i32> {
    i32::try_from(number).map_err(|_| io::Error::from(ErrorKind::InvalidInput))
}

/// The family of a socket's address (socket(2)).
fn family_of(descriptor: i32) -> io::Result<i32> {
    let mut address = [0u8; 128];
    let mut length = 128u32;
    if unsafe { getsockname(descriptor, &mut address, &mut length) } != 0 {
        return Err(last_error());
    }
    Ok(i32::from(u16::from_ne_bytes([address[0], address[1]])))
}

/// Whether a socket has options of TCP.
fn has_tcp_options(descriptor: i32) -> bool {
    let mut value = [0u8; 16];
    let mut length = 4u32;
    unsafe {
        getsockopt(
            descriptor,
            IPPROTO_TCP,
            TCP_NODELAY,
            &mut value,
            &mut length,
        ) == 0
    }
}

/// What can be done with a socket at once.
fn events_at(descriptor: i32) -> io::Result<u16> {
    let mut asked = [pollfd {
        fd: descriptor,
        events: POLLIN | POLLOUT,
        revents: 0,
    }];
    if poll(&mut asked, 0) < 0 {
        return Err(last_error());
    }
    Ok(u16::try_from(asked[0].revents).unwrap_or(u16::MAX))
}

/// What the system says of the socket of a number that was handed over. It fails where that is no socket.
pub fn look_at(number: u32) -> io::Result<SocketFacts> {
    let descriptor = descriptor_of(number)?;
    let family = family_of(descriptor)?;
    Ok(SocketFacts {
        is_tcp: has_tcp_options(descriptor),
        is_unix: family == AF_UNIX,
        events: events_at(descriptor)?,
    })
}

/// The descriptor of a number that was handed over. It is taken once.
fn take(number: u32) -> io::Result<OwnedFd> {
    match i32::try_from(number) {
        Ok(number) => Ok(unsafe { OwnedFd::from_raw_fd(number) }),
        Err(_) => Err(io::Error::from(ErrorKind::InvalidInput)),
    }
}

/// The TCP socket of a number that was handed over. It fails where that isn't one, which is closed then.
pub fn take_tcp(number: u32) -> io::Result<TcpListener> {
    let listener = TcpListener::from(take(number)?);
    listener.local_addr()?;
    listener.set_nonblocking(false)?;
    Ok(listener)
}

/// The Unix socket of a number that was handed over. It fails where that isn't one, which is closed then.
pub fn take_unix(number: u32) -> io::Result<UnixListener> {
    let listener = UnixListener::from(take(number)?);
    listener.local_addr()?;
    listener.set_nonblocking(false)?;
    Ok(listener)
}
