//! A socket that isn't connected to its server yet; `tcp_relay` opens one before it accepts a client.

ghost use Rattle.std.specs.Prelude.{◌≡◌, IfOk};
ghost use Rattle.tcp_link.specs.ConnectFaults.{refused_for};

use crate::address::{encode, family};
use crate::calls::{checked, number_of};
use crate::{ConnectFault, Liveness, Unreached, connect_fault_of};
use libc::EINPROGRESS;
use libc::net::{SOCK_CLOEXEC, SOCK_NONBLOCK, SOCK_STREAM, connect, socket};
use mio::net::TcpStream;
use os::FromRawFd;
use std::io;
use std::net::{Net, SocketAddr};
use std::os::fd::AsRawFd;

/// A socket for a connection to a server, which isn't begun. It is had before a client is accepted, so that no client is taken
/// for which there is no socket.
#[derive(Drop)]
pub struct ServerSocket {
    socket: TcpStream,
    server: SocketAddr,
}

impl ServerSocket {
    /// A socket that will be connected to this server, and finds out so that it is gone. It fails where the system has none, or
    /// refuses to do so.
    pub fn open(rt: &impl Net, server: SocketAddr, liveness: Liveness) -> io::Result<ServerSocket>
        ensures server { IfOk result (λ opened. opened.server ≡ server) }
    {
        let socket = new_socket(server)?;
        liveness.apply(rt, &socket)?;
        Ok(ServerSocket { socket, server })
    }

    /// The server that it is for.
    pub fn server(&self) -> SocketAddr
        ensures { result ≡ self.now.server }
    {
        self.server
    }

    /// Begins to connect it. Where the system says at once that it can't, the socket is given back with the error.
    pub(crate) fn connect(self) -> Result<TcpStream, Refusal> {
        let ServerSocket { socket, server } = self;
        let (address, size) = encode(server);
        match checked(unsafe { connect(socket.as_raw_fd(), &address, size) }) {
            Err(error) if error.raw_os_error() != Some(EINPROGRESS) => Err(Refusal {
                socket,
                number: number_of(&error),
            }),
            _ => Ok(socket),
        }
    }
}

/// A socket that the system refused to connect at once, and the number of its error.
#[derive(Drop)]
pub(crate) struct Refusal {
    pub(crate) socket: TcpStream,
    pub(crate) number: u32,
}

impl Refusal {
    /// Why it couldn't be connected.
    pub(crate) fn cause(&self) -> Unreached
        ensures fault { result.fault ≡ refused_for self.now.number }
        ensures error { result.error ≡ self.now.number }
    {
        Unreached {
            fault: connect_fault_of(self.number).unwrap_or(ConnectFault::Other),
            error: self.number,
        }
    }
}

/// A socket of a server's family that doesn't wait, and that a program doesn't keep which takes this one's place.
fn new_socket(server: SocketAddr) -> io::Result<TcpStream> {
    let kind = SOCK_STREAM | SOCK_NONBLOCK | SOCK_CLOEXEC;
    let descriptor = unsafe { socket(family(server), kind, 0) };
    checked(descriptor)?;
    Ok(unsafe { TcpStream::from_raw_fd(descriptor) })
}
