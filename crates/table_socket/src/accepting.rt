//! Listeners of Unix sockets and of TCP, and the streams of their clients; `clients` accepts and serves by them, and `tcp_proxy` makes
//! those patient that it has from elsewhere.

ghost use Rattle.std.specs.Io.{ReadsAtMost, WritesAtMost};

use crate::patience::PATIENCE;
use crate::patient_stream::set_patience;
use std::io::{self, Read, Write};
use std::net::{TcpListener, TcpStream};
use std::os::fd::OwnedFd;
use std::os::unix::net::{UnixListener, UnixStream};
use std::time::Duration;

/// A client's stream.
#[derive(Drop)]
pub enum ClientStream {
    Unix(UnixStream),
    Tcp(TcpStream),
}

impl ClientStream {
    /// Reads once.
    pub(crate) fn read(&self, buf: &mut [u8]) -> io::Result<usize>
        ensures bound { ReadsAtMost result buf.new }
    {
        match self {
            ClientStream::Unix(stream) => {
                let mut stream = stream;
                stream.read(buf)
            }
            ClientStream::Tcp(stream) => {
                let mut stream = stream;
                stream.read(buf)
            }
        }
    }

    /// Writes once.
    pub(crate) fn write(&self, buf: &[u8]) -> io::Result<usize>
        ensures bound { WritesAtMost result buf.now }
    {
        match self {
            ClientStream::Unix(stream) => {
                let mut stream = stream;
                stream.write(buf)
            }
            ClientStream::Tcp(stream) => {
                let mut stream = stream;
                stream.write(buf)
            }
        }
    }
}

/// What clients come to. One that is patient answers `WouldBlock` where none came for 100 ms.
pub trait ClientListener {
    /// The next client, whose stream waits no longer than a patience each time.
    fn accept_client(&self) -> io::Result<ClientStream>;
}

impl ClientListener for UnixListener {
    fn accept_client(&self) -> io::Result<ClientStream> {
        let (stream, _address) = self.accept()?;
        set_patience(&stream)?;
        Ok(ClientStream::Unix(stream))
    }
}

impl ClientListener for TcpListener {
    fn accept_client(&self) -> io::Result<ClientStream> {
        let (stream, _address) = self.accept()?;
        set_tcp_patience(&stream)?;
        Ok(ClientStream::Tcp(stream))
    }
}

/// Has the system wait no longer than a patience, each time, for what is sent on a stream and for what is taken.
fn set_tcp_patience(stream: &TcpStream) -> io::Result<()> {
    let patience = Some(Duration::from_millis(PATIENCE));
    stream.set_read_timeout(patience)?;
    stream.set_write_timeout(patience)
}

/// A Unix socket that listens, whose clients are waited for no longer than a patience each time. The system's time for reading a
/// socket holds for accepting too, and is set by a stream's method alone.
pub fn patient_unix(socket: OwnedFd) -> io::Result<UnixListener> {
    let stream = UnixStream::from(socket);
    set_patience(&stream)?;
    Ok(UnixListener::from(OwnedFd::from(stream)))
}

/// The same of a TCP socket.
pub fn patient_tcp(socket: OwnedFd) -> io::Result<TcpListener> {
    let stream = TcpStream::from(socket);
    set_tcp_patience(&stream)?;
    Ok(TcpListener::from(OwnedFd::from(stream)))
}
