//! Where clients come in; `serving` has the workers watch it, and `turning` accepts by it.

ghost use Rattle.std.specs.Prelude.{◌≡◌};
ghost use Rattle.tcp_relay.specs.Listening.{behind};

use crate::accept_errors::{AcceptFault, Unaccepted};
use libc::net::{SHUT_RDWR, shutdown};
use mio::unix::SourceFd;
use mio::{Interest, Poll, Token};
use std::io;
use std::net::{Net, SocketAddr, TcpListener, TcpStream};
use std::os::fd::{AsRawFd, RawFd};

/// A socket that listens, and its port as rules see it.
#[derive(Drop)]
pub struct Listener {
    pub socket: TcpListener,
    pub port: u16,
}

impl Listener {
    /// Refuses all clients from now on, those too that wait: it listens no more (shutdown(2)), also for other programs that have
    /// it open. Whoever waits for clients there is woken.
    pub fn refuse(&self, _rt: &impl Net) {
        // One that doesn't listen any more refuses already.
        let _ = shutdown(self.socket.as_raw_fd(), SHUT_RDWR);
    }
}

/// A client that was accepted.
#[derive(Drop)]
pub(crate) struct Accepted {
    pub(crate) client: TcpStream,
    pub(crate) peer: SocketAddr,
    /// The port that it came to.
    pub(crate) port: u16,
    /// The place of the listener that is asked first for the next client.
    pub(crate) next: usize,
}

/// What is readable while a client waits at a listener.
#[derive(Drop)]
enum Watched {
    /// The only listener.
    Only(RawFd),
    /// What the system tells all of them by (epoll(7): it can be watched like a socket).
    All(Poll),
}

/// The listeners of a proxy, none of which waits for clients when it is asked.
#[derive(Drop)]
pub(crate) struct Listeners<'a> {
    each: &'a [Listener],
    /// None where the system refuses to watch them.
    watched: Option<Watched>,
}

impl<'a> Listeners<'a> {
    pub(crate) fn new(rt: &impl Net, each: &'a [Listener]) -> Listeners<'a> {
        Listeners {
            each,
            watched: watch(rt, each).ok(),
        }
    }

    /// What is readable while a client waits at one of them. None where the system refuses to watch them.
    pub(crate) fn watched(&self) -> Option<RawFd> {
        match &self.watched {
            Some(Watched::Only(listener)) => Some(*listener),
            Some(Watched::All(poll)) => Some(poll.as_raw_fd()),
            None => None,
        }
    }

    /// Accepts a client at the first listener at which one waits, from this place on and round to it. So none is kept waiting
    /// by clients of another.
    pub(crate) fn accept(&self, from: usize) -> Result<Accepted, Unaccepted> {
        let (before, after) = self.each.split_at(from.min(self.each.len()));
        match accept_first(after, from, self.each.len()) {
            Err(unaccepted) if unaccepted.fault == AcceptFault::NoneWaits => {
                accept_first(before, 0, self.each.len())
            }
            told => told,
        }
    }
}

/// Has the listeners watched, and none of them waits for clients from now on.
fn watch(rt: &impl Net, each: &[Listener]) -> io::Result<Watched> {
    for listener in each {
        listener.socket.set_nonblocking(true)?;
    }
    if let [only] = each {
        return Ok(Watched::Only(only.socket.as_raw_fd()));
    }
    let poll = Poll::new(rt)?;
    for (place, listener) in each.iter().enumerate() {
        let fd = listener.socket.as_raw_fd();
        poll.registry()
            .register(&mut SourceFd(&fd), Token(place), Interest::READABLE)?;
    }
    Ok(Watched::All(poll))
}

/// Accepts a client at the first of these listeners at which one waits, of which the first has this place among so many. An
/// error that says more than that none waits ends it.
fn accept_first(
    listeners: &[Listener],
    first: usize,
    count: usize,
) -> Result<Accepted, Unaccepted> {
    for (place, listener) in listeners.iter().enumerate() {
        match accept_at(listener, behind(first.saturating_add(place), count)) {
            Err(unaccepted) if unaccepted.fault == AcceptFault::NoneWaits => {}
            told => return told,
        }
    }
    Err(Unaccepted::none_waits())
}

/// Accepts a client at a listener, of which the one at the place `next` is asked first then.
fn accept_at(listener: &Listener, next: usize) -> Result<Accepted, Unaccepted> {
    match listener.socket.accept() {
        Ok((client, peer)) => Ok(Accepted {
            client,
            peer,
            port: listener.port,
            next,
        }),
        Err(error) => Err(Unaccepted::of(error.raw_os_error().map(i32::unsigned_abs))),
    }
}

/// The place behind this one of so many, the first behind the last.
fn behind(place: usize, count: usize) -> usize
    ensures { result ≡ behind place count }
{
    let next = place.saturating_add(1);
    if next < count { next } else { 0 }
}
