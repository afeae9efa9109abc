//! The places of the stats socket, and one beside them that nobody holds, so that a stop is heard whoever else looks on;
//! `service_threads` serves by them.

ghost use Rattle.std.specs.Prelude.{◌≡◌};
ghost use Rattle.tcp_proxy.specs.Watching as spec;

use byte_ports::{Sink, Source};
use libc::net::{POLLIN, poll};
use libc::types::pollfd;
use std::io::{self, ErrorKind};
use std::os::fd::{AsRawFd, RawFd};
use std::os::unix::net::UnixListener;
use std::sync::atomic::{AtomicU64, Ordering};
use std::thread;
use std::time::{Clock, Duration};
use table_socket::{ClientListener, ClientServer, ClientStream, PATIENCE};

/// How many clients hold a place of the stats socket, and how many places there are.
#[derive(Drop)]
pub(crate) struct Places {
    taken: AtomicU64,
    count: u64,
}

/// Whether no place is left, where so many are taken.
fn are_full(taken: u64, count: u64) -> bool
    ensures { result ≡ spec.are_full taken count }
{
    taken >= count
}

impl Places {
    /// So many places, all free.
    pub fn new(count: u32) -> Places {
        Places {
            taken: AtomicU64::new(0),
            count: u64::from(count),
        }
    }

    /// Whether no place is left.
    fn are_full(&self) -> bool {
        are_full(self.taken.load(Ordering::SeqCst), self.count)
    }
}

/// A service each of whose clients holds a place.
#[derive(Drop)]
pub(crate) struct Placed<'a, S> {
    service: S,
    places: &'a Places,
}

impl<'a, S> Placed<'a, S> {
    /// This service, whose clients hold places there.
    pub fn new(service: S, places: &'a Places) -> Self {
        Placed { service, places }
    }

    /// The service again.
    pub fn into_service(self) -> S {
        let Placed { service, places: _ } = self;
        service
    }
}

impl<'a, S: ClientServer> ClientServer for Placed<'a, S> {
    ghost State = { S.State };

    ghost state = { λ placed. S.state placed.service };

    ghost visits = { S.visits };

    fn serve_client<R: Source, W: Sink>(&mut self, reader: &mut R, writer: &mut W) -> u64 {
        self.places.taken.fetch_add(1, Ordering::SeqCst);
        let count = self.service.serve_client(reader, writer);
        self.places.taken.fetch_sub(1, Ordering::SeqCst);
        count
    }
}

/// A listener at which a client is accepted only while all places are taken.
#[derive(Clone, Copy, Drop)]
pub(crate) struct BesidePlaces<'a, R> {
    pub rt: &'a R,
    pub listener: &'a UnixListener,
    pub places: &'a Places,
}

impl<'a, R> BesidePlaces<'a, R> {
    /// Whether a client waits to be accepted, within a patience.
    fn awaits_client(&self) -> bool {
        let mut asked = [pollfd {
            fd: self.listener.as_raw_fd(),
            events: POLLIN,
            revents: 0,
        }];
        poll(&mut asked, PATIENCE as i32) > 0
    }
}

impl<'a, R> AsRawFd for BesidePlaces<'a, R> {
    fn as_raw_fd(&self) -> RawFd {
        self.listener.as_raw_fd()
    }
}

impl<'a, R: Clock> ClientListener for BesidePlaces<'a, R> {
    /// The next client. One is left to those that have places as long as one of these is free.
    fn accept_client(&self) -> io::Result<ClientStream> {
        if !self.places.are_full() {
            thread::sleep(self.rt, Duration::from_millis(PATIENCE));
            return Err(io::Error::from(ErrorKind::WouldBlock));
        }
        if !self.awaits_client() || !self.places.are_full() {
            return Err(io::Error::from(ErrorKind::WouldBlock));
        }
        self.listener.accept_client()
    }
}
