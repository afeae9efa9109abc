//! What a worker waits for; `turning` waits by it, and `listener_turn` registers the listener with its tokens.

use crate::acceptor::Pause;
use crate::drain::Drain;
use crate::second_look::SecondLook;
use mio::unix::SourceFd;
use mio::{Events, Interest, Poll, Registry, Token};
use std::net::{Net, TcpStream};
use std::os::fd::{AsRawFd, RawFd};
use std::time::Duration;
use std::{io, thread};
use tcp_link::Side;

/// The listener's token. Those of connections are smaller.
pub(crate) const LISTENER: Token = Token(usize::MAX);

/// A drain's token. It is told once, as the drain begins.
const DRAIN: Token = Token(usize::MAX - 1);

/// What the worker whose turn it is is told of the listener.
pub(crate) const CONNECTIONS: Interest = Interest::READABLE;

/// What others are told of it, as a listener is never writable.
pub(crate) const NOTHING: Interest = Interest::WRITABLE;

/// Whether a token is of a connection's socket.
pub(crate) fn is_of_connection(token: Token) -> bool {
    token != LISTENER && token != DRAIN
}

/// What the system tells a worker of its connections, of new ones while it is its turn, and of a drain.
#[derive(Drop)]
pub(crate) struct Watch {
    poll: Poll,
    /// The worker's number among those of its listener, from 0 on.
    worker: u32,
    second_look: SecondLook,
}

impl Watch {
    /// A watch of what is readable while a client waits, which is shared with others, and of a drain. Nothing is told of clients yet.
    pub(crate) fn new(
        rt: &impl Net,
        watched: RawFd,
        drain: &Drain,
        worker: u32,
    ) -> io::Result<Watch> {
        let poll = Poll::new(rt)?;
        let registry = poll.registry();
        registry.register(&mut SourceFd(&watched), LISTENER, NOTHING)?;
        registry.register(&mut SourceFd(&drain.watched()), DRAIN, Interest::READABLE)?;
        Ok(Watch {
            poll,
            worker,
            second_look: SecondLook::new(),
        })
    }

    /// The worker's number.
    pub(crate) fn worker(&self) -> u32 {
        self.worker
    }

    /// Where connections are registered.
    pub(crate) fn registry(&self) -> &Registry {
        self.poll.registry()
    }

    /// Has a client's socket watched for more bytes, or its end, under the token of the client in a place.
    pub(crate) fn watch_client(&self, client: &TcpStream, place: usize) -> io::Result<()> {
        let socket = client.as_raw_fd();
        let token = Side::Client.token(place);
        self.registry()
            .register(&mut SourceFd(&socket), token, Interest::READABLE)
    }

    /// Has it watched no more.
    pub(crate) fn unwatch_client(&self, client: &TcpStream) -> io::Result<()> {
        let socket = client.as_raw_fd();
        self.registry().deregister(&mut SourceFd(&socket))
    }

    /// Waits until something is ready, for no longer than the pause. Before it waits for a tick it lets other threads run, which may
    /// be those that its connections wait for, where that has paid lately: so it is seldom asleep when they send.
    pub(crate) fn wait(&mut self, events: &mut Events, pause: Pause) -> io::Result<()> {
        if pause == Pause::Tick && self.look_twice(events)? {
            return Ok(());
        }
        let most = pause.most().map(Duration::from_millis);
        self.poll.poll(events, most)
    }

    /// Looks, lets other threads run and looks again, where that has paid lately. Whether something is ready.
    fn look_twice(&mut self, events: &mut Events) -> io::Result<bool> {
        if !self.second_look.is_due() {
            self.second_look.skip();
            return Ok(false);
        }
        self.poll.poll(events, Some(Duration::ZERO))?;
        if !events.is_empty() {
            return Ok(true);
        }
        thread::yield_now();
        self.poll.poll(events, Some(Duration::ZERO))?;
        let has_paid = !events.is_empty();
        self.second_look.note(has_paid);
        Ok(has_paid)
    }
}
