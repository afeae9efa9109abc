//! When a worker accepts clients, and how long it may wait; `turning` asks it in each turn.

ghost use Rattle.std.specs.Prelude.{◌≡◌, ◌≢◌, ◌&&◌, true, false, if◌then◌else◌, is_some, IfSome, IsOk};
ghost use Rattle.tcp_relay.specs.Accepting.{can_accept, is_shortage, pause_of, sleep_of};

use crate::accept_errors::AcceptFault;
use crate::connection_counter::ConnectionCounter;
use crate::sweep::TICK;
use std::io;
use std::net::{Net, SocketAddr};
use std::sync::Wait;
use tcp_link::{Liveness, ServerSocket};

/// How long a worker waits until something is ready.
#[derive(Clone, Copy, Debug, PartialEq, Eq)]
pub(crate) enum Pause {
    NotAtAll,
    /// A tick at most.
    Tick,
    /// Until something is ready, or a drain begins.
    UntilReady,
}

impl Pause {
    /// For how many ms a worker sleeps at most. None where it sleeps until it is woken.
    pub(crate) fn most(self) -> Option<u64>
        ensures { result ≡ sleep_of self }
    {
        match self {
            Pause::NotAtAll => Some(0),
            Pause::Tick => Some(TICK),
            Pause::UntilReady => None,
        }
    }
}

/// What a worker accepts clients by. A client is accepted only with a socket for its server at hand, so that no client is accepted
/// that can't be carried for want of descriptors.
#[derive(Drop)]
pub(crate) struct Acceptor {
    /// The number of the next connection, if it is drawn.
    number: Option<u64>,
    /// Whether no number more is drawn.
    is_closed: bool,
    /// Whether clients may wait: that was told, and since neither that there is none, nor that they are another's.
    may_have: bool,
    /// Whether the system was short of what a client takes; until a tick has passed, or a connection has ended.
    is_short: bool,
    /// The socket for the next client's server.
    server: Option<ServerSocket>,
}

impl Acceptor {
    /// Nothing is drawn yet, and nothing told.
    pub(crate) fn new() -> Acceptor {
        Acceptor {
            number: None,
            is_closed: false,
            may_have: false,
            is_short: false,
            server: None,
        }
    }

    /// Draws the number of the next connection, if that isn't done and there is one more. Where references are left that can't be
    /// given back, none is drawn any more.
    pub(crate) fn draw(&mut self, counter: &ConnectionCounter, rt: &impl Wait, has_left: bool) {
        if self.number.is_some() || self.is_closed {
            return;
        }
        if !has_left {
            self.number = counter.draw(rt);
        }
        self.is_closed = self.number.is_none();
    }

    /// A drain has begun: no number more is drawn, the one that is drawn is given up, and so is the socket for a server.
    pub(crate) fn stop(&mut self)
        ensures stopped { (is_some self.new.number ≡ false) × (self.new.is_closed ≡ true) }
        ensures given_back { is_some self.new.server ≡ false }
        ensures told { (self.new.may_have ≡ self.old.may_have) × (self.new.is_short ≡ self.old.is_short) }
    {
        *self = Acceptor {
            number: None,
            is_closed: true,
            may_have: self.may_have,
            is_short: self.is_short,
            server: None,
        };
    }

    /// The number of the next connection, if it is drawn.
    pub(crate) fn number(&self) -> Option<u64>
        ensures { result ≡ self.now.number }
    {
        self.number
    }

    /// The connection with that number has come.
    pub(crate) fn pass(&mut self)
        ensures number { is_some self.new.number ≡ false }
        ensures told { (self.new.may_have ≡ self.old.may_have) × (self.new.is_short ≡ self.old.is_short) }
    {
        self.number = None;
    }

    /// Clients may wait.
    pub(crate) fn hear_of_clients(&mut self)
        ensures told { self.new.may_have ≡ true }
        ensures same { (self.new.number ≡ self.old.number) × (self.new.is_short ≡ self.old.is_short) }
    {
        self.may_have = true;
    }

    /// The clients that wait are another worker's.
    pub(crate) fn leave(&mut self)
        ensures told { self.new.may_have ≡ false }
        ensures same { (self.new.number ≡ self.old.number) × (self.new.is_short ≡ self.old.is_short) }
    {
        self.may_have = false;
    }

    /// Connections have ended, or a tick has passed: the system may have what a client takes again.
    pub(crate) fn try_again(&mut self)
        ensures short { self.new.is_short ≡ false }
        ensures same { (self.new.number ≡ self.old.number) × (self.new.may_have ≡ self.old.may_have) }
    {
        self.is_short = false;
    }

    /// The system is short of what a client takes.
    pub(crate) fn run_short(&mut self)
        ensures short { self.new.is_short ≡ true }
        ensures same { (self.new.number ≡ self.old.number) × (self.new.may_have ≡ self.old.may_have) }
    {
        self.is_short = true;
    }

    /// What an error of accepting tells of further clients. None waits any more only where that is what it says. Where the system is
    /// short, the socket for a server is given back.
    pub(crate) fn hear_of_fault(&mut self, fault: AcceptFault)
        ensures none { fault ≡ AcceptFault.NoneWaits → self.new.may_have ≡ false }
        ensures some { fault ≢ AcceptFault.NoneWaits → self.new.may_have ≡ self.old.may_have }
        ensures short { is_shortage fault ≡ true → self.new.is_short ≡ true }
        ensures given_back { is_shortage fault ≡ true → is_some self.new.server ≡ false }
        ensures going { is_shortage fault ≡ false → self.new.is_short ≡ self.old.is_short }
        ensures unreadable { fault ≡ AcceptFault.Unreadable → is_some self.new.number ≡ false }
        ensures number { fault ≢ AcceptFault.Unreadable → self.new.number ≡ self.old.number }
    {
        match fault {
            AcceptFault::NoneWaits => self.may_have = false,
            AcceptFault::Gone => {}
            AcceptFault::Unreadable => self.number = None,
            AcceptFault::Short(_) => {
                self.is_short = true;
                // Another worker may have what is missing here, and miss this one.
                self.server = None;
            }
        }
    }

    /// Whether a client may wait that wasn't accepted, nor is another's.
    pub(crate) fn may_have(&self) -> bool
        ensures { result ≡ self.now.may_have }
    {
        self.may_have
    }

    /// Whether a client that comes can be accepted, with a place for it or without, as far as is known.
    pub(crate) fn can_accept(&self, has_place: bool) -> bool
        ensures { result ≡ can_accept (is_some self.now.number) has_place self.now.is_short }
    {
        self.number.is_some() && has_place && !self.is_short
    }

    /// Whether accepting has to be tried: a client may wait, and can be accepted.
    pub(crate) fn must_try(&self, has_place: bool) -> bool
        ensures { result ≡ (can_accept (is_some self.now.number) has_place self.now.is_short && self.now.may_have) }
    {
        self.can_accept(has_place) && self.may_have
    }

    /// How long a worker waits now: one that has a place or not, is to look for silent peers or not, and holds connections or
    /// not. It never waits while a client may wait that it can accept, unless that is another's.
    pub(crate) fn pause(&self, has_place: bool, is_due: bool, holds: bool) -> Pause
        ensures pause { result ≡ pause_of (can_accept (is_some self.now.number) has_place self.now.is_short) self.now.may_have is_due holds self.now.is_short }
        ensures tried { result ≢ Pause.NotAtAll → can_accept (is_some self.now.number) has_place self.now.is_short ≡ true → self.now.may_have ≡ false }
    {
        pause_of(
            self.can_accept(has_place),
            self.may_have,
            is_due,
            holds,
            self.is_short,
        )
    }

    /// Has a socket at hand for the server there. An error is that of socket(2), by which the system is short of one.
    pub(crate) fn ready_server(
        &mut self,
        rt: &impl Net,
        server: SocketAddr,
        liveness: Liveness,
    ) -> io::Result<()>
        ensures ready { IsOk result → is_some self.new.server ≡ true }
        ensures same { (self.new.number ≡ self.old.number) × (self.new.may_have ≡ self.old.may_have) }
        ensures short { IsOk result → self.new.is_short ≡ self.old.is_short }
    {
        if self.server.is_some() {
            return Ok(());
        }
        match ServerSocket::open(rt, server, liveness) {
            Ok(socket) => {
                self.server = Some(socket);
                Ok(())
            }
            Err(error) => Err(error),
        }
    }

    /// A socket for a server is at hand again that a client has had, unless another is.
    pub(crate) fn give_back(&mut self, server: Option<ServerSocket>)
        ensures at_hand { self.new.server ≡ (if is_some self.old.server then self.old.server else server) }
        ensures same { (self.new.number ≡ self.old.number) × (self.new.may_have ≡ self.old.may_have) }
        ensures short { self.new.is_short ≡ self.old.is_short }
    {
        if self.server.is_none() {
            self.server = server;
        }
    }

    /// The socket at hand, which is a client's now that waits until it is judged.
    pub(crate) fn lend_server(&mut self) -> Option<ServerSocket>
        ensures lent { result ≡ self.old.server }
        ensures none { is_some self.new.server ≡ false }
    {
        self.server.take()
    }

    /// The socket for a client's server, which is its own now. None where none is at hand, or one for another server.
    pub(crate) fn take_server(&mut self, server: SocketAddr) -> Option<ServerSocket>
        ensures server { IfSome result (λ socket. socket.server ≡ server) }
        ensures none { is_some self.new.server ≡ false }
    {
        let socket = self.server.take()?;
        if socket.server() == server {
            Some(socket)
        } else {
            None
        }
    }
}

/// How long a worker waits that can accept a client or not, of whom one may wait or not, that is to look for silent peers or not,
/// and that holds connections or not, where the system is short or not.
fn pause_of(can: bool, may_have: bool, is_due: bool, holds: bool, is_short: bool) -> Pause
    ensures { result ≡ pause_of can may_have is_due holds is_short }
{
    if can && may_have {
        return Pause::NotAtAll;
    }
    if !holds && !is_short {
        return Pause::UntilReady;
    }
    if is_due {
        return Pause::NotAtAll;
    }
    Pause::Tick
}
