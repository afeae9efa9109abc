//! A connection that a worker holds, open or kept for its references; `Places` holds them, and `leaving` takes what is left.

ghost use Rattle.std.specs.Prelude.{◌≡◌, true, false, is_some, IfErr, IfOk};
ghost use Rattle.admit_core.specs.Conn.{needed};
ghost use Rattle.admit_core.specs.declared.need.Need.TheVariants.{Rest};
ghost use Rattle.tcp_relay.specs.Connections.{IsVisitor};
ghost use Rattle.tcp_relay.specs.Traffics.{counted_then, none, uncounted};

use crate::traffic::Traffic;
use crate::width::Width;
use admit_core::Conn;
use mio::Registry;
use shard_locks::SharedRef;
use shard_record::Naming;
use std::marker::PhantomData;
use tcp_link::{Buffer, Lateness, Link, Ready, ServerSocket, Timeouts};

/// A connection that is open, its sockets, and what of its bytes is counted.
pub(crate) type OpenParts<'a, J> = (Conn<'a, SharedRef<J>>, Link, Traffic);

/// A connection that a worker holds: its sockets as long as it is open; without them, it holds references of which a release
/// was refused.
pub(crate) struct Connection<'a, J: Naming, W: Width> {
    pub(crate) conn: Conn<'a, SharedRef<J>>,
    pub(crate) link: Option<Link>,
    /// What of its bytes is counted.
    pub(crate) counted: Traffic,
    pub(crate) of: PhantomData<W>,
    ghost is: { IsVisitor W.tables W.shards conn },
    ghost rests: { is_some link ≡ true → needed conn ≡ Rest },
}

impl<'a, J: Naming, W: Width> Connection<'a, J, W> {
    /// A connection that is open.
    pub(crate) fn open(conn: Conn<'a, SharedRef<J>>, link: Link) -> Connection<'a, J, W>
        requires connection { IsVisitor W.tables W.shards conn }
        requires rests { needed conn ≡ Rest }
        ensures conn { result.conn ≡ conn.entry }
        ensures open { is_some result.link ≡ true }
        ensures counted { result.counted ≡ none }
    {
        Connection {
            conn,
            link: Some(link),
            counted: Traffic::none(),
            of: PhantomData,
        }
    }

    /// A connection that still holds references once it is closed.
    pub(crate) fn kept(conn: Conn<'a, SharedRef<J>>) -> Connection<'a, J, W>
        requires connection { IsVisitor W.tables W.shards conn }
        ensures conn { result.conn ≡ conn.entry }
        ensures closed { is_some result.link ≡ false }
    {
        Connection {
            conn,
            link: None,
            counted: Traffic::none(),
            of: PhantomData,
        }
    }

    /// The connection, its sockets and what of its bytes is counted, where it is open; else itself.
    pub(crate) fn parts(self) -> Result<OpenParts<'a, J>, Connection<'a, J, W>>
        ensures connection { IfOk result (λ parts. IsVisitor W.tables W.shards parts.0) }
        ensures rests { IfOk result (λ parts. needed parts.0 ≡ Rest) }
        ensures conn { IfOk result (λ parts. parts.0 ≡ self.entry.conn) }
        ensures open { IfOk result (λ _. is_some self.entry.link ≡ true) }
        ensures counted { IfOk result (λ parts. parts.2 ≡ self.entry.counted) }
        ensures kept { IfErr result (λ kept. kept.conn ≡ self.entry.conn) }
        ensures closed { IfErr result (λ kept. is_some kept.link ≡ false) }
        ensures was_closed { IfErr result (λ _. is_some self.entry.link ≡ false) }
    {
        let Connection {
            conn,
            link,
            counted,
            of: _,
        } = self;
        match link {
            Some(link) => Ok((conn, link, counted)),
            None => Err(Connection::kept(conn)),
        }
    }

    /// Gives it its turn, as a socket of it is ready. Whether it is over now.
    pub(crate) fn turn(
        &mut self,
        registry: &Registry,
        ready: Ready,
        moment: u64,
        buffer: &mut Buffer,
    ) -> bool
        ensures conn { self.new.conn ≡ self.old.conn }
        ensures open { is_some self.new.link ≡ is_some self.old.link }
    {
        match &mut self.link {
            Some(link) => !link.turn(registry, ready, moment, buffer),
            None => false,
        }
    }

    /// What of its bytes isn't counted yet, and is from now on: nothing where it is closed.
    pub(crate) fn count_traffic(&mut self) -> Traffic
        ensures more { result ≡ uncounted self.old.link self.old.counted }
        ensures counted { self.new.counted ≡ counted_then self.old.link self.old.counted }
        ensures conn { self.new.conn ≡ self.old.conn }
        ensures open { is_some self.new.link ≡ is_some self.old.link }
        ensures link { self.new.link ≡ self.old.link }
    {
        let Some(link) = &self.link else {
            return Traffic::none();
        };
        let (bytes_in, bytes_out) = link.bytes();
        let passed = Traffic {
            bytes_in,
            bytes_out,
        };
        let more = passed.beyond(self.counted);
        self.counted = passed;
        more
    }

    /// Whether its server refused it, and is to be tried again at a moment in ms.
    pub(crate) fn is_due(&self, moment: u64) -> bool {
        match &self.link {
            Some(link) => link.is_due(moment),
            None => false,
        }
    }

    /// Whether it is open, and a side of it that is owed a reset has taken all, at a moment in ms.
    pub(crate) fn is_settled(&self, moment: u64) -> bool {
        match &self.link {
            Some(link) => link.is_settled(moment),
            None => false,
        }
    }

    /// Tries its server again, by this socket. Whether it is over now.
    pub(crate) fn retry(
        &mut self,
        server: ServerSocket,
        registry: &Registry,
        number: usize,
        moment: u64,
        buffer: &mut Buffer,
    ) -> bool
        ensures conn { self.new.conn ≡ self.old.conn }
        ensures open { is_some self.new.link ≡ is_some self.old.link }
    {
        match &mut self.link {
            Some(link) => !link.retry(server, registry, number, moment, buffer),
            None => false,
        }
    }

    /// Which timeout is over, where it is open and a peer of it has been silent for longer than it may, at a moment in ms.
    pub(crate) fn lateness(&mut self, moment: u64, timeouts: &Timeouts) -> Option<Lateness>
        ensures conn { self.new.conn ≡ self.old.conn }
        ensures open { is_some self.new.link ≡ is_some self.old.link }
    {
        match &mut self.link {
            Some(link) => link.lateness(moment, timeouts),
            None => None,
        }
    }
}
