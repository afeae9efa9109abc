//! The connections that a worker holds, by their places' numbers; `worker` keeps them, and `turning` gives them turns.

ghost use Rattle.std.specs.Prelude.{◌≡◌, ◌≤◌, ℕ, ◌==◌, ◌||◌, not, nat_lt, true, false, is_some, length, IfNone, IfSome, List, None, Some, slice_get, slice_set, vec_capacity, vec_len};
ghost use Rattle.rule_model.specs.declared.sections.Setup.{Setup};
ghost use Rattle.shard_book.specs.SeatState.{RefState};
ghost use Rattle.shard_locks.specs.ShardsState.{SeatedState};
ghost use Rattle.admit_core.specs.Conn.{judged_by, needed, progress_of};
ghost use Rattle.admit_core.specs.declared.held.Held.{Held};
ghost use Rattle.admit_core.specs.declared.need.Need.TheVariants.{Rest};
ghost use Rattle.tcp_relay.specs.Addresses.{IsServer};
ghost use Rattle.tcp_relay.specs.Connections.{IsVisitor};
ghost use Rattle.tcp_relay.specs.Passed.{HasPassedIn, HaveAllPassed, NoneCame, StaysThere};
ghost use Rattle.tcp_relay.specs.Releasing.{GivesBack, OthersStay, held_there, is_open_there};
ghost use Rattle.tcp_relay.specs.Traffics.{uncounted_in};

use crate::addresses::socket_address;
use crate::connection::{Connection, OpenParts};
use crate::leaving::{holds, let_go};
use crate::traffic::Traffic;
use crate::width::Width;
use admit_core::Conn;
use mio::Registry;
use shard_locks::SharedRef;
use shard_record::Naming;
use std::mem;
use std::net::SocketAddr;
use tcp_link::{Buffer, Lateness, Link, Ready, ServerSocket, Timeouts};

/// The connections that a worker holds, by the numbers of their places: what is reported of a socket names its place. A
/// connection whose references can't be given back keeps its place, so that no memory is needed for them.
pub(crate) struct Places<'a, J: Naming, W: Width> {
    held: Vec<Option<Connection<'a, J, W>>>,
    /// Places that are free again.
    free: Vec<usize>,
    /// How many places there are at most.
    most: usize,
    /// How many connections are open.
    open: usize,
    ghost limit: { most ≤ W.most },
    ghost few: { vec_len held ≤ most },
    ghost room: { W.most ≤ vec_capacity held },
}

impl<'a, J: Naming, W: Width> Places<'a, J, W> {
    /// No connection, and so many places at most.
    pub(crate) fn new(
        held: Vec<Option<Connection<'a, J, W>>>,
        free: Vec<usize>,
        most: usize,
    ) -> Places<'a, J, W>
        requires most { most ≤ W.most }
        requires empty { vec_len held ≡ 0 }
        requires room { W.most ≤ vec_capacity held }
        ensures most { result.most ≡ most }
        ensures none { vec_len result.held ≡ 0 }
    {
        Places {
            held,
            free,
            most,
            open: 0,
        }
    }

    /// How many connections are open.
    pub(crate) fn open(&self) -> usize {
        self.open
    }

    /// How many places have been in use.
    pub(crate) fn count(&self) -> usize
        ensures { result ≡ length self.now.held.items }
    {
        self.held.as_slice().len()
    }

    /// Whether there is a place for one more connection.
    pub(crate) fn has_room(&self) -> bool
        ensures { result ≡ (not (length self.now.free.items == 0) || nat_lt (vec_len self.now.held) self.now.most) }
    {
        !self.free.is_empty() || self.held.as_slice().len() < self.most
    }

    /// A place for one more connection. None where all are taken.
    pub(crate) fn claim(&mut self) -> Option<usize>
        ensures free { IfSome result (λ place. slice_get self.new.held.items place ≡ Some None) }
        ensures none { NoneCame (λ one. is_some one.link) (λ one. one.conn) self.old.held.items self.new.held.items }
    {
        match self.free.pop() {
            Some(place) => self.if_free(place),
            None => self.claim_new(),
        }
    }

    /// This place, if it is free.
    pub(crate) fn if_free(&self, place: usize) -> Option<usize>
        ensures free { IfSome result (λ free. slice_get self.now.held.items free ≡ Some None) }
    {
        match self.held.get(place) {
            Some(None) => Some(place),
            _ => None,
        }
    }

    /// A place that was never in use.
    fn claim_new(&mut self) -> Option<usize>
        ensures free { IfSome result (λ place. slice_get self.new.held.items place ≡ Some None) }
        ensures none { NoneCame (λ one. is_some one.link) (λ one. one.conn) self.old.held.items self.new.held.items }
    {
        let place = self.held.as_slice().len();
        if place >= self.most {
            return None;
        }
        self.held.push_reserved(None);
        Some(place)
    }

    /// Frees a place that was claimed and isn't in use.
    pub(crate) fn free(&mut self, place: usize)
        ensures held { self.new.held ≡ self.old.held }
    {
        // There is room for all places. One that couldn't be noted would be lost.
        let _ = self.free.push(place);
    }

    /// Puts a connection in its place.
    fn put(&mut self, place: usize, connection: Connection<'a, J, W>)
        requires free { slice_get self.old.held.items place ≡ Some None }
        ensures held { self.new.held.items ≡ slice_set self.old.held.items place (Some connection.entry) }
    {
        let slot = &mut self.held[place];
        match mem::replace(slot, Some(connection)) {
            None => {}
            Some(_old) => unreachable!(),
        }
    }

    /// Puts a connection that is open in its place.
    pub(crate) fn put_open(&mut self, place: usize, conn: Conn<'a, SharedRef<J>>, link: Link)
        requires free { slice_get self.old.held.items place ≡ Some None }
        requires connection { IsVisitor W.tables W.shards conn }
        requires rests { needed conn ≡ Rest }
        ensures held { held_there (λ one. one.conn) (slice_get self.new.held.items place) ≡ (progress_of conn.entry).held }
        ensures opened { is_open_there (λ one. is_some one.link) (slice_get self.new.held.items place) ≡ true }
        ensures others { OthersStay place self.old.held.items self.new.held.items }
        ensures passed { (first : Setup) (seats : List SeatedState) → HasPassedIn first seats conn.entry → HaveAllPassed (λ one. is_some one.link) (λ one. one.conn) first seats self.old.held.items → HaveAllPassed (λ one. is_some one.link) (λ one. one.conn) first seats self.new.held.items }
    {
        self.open = self.open.saturating_add(1);
        self.put(place, Connection::open(conn, link));
    }

    /// Puts a connection that still holds references in its place.
    fn put_kept(&mut self, place: usize, conn: Conn<'a, SharedRef<J>>)
        requires free { slice_get self.old.held.items place ≡ Some None }
        requires connection { IsVisitor W.tables W.shards conn }
        ensures held { held_there (λ one. one.conn) (slice_get self.new.held.items place) ≡ (progress_of conn.entry).held }
        ensures closed { is_open_there (λ one. is_some one.link) (slice_get self.new.held.items place) ≡ false }
        ensures others { OthersStay place self.old.held.items self.new.held.items }
        ensures count { length self.new.held.items ≡ length self.old.held.items }
        ensures none { NoneCame (λ one. is_some one.link) (λ one. one.conn) self.old.held.items self.new.held.items }
    {
        self.put(place, Connection::kept(conn));
    }

    /// Leaves a connection that has ended in its place, if it still holds references. Else the place is free. Whether it holds some.
    #[inline(always)]
    pub(crate) fn part(&mut self, place: usize, conn: Conn<'a, SharedRef<J>>) -> bool
        requires free { slice_get self.old.held.items place ≡ Some None }
        requires connection { IsVisitor W.tables W.shards conn }
        ensures held { held_there (λ one. one.conn) (slice_get self.new.held.items place) ≡ (progress_of conn.entry).held }
        ensures closed { is_open_there (λ one. is_some one.link) (slice_get self.new.held.items place) ≡ false }
        ensures others { OthersStay place self.old.held.items self.new.held.items }
        ensures count { length self.new.held.items ≡ length self.old.held.items }
        ensures none { NoneCame (λ one. is_some one.link) (λ one. one.conn) self.old.held.items self.new.held.items }

        // So what a connection has given back, but for what it holds, is given back but for what the place holds.
        ensures back { (now : ℕ) (old new : List SeatedState) (before : Held RefState) → GivesBack now old new before (progress_of conn.entry).held → GivesBack now old new before (held_there (λ one. one.conn) (slice_get self.new.held.items place)) }
    {
        if holds(&conn) {
            self.put_kept(place, conn);
            return true;
        }
        let_go(conn);
        self.free(place);
        false
    }

    /// Gives the connection in a place its turn, of which a socket is ready. Whether it is over now.
    pub(crate) fn turn(
        &mut self,
        registry: &Registry,
        ready: Ready,
        moment: u64,
        buffer: &mut Buffer,
    ) -> bool
        ensures none { NoneCame (λ one. is_some one.link) (λ one. one.conn) self.old.held.items self.new.held.items }
    {
        let Some(slot) = self.held.get_mut(ready.number) else {
            return false;
        };
        turn_in(slot, registry, ready, moment, buffer)
    }

    /// Which timeout is over, where the connection in a place is open and a peer of it has been silent for longer than it may, at
    /// a moment in ms.
    pub(crate) fn lateness(
        &mut self,
        place: usize,
        moment: u64,
        timeouts: &Timeouts,
    ) -> Option<Lateness>
        ensures none { NoneCame (λ one. is_some one.link) (λ one. one.conn) self.old.held.items self.new.held.items }
    {
        let slot = self.held.get_mut(place)?;
        lateness_in(slot, moment, timeouts)
    }

    /// Whether the server of the connection in a place refused it, and is to be tried again at a moment in ms.
    pub(crate) fn is_due(&self, place: usize, moment: u64) -> bool {
        match self.held.get(place) {
            Some(Some(connection)) => connection.is_due(moment),
            _ => false,
        }
    }

    /// Whether the connection in a place is open, and a side of it that is owed a reset has taken all, at a moment in ms.
    pub(crate) fn is_settled(&self, place: usize, moment: u64) -> bool {
        match self.held.get(place) {
            Some(Some(connection)) => connection.is_settled(moment),
            _ => false,
        }
    }

    /// Where the server of the connection in a place is, by the rules that judge it.
    pub(crate) fn server_of(&self, place: usize) -> Option<SocketAddr>
        ensures server { IfSome result (λ server. IfSome (slice_get self.now.held.items place) (λ slot. IfSome slot (λ one. IsServer (judged_by one.conn).server server))) }
    {
        let connection = self.held.get(place)?.as_ref()?;
        let server = connection.conn.setup().server?;
        Some(socket_address(server))
    }

    /// Tries the server of the connection in a place again, by this socket. Whether the connection is over now.
    pub(crate) fn retry(
        &mut self,
        place: usize,
        server: ServerSocket,
        registry: &Registry,
        moment: u64,
        buffer: &mut Buffer,
    ) -> bool
        ensures none { NoneCame (λ one. is_some one.link) (λ one. one.conn) self.old.held.items self.new.held.items }
    {
        let Some(slot) = self.held.get_mut(place) else {
            return false;
        };
        retry_in(slot, server, registry, place, moment, buffer)
    }

    /// What isn't counted yet of the bytes of the connection in a place, and is from now on.
    pub(crate) fn count_traffic(&mut self, place: usize) -> Traffic
        ensures more { IfSome (slice_get self.old.held.items place) (λ slot. result ≡ uncounted_in (λ one. one.link) (λ one. one.counted) slot) }
        ensures none { NoneCame (λ one. is_some one.link) (λ one. one.conn) self.old.held.items self.new.held.items }
    {
        let Some(slot) = self.held.get_mut(place) else {
            return Traffic::none();
        };
        count_traffic_in(slot)
    }

    /// Takes the connection in a place, if it is open, with what of its bytes is counted. The place stays claimed.
    pub(crate) fn take(&mut self, place: usize) -> Option<OpenParts<'a, J>>
        ensures free { IfSome result (λ _. slice_get self.new.held.items place ≡ Some None) }
        ensures connection { IfSome result (λ taken. IsVisitor W.tables W.shards taken.0) }
        ensures rests { IfSome result (λ taken. needed taken.0 ≡ Rest) }
        ensures taken { IfSome result (λ taken. held_there (λ one. one.conn) (slice_get self.old.held.items place) ≡ (progress_of taken.0).held) }
        ensures was_open { is_some result ≡ is_open_there (λ one. is_some one.link) (slice_get self.old.held.items place) }
        ensures kept { IfNone result (held_there (λ one. one.conn) (slice_get self.new.held.items place) ≡ held_there (λ one. one.conn) (slice_get self.old.held.items place)) }
        ensures closed { is_open_there (λ one. is_some one.link) (slice_get self.new.held.items place) ≡ false }
        ensures others { OthersStay place self.old.held.items self.new.held.items }
        ensures count { length self.new.held.items ≡ length self.old.held.items }
        ensures none { NoneCame (λ one. is_some one.link) (λ one. one.conn) self.old.held.items self.new.held.items }
    {
        let slot = self.held.get_mut(place)?;
        let connection = slot.take()?;
        match connection.parts() {
            Ok((conn, link, counted)) => {
                self.open = self.open.saturating_sub(1);
                Some((conn, link, counted))
            }
            Err(kept) => {
                self.put(place, kept);
                None
            }
        }
    }

    /// All connections that are left.
    pub(crate) fn into_connections(self) -> Vec<Option<Connection<'a, J, W>>>
        ensures all { result ≡ self.entry.held }
        ensures few { vec_len result ≤ W.most }
    {
        let Places {
            held,
            free: _,
            most: _,
            open: _,
        } = self;
        held
    }
}

/// Gives the connection in a place its turn. Whether it is over now.
fn turn_in<J: Naming, W: Width>(
    slot: &mut Option<Connection<'_, J, W>>,
    registry: &Registry,
    ready: Ready,
    moment: u64,
    buffer: &mut Buffer,
) -> bool
    ensures stays { StaysThere (λ one. is_some one.link) (λ one. one.conn) slot.old slot.new }
{
    match slot {
        Some(connection) => connection.turn(registry, ready, moment, buffer),
        None => false,
    }
}

/// Tries the server of the connection in a place again. Whether it is over now.
fn retry_in<J: Naming, W: Width>(
    slot: &mut Option<Connection<'_, J, W>>,
    server: ServerSocket,
    registry: &Registry,
    place: usize,
    moment: u64,
    buffer: &mut Buffer,
) -> bool
    ensures stays { StaysThere (λ one. is_some one.link) (λ one. one.conn) slot.old slot.new }
{
    match slot {
        Some(connection) => connection.retry(server, registry, place, moment, buffer),
        None => false,
    }
}

/// Which timeout of the connection in a place is over, if one is.
fn lateness_in<J: Naming, W: Width>(
    slot: &mut Option<Connection<'_, J, W>>,
    moment: u64,
    timeouts: &Timeouts,
) -> Option<Lateness>
    ensures stays { StaysThere (λ one. is_some one.link) (λ one. one.conn) slot.old slot.new }
{
    match slot {
        Some(connection) => connection.lateness(moment, timeouts),
        None => None,
    }
}

/// What isn't counted yet of the bytes of the connection in a place.
fn count_traffic_in<J: Naming, W: Width>(slot: &mut Option<Connection<'_, J, W>>) -> Traffic
    ensures more { result ≡ uncounted_in (λ one. one.link) (λ one. one.counted) slot.old }
    ensures stays { StaysThere (λ one. is_some one.link) (λ one. one.conn) slot.old slot.new }
{
    match slot {
        Some(connection) => connection.count_traffic(),
        None => Traffic::none(),
    }
}
