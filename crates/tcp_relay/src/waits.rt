//! Clients that are to begin by a header, until it is whole; `receiving` puts them here, and `closing` ends those that are late.
//!
//! Each has its place among the worker's connections, which is claimed and empty until then. It holds no reference.

ghost use Rattle.std.specs.Prelude.{◌≡◌, ◌≢◌, ◌≤◌, true, false, length, IfNone, IfOk, IfSome, Some, None};
ghost use Rattle.tcp_relay.specs.Hearings.{IsHeard, is_late};
ghost use Rattle.tcp_relay.specs.Releasing.{OthersStay};
ghost use Rattle.tcp_relay.specs.Waiting.{count_less, in_place};

use crate::header::Header;
use crate::hearing::{Hearing, hearing_of};
use crate::proxied::Proxied;
use crate::width::Width;
use base_sequence::NoMemory;
use std::alloc::Global;
use std::io::{ErrorKind, Read};
use std::net::TcpStream;
use tcp_link::ServerSocket;

/// How many bytes of a client are looked at. A header that is right has no more, so that more are never waited for.
const ROOM: usize = 4_096;

/// A client of which more bytes are waited for before it is judged.
#[derive(Drop)]
pub(crate) struct Waiting<W: Width> {
    pub(crate) client: Proxied<W>,
    /// The number under which it was accepted.
    pub(crate) number: u64,
    /// Since when it is waited for, in ms by the clock of silence.
    pub(crate) since: u64,
    /// The socket for its server, so that one that was accepted can be carried.
    pub(crate) server: Option<ServerSocket>,
}

/// The clients of a worker that are waited for, by the numbers of their places.
#[derive(Drop)]
pub(crate) struct Waits<W: Width> {
    clients: Vec<Option<Waiting<W>>>,
    /// How many there are.
    count: usize,
    /// Room for the first bytes of one.
    bytes: Vec<u8>,
}

impl<W: Width> Waits<W> {
    /// Nobody, with so many places, and memory for them. Without any place it takes none.
    pub(crate) fn reserve(alloc: Global, places: usize) -> Result<Waits<W>, NoMemory>
        ensures none { IfOk result (λ waits. waits.count ≡ 0) }
    {
        let mut clients = Vec::with_capacity(alloc, places)?;
        for _place in 0..places {
            // There is room for all.
            clients.push(None)?;
        }
        let room = if places == 0 { 0 } else { ROOM };
        Ok(Waits {
            clients,
            count: 0,
            bytes: vec![in alloc; 0u8; room]?,
        })
    }

    /// How many clients are waited for.
    pub(crate) fn count(&self) -> usize
        ensures { result ≡ self.now.count }
    {
        self.count
    }

    /// How many places there are.
    pub(crate) fn places(&self) -> usize
        ensures { result ≡ length self.now.clients.items }
    {
        self.clients.as_slice().len()
    }

    /// Puts a client in its place. It comes back where there is no such place.
    pub(crate) fn put(&mut self, place: usize, waiting: Waiting<W>) -> Option<Waiting<W>>
        ensures waits { IfNone result (in_place self.new.clients.items place ≡ Some waiting) }
        ensures back { IfSome result (λ back. back ≡ waiting) }
        ensures others { OthersStay place self.old.clients.items self.new.clients.items }
    {
        let Some(slot) = self.clients.get_mut(place) else {
            return Some(waiting);
        };
        *slot = Some(waiting);
        self.count = self.count.saturating_add(1);
        None
    }

    /// Takes the client out of a place, if one is waited for there.
    pub(crate) fn take(&mut self, place: usize) -> Option<Waiting<W>>
        ensures taken { result ≡ in_place self.old.clients.items place }
        ensures gone { in_place self.new.clients.items place ≡ None }
        ensures others { OthersStay place self.old.clients.items self.new.clients.items }
        ensures count { self.new.count ≡ count_less (in_place self.old.clients.items place) self.old.count }
    {
        let waiting = self.clients.get_mut(place)?.take()?;
        self.count = self.count.saturating_sub(1);
        Some(waiting)
    }

    /// Whether the client in a place has been waited for as long as this, at a moment, both in ms.
    pub(crate) fn is_late(&self, place: usize, timeout: u64, moment: u64) -> bool
        ensures late { IfSome (in_place self.now.clients.items place) (λ one. result ≡ is_late timeout one.since moment) }
        ensures nobody { IfNone (in_place self.now.clients.items place) (result ≡ false) }
    {
        match self.clients.get(place) {
            Some(Some(waiting)) => is_late(timeout, waiting.since, moment),
            _ => false,
        }
    }

    /// What becomes of a client by the bytes of it that are there. One that sends no more isn't waited for.
    pub(crate) fn hear(&mut self, client: &TcpStream, is_closed: bool) -> Hearing
        ensures heard { IsHeard result }
        ensures closed { is_closed ≡ true → result ≢ Hearing.WaitOn }
    {
        let (count, has_ended) = look(client, self.bytes.as_mut_slice());
        let bytes = &self.bytes.as_slice()[..count];
        hearing_of(bytes, is_closed || has_ended)
    }

    /// Reads a header that is there, and nothing after it. Whether it was read.
    pub(crate) fn read(&mut self, mut client: &TcpStream, header: Header) -> bool {
        let Some(room) = self.bytes.as_mut_slice().get_mut(..header.length) else {
            return false;
        };
        match client.read(room) {
            Ok(count) => count == header.length,
            Err(_) => false,
        }
    }
}

/// Whether a header that is waited for since a moment is late at another.
fn is_late(timeout: u64, since: u64, moment: u64) -> bool
    ensures { result ≡ is_late timeout since moment }
{
    moment.saturating_sub(since) >= timeout
}

/// How many bytes of a client are there, as far as there is room, and whether it has ended or failed. They stay there.
fn look(client: &TcpStream, room: &mut [u8]) -> (usize, bool)
    ensures room { result.0 ≤ length room.new }
{
    match client.peek(room) {
        Ok(0) => (0, true),
        Ok(count) => (count, false),
        Err(error) => (0, error.kind() != ErrorKind::WouldBlock),
    }
}
