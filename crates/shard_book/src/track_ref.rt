//! A reference to an entry of a shard, which can't be dropped; `shard_locks` makes it, and connections hold it.

ghost use Rattle.std.specs.Prelude.{◌≡◌};

use std::marker::Model;
use stick_table::Ticket;

/// A reference to an entry of a shard: its ticket is out there. It can't be dropped: it has to be released, settled or
/// given up.
pub struct TrackRef {
    shard: u32,
    ticket: Ticket,
}

impl Model for TrackRef {
    ghost use Rattle.shard_book.specs.SeatState.{RefState};

    ghost Value = { RefState };

    ghost view = { λ reference. record { shard = reference.shard; ticket = reference.ticket } };
}

impl TrackRef {
    /// The reference of a ticket that a shard told.
    pub fn new(shard: u32, ticket: Ticket) -> TrackRef
        ensures { result ≡ record { shard = shard; ticket = ticket } }
    {
        TrackRef { shard, ticket }
    }

    /// The shard that told its ticket.
    pub fn shard(&self) -> u32
        ensures { result ≡ self.now.shard }
    {
        self.shard
    }

    /// Its ticket.
    pub fn ticket(&self) -> Ticket
        ensures { result ≡ self.now.ticket }
    {
        self.ticket
    }

    /// Gives the reference up. Its ticket stays out, and so its shard's references never settle.
    pub fn abandon(self) {
        let TrackRef {
            shard: _,
            ticket: _,
        } = self;
    }
}
