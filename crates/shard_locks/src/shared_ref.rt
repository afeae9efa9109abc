//! A reference to an entry of a table that threads share, which can't be dropped; `Shards` makes it, and connections hold it.

ghost use Rattle.std.specs.Prelude.{◌≡◌};
ghost use Rattle.shard_record.specs.Telling.{IsReference, ticket_at};
ghost use Rattle.shard_locks.specs.Shared.{KnowsKey};

use shard_record::{Naming, Token};
use std::marker::Model;
use stick_table::Ticket;

/// A reference to an entry of a shard: its ticket is out there, for it alone has the ticket in the record. It can't be dropped: it
/// has to be released, settled or given up.
pub struct SharedRef<J: Naming> {
    shard: u32,
    /// The number by which the record has the shard's book.
    book: u32,
    ticket: Ticket,
    token: Token<J>,
}

impl<J: Naming> Model for SharedRef<J> {
    ghost use Rattle.std.specs.Prelude.{◌≡◌};
    ghost use Rattle.shard_record.specs.Telling.{IsReference, ticket_at};
    ghost use Rattle.shard_book.specs.SeatState.{RefState};
    ghost use Rattle.shard_locks.specs.Shared.{KnowsKey};

    ghost Value = { RefState };

    ghost view = { λ reference. record { shard = reference.shard; ticket = reference.ticket } };

    ghost invariant = { λ reference. IsReference reference.book reference.token × (reference.ticket ≡ ticket_at reference.book reference.token)
        × KnowsKey reference.book reference.token };
}

impl<J: Naming> SharedRef<J> {
    /// The reference of a ticket that a shard told, with the token that has it.
    pub(crate) fn new(shard: u32, book: u32, ticket: Ticket, token: Token<J>) -> SharedRef<J>
        requires reference { IsReference book token }
        requires ticket { ticket ≡ ticket_at book token }
        requires known { KnowsKey book token }
        ensures { result ≡ record { shard = shard; ticket = ticket } }
    {
        SharedRef {
            shard,
            book,
            ticket,
            token,
        }
    }

    /// The shard that told its ticket.
    pub fn shard(&self) -> u32
        ensures { result ≡ self.now.shard }
    {
        self.shard
    }

    /// Its ticket.
    pub fn ticket(&self) -> Ticket
        ensures { result ≡ self.now.ticket }
    {
        self.ticket
    }

    /// The number by which the record has its book.
    pub(crate) fn book(&self) -> u32 {
        self.book
    }

    /// The number of its book, and the token that has its ticket there.
    pub(crate) fn into_token(self) -> (u32, Token<J>)
        ensures reference { IsReference result.0 result.1 }
        ensures ticket { self.ticket ≡ ticket_at result.0 result.1 }
        ensures known { KnowsKey result.0 result.1 }
    {
        let SharedRef {
            shard: _,
            book,
            ticket: _,
            token,
        } = self;
        (book, token)
    }

    /// Gives the reference up. Its ticket stays out, and so its shard's references never settle.
    pub fn abandon(self) {
        let SharedRef {
            shard: _,
            book: _,
            ticket: _,
            token: _,
        } = self;
    }
}
