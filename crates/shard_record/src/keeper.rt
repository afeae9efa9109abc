//! What keeps the record of a book: it is to lie beside the book, under its shard's lock, and each call there notes itself by it.

ghost use Rattle.std.specs.Prelude.{◌≡◌, ◌++◌, ◌∷◌, [], ℕ, IsTrue};
ghost use mathlib.Core.Logic.{◌↔◌};
ghost use mathlib.Core.List.{IsPrefix};
ghost use Rattle.stick_model.specs.Laws.{tickets_told};
ghost use Rattle.stick_model.specs.declared.events.Event.TheVariants.{Release};
ghost use Rattle.stick_model.specs.declared.replies.Reply.TheVariants.{Released};
ghost use Rattle.shard_record.specs.Calls.{call};
ghost use Rattle.shard_record.specs.Parts.{holder, keeper as keeper_of};
ghost use Rattle.shard_record.specs.Views.{at, keeping, only, without_keeper};
ghost use Rattle.shard_record.specs.Telling.{HasAnswered, IsNoRelease, IsOut, IsReference, IsSeer, IsSettled, IsTold, key_at, log_of, number_of, ticket_at};

use crate::telling::{confirm, note, note_release};
use crate::{Naming, Record, Token};
use std::marker::Model;
use stick_model::{Event, Reply};

/// What keeps the record of a book. Contracts see it as the book's number and the calls that were noted.
#[derive(Drop)]
pub struct Keeper<J: Naming> {
    book: u32,
    token: Token<J>,
}

impl<J: Naming> Model for Keeper<J> {
    ghost use Rattle.shard_record.specs.Telling.{IsKeeper, KeeperState, log_of};

    ghost Value = { KeeperState };

    ghost view = { λ keeper. record { book = keeper.book; log = log_of keeper.book keeper.token } };

    ghost invariant = { λ keeper. IsKeeper keeper.book keeper.token };
}

impl<J: Naming> Keeper<J> {
    /// The keeper of a book of which no call was noted, from the token that may keep it.
    pub fn new(records: &Record<J>, first: &mut Token<J>, book: u32) -> Keeper<J>
        requires none { keeping (at book first.old) ≡ keeper_of [] }
        ensures keeper { result ≡ record { book = book; log = [] } }
        ensures left { first.new ≡ without_keeper book first.old }
    {
        Keeper {
            book,
            token: records.part_keeper(first, book),
        }
    }

    /// Whether it keeps the record of this book.
    pub fn is_of(&self, book: u32) -> bool
        ensures { IsTrue result ↔ (self.now.book ≡ book) }
    {
        self.book == book
    }

    /// Notes a call that the book has answered to a seat, and tells the seat. A token comes of it that has the reference which the
    /// call made, if it made one. A release is noted by `note_release`.
    pub fn note(
        &mut self,
        records: &Record<J>,
        seat: &mut Token<J>,
        event: &Event,
        reply: &Reply,
    ) -> Token<J>
        requires seat { IsSeer self.old.book seat.old }
        requires settled { IsSettled seat.old }
        requires answered { HasAnswered self.old.log event.now reply.now }
        requires other { IsNoRelease event.now }
        ensures noted { self.new ≡ record { book = self.old.book; log = self.old.log ++ call (number_of self.old.book seat.old) event.now reply.now ∷ [] } }
        ensures told { IsTold self.old.book event.now reply.now seat.old seat.new }
        ensures seen { log_of self.old.book seat.new ≡ self.new.log }
        ensures seat { IsSeer self.old.book seat.new }
        ensures settled { IsSettled seat.new }
        ensures given { result ≡ only self.old.book (holder self.new.log (tickets_told event.now reply.now [])) }
    {
        note(records, &mut self.token, seat, self.book, event, reply)
    }

    /// Notes a release that the book has answered to a seat, tells the seat, and takes the reference. That was out, and so the
    /// answer is that it is released.
    pub fn note_release(
        &mut self,
        records: &Record<J>,
        seat: &mut Token<J>,
        reference: Token<J>,
        release: &Event,
        reply: &Reply,
    )
        requires seat { IsSeer self.old.book seat.old }
        requires settled { IsSettled seat.old }
        requires reference { IsReference self.old.book reference }
        requires release { (now : ℕ) × (release.now ≡ Release now (ticket_at self.old.book reference)) }
        requires answered { HasAnswered self.old.log release.now reply.now }
        ensures released { reply.now ≡ Released }
        ensures noted { self.new ≡ record { book = self.old.book; log = self.old.log ++ call (number_of self.old.book seat.old) release.now reply.now ∷ [] } }
        ensures told { IsTold self.old.book release.now reply.now seat.old seat.new }
        ensures seen { log_of self.old.book seat.new ≡ self.new.log }
        ensures seat { IsSeer self.old.book seat.new }
        ensures settled { IsSettled seat.new }
    {
        note_release(
            records,
            &mut self.token,
            seat,
            reference,
            self.book,
            release,
            reply,
        )
    }

    /// Shows a reference the whole record of its book: what it has is out there, and so no call by it is refused as stale.
    pub fn confirm(&mut self, records: &Record<J>, reference: &mut Token<J>)
        requires reference { IsReference self.old.book reference.old }
        ensures same { self.new ≡ self.old }
        ensures reference { reference.new ≡ only self.old.book (holder self.old.log ((ticket_at self.old.book reference.old, key_at self.old.book reference.old) ∷ [])) }
        ensures seen { IsPrefix (log_of self.old.book reference.old) self.old.log }
        ensures out { IsOut self.old.log (ticket_at self.old.book reference.old) (key_at self.old.book reference.old) }
    {
        confirm(records, &mut self.token, reference, self.book)
    }
}
