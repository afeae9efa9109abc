//! A seat of a table that threads share; `Shards` makes it, and each of its calls is noted in the record.

ghost use Rattle.std.specs.Prelude.{◌≡◌, ◌≢◌, ◌<◌, ◌^◌, ◌++◌, ◌∷◌, [], IfOk, IfErr, OnOk, OnErr};
ghost use Rattle.stick_model.specs.Laws.{tickets_told};
ghost use Rattle.stick_model.specs.Limits.{IsTableEvent};
ghost use Rattle.stick_model.specs.declared.events.Event.TheVariants.{Release};
ghost use Rattle.stick_model.specs.declared.replies.Reply.TheVariants.{Released};
ghost use Rattle.stick_model.specs.declared.replies.Refusal.TheVariants.{Stale};
ghost use Rattle.shard_record.specs.Calls.{call as noted};
ghost use Rattle.shard_record.specs.Dealing.{SeesAll};
ghost use Rattle.shard_record.specs.Parts.{holder};
ghost use Rattle.shard_record.specs.Views.{only};
ghost use Rattle.shard_record.specs.Telling.{IsNoRelease, IsReference, IsSettled, IsTold, key_at, log_of, number_of, ticket_at};
ghost use Rattle.shard_book.specs.BookState.{Extends};
ghost use Rattle.shard_book.specs.Kept.{IsMadeWith};
ghost use Rattle.shard_book.specs.Told.{IsRefusedTo, Told};

use shard_book::{Kept, Seat};
use shard_record::{Naming, Record, Token};
use std::marker::Model;
use stick_table::{Event, Refusal, Reply, Table, Ticket};

/// What one caller has asked of each shard of a table that threads share, and seen there; and what it knows of the record of their
/// calls. That costs no memory. One thread at a time uses it.
#[derive(Drop)]
pub struct SharedSeat<J: Naming> {
    seat: Seat,
    token: Token<J>,
}

impl<J: Naming> Model for SharedSeat<J> {
    ghost use Rattle.shard_record.specs.Dealing.{SeesAll};
    ghost use Rattle.shard_record.specs.Telling.{IsSettled};
    ghost use Rattle.shard_locks.specs.Shared.{SharedSeatState};

    ghost Value = { SharedSeatState };

    ghost view = { λ shared. record { seat = shared.seat; known = shared.token } };

    ghost invariant = { λ shared. SeesAll J.books shared.token × IsSettled shared.token };
}

impl<J: Naming> SharedSeat<J> {
    /// A seat, and the token by which its calls are noted.
    pub(crate) fn new(seat: Seat, token: Token<J>) -> SharedSeat<J>
        requires sees { SeesAll J.books token }
        requires settled { IsSettled token }
        ensures { result ≡ record { seat = seat; known = token } }
    {
        SharedSeat { seat, token }
    }

    /// What it has asked and seen.
    pub fn seat(&self) -> &Seat
        ensures { result.now ≡ self.now.seat }
    {
        &self.seat
    }

    /// The token by which its calls were noted: it calls no more.
    pub(crate) fn into_token(self) -> Token<J>
        ensures known { result ≡ self.known }
        ensures sees { SeesAll J.books result }
    {
        let SharedSeat { seat: _, token } = self;
        token
    }

    /// Has a book answer an event that is no release, as `Kept::serve` does: what is done under the shard's lock.
    pub(crate) fn ask<T: Table>(
        &mut self,
        kept: &mut Kept<T, J>,
        records: &Record<J>,
        shard: u32,
        event: &Event,
    ) -> Result<(Reply, Token<J>), Refusal>
        requires shard { shard < 64 }
        requires event { IsTableEvent event.now }
        requires other { IsNoRelease event.now }
        requires book { kept.old.number < J.books }
        ensures ok { IfOk result (λ told. Extends kept.old.book self.old.seat.number event.now told.0 kept.new.book) }
        ensures told { IfOk result (λ told. Told self.old.seat shard event.now told.0 self.new.seat) }
        ensures grown { IfOk result (λ told. kept.new.log ≡ kept.old.log ++ noted (number_of kept.old.number self.old.known) event.now told.0 ∷ []) }
        ensures recorded { IfOk result (λ told. IsTold kept.old.number event.now told.0 self.old.known self.new.known) }
        ensures seen { OnOk result (log_of kept.old.number self.new.known ≡ kept.new.log) }
        ensures of_spec { OnOk result (IsMadeWith (J.specs kept.old.number) (log_of kept.old.number self.new.known)) }
        ensures given { IfOk result (λ told. told.1 ≡ only kept.old.number (holder kept.new.log (tickets_told event.now told.0 []))) }
        ensures number { kept.new.number ≡ kept.old.number }
        ensures refused { IfErr result (IsRefusedTo self.old.seat shard event.now) }
        ensures err { OnErr result ((kept.new ≡ kept.old) × (self.new ≡ self.old)) }
    {
        let SharedSeat { seat, token } = self;
        match kept.serve(records, seat, token, shard, event) {
            Ok(told) => Ok(told),
            Err(refusal) => Err(refusal),
        }
    }

    /// Has a book release a reference, as `Kept::release` does: what is done under the shard's lock.
    pub(crate) fn give_back<T: Table>(
        &mut self,
        kept: &mut Kept<T, J>,
        records: &Record<J>,
        reference: Token<J>,
        shard: u32,
        now: u64,
        ticket: Ticket,
    ) -> Result<(), (Token<J>, Refusal)>
        requires shard { shard < 64 }
        requires moment { now < 2 ^ 62 }
        requires reference { IsReference kept.old.number reference }
        requires ticket { ticket ≡ ticket_at kept.old.number reference }
        requires book { kept.old.number < J.books }
        ensures ok { OnOk result (Extends kept.old.book self.old.seat.number (Release now ticket) Released kept.new.book) }
        ensures told { OnOk result (Told self.old.seat shard (Release now ticket) Released self.new.seat) }
        ensures grown { OnOk result (kept.new.log ≡ kept.old.log ++ noted (number_of kept.old.number self.old.known) (Release now ticket) Released ∷ []) }
        ensures recorded { OnOk result (IsTold kept.old.number (Release now ticket) Released self.old.known self.new.known) }
        ensures seen { OnOk result (log_of kept.old.number self.new.known ≡ kept.new.log) }
        ensures of_spec { OnOk result (IsMadeWith (J.specs kept.old.number) (log_of kept.old.number self.new.known)) }
        ensures number { kept.new.number ≡ kept.old.number }
        ensures refused { IfErr result (λ refused. IsRefusedTo self.old.seat shard (Release now ticket) refused.1) }
        ensures fresh { IfErr result (λ refused. refused.1 ≢ Stale) }
        ensures back { IfErr result (λ refused. refused.0 ≡ only kept.old.number (holder kept.old.log ((ticket, key_at kept.old.number reference) ∷ []))) }
        ensures err { OnErr result ((kept.new ≡ kept.old) × (self.new ≡ self.old)) }
    {
        let SharedSeat { seat, token } = self;
        match kept.release(records, seat, token, reference, shard, now, ticket) {
            Ok(()) => Ok(()),
            Err(refused) => Err(refused),
        }
    }
}
