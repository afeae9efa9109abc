//! A book beside the record of all its calls: what lies under a shard's lock in `shard_locks`.

ghost use Rattle.std.specs.Prelude.{◌≡◌, ◌≢◌, ◌≤◌, ◌<◌, ◌^◌, ◌++◌, ◌∷◌, [], ℕ, length, IfOk, IfErr, IsTrue, OnOk, OnErr};
ghost use mathlib.Core.Logic.{◌↔◌};
ghost use Rattle.stick_model.specs.Laws.{tickets_told};
ghost use Rattle.stick_model.specs.Limits.{IsTableEvent, IsTableSpec};
ghost use Rattle.stick_model.specs.declared.events.Event.TheVariants.{Release};
ghost use Rattle.stick_model.specs.declared.replies.Reply.TheVariants.{Released};
ghost use Rattle.stick_model.specs.declared.replies.Refusal.TheVariants.{Stale};
ghost use Rattle.shard_record.specs.Calls.{call as noted};
ghost use Rattle.shard_record.specs.Parts.{holder};
ghost use Rattle.shard_record.specs.Views.{only};
ghost use Rattle.shard_record.specs.Telling.{IsNoRelease, IsReference, IsSeer, IsSettled, IsTold, key_at, log_of, number_of, ticket_at};
ghost use Rattle.shard_book.specs.BookState.{Extends, opened, rolled};
ghost use Rattle.shard_book.specs.Kept.{IsKept, IsMadeWith};
ghost use Rattle.shard_book.specs.Told.{IsRefusedBy, IsRefusedTo, Told};

use crate::seat::serve_lent;
use crate::{Book, Occupancy, Seat};
use base_sequence::NoMemory;
use shard_record::{Keeper, Naming, Record, Token};
use std::marker::Model;
use stick_table::{Event, Refusal, Reply, RowRoom, Table, Ticket};

/// A book beside what keeps its record.
#[derive(Drop)]
pub struct Kept<T: Table, J: Naming> {
    book: Book<T>,
    keeper: Keeper<J>,
}

impl<T: Table, J: Naming> Model for Kept<T, J> {
    ghost use Rattle.shard_book.specs.Kept.{IsKept, KeptState};

    ghost Value = { KeptState };

    ghost view = { λ kept. record { book = kept.book; number = kept.keeper.book; log = kept.keeper.log } };

    ghost invariant = { λ kept. IsKept (J.specs kept.keeper.book) kept.book kept.keeper.log };
}

impl<T: Table, J: Naming> Kept<T, J> {
    /// The book of an empty table, and what keeps an empty record. The table was made as the record has it.
    pub fn new(book: Book<T>, keeper: Keeper<J>) -> Kept<T, J>
        requires limits { IsTableSpec book.base.spec }
        requires book { book ≡ opened book.base.spec }
        requires made { book.base.spec ≡ J.specs keeper.book }
        requires keeper { keeper.log ≡ [] }
        ensures { result ≡ record { book = book; number = keeper.book; log = [] } }
    {
        Kept { book, keeper }
    }

    /// A book and what keeps its record, together again.
    pub fn from_parts(book: Book<T>, keeper: Keeper<J>) -> Kept<T, J>
        requires kept { IsKept (J.specs keeper.book) book keeper.log }
        ensures { result ≡ record { book = book; number = keeper.book; log = keeper.log } }
    {
        Kept { book, keeper }
    }

    /// The book, and what keeps its record.
    pub fn into_parts(self) -> (Book<T>, Keeper<J>)
        ensures book { result.0 ≡ self.book }
        ensures keeper { result.1 ≡ record { book = self.number; log = self.log } }
        ensures kept { IsKept (J.specs result.1.book) result.0 result.1.log }
    {
        let Kept { book, keeper } = self;
        (book, keeper)
    }

    /// The book.
    pub fn book(&self) -> &Book<T>
        ensures book { result.now ≡ self.now.book }
        ensures kept { IsKept (J.specs self.now.number) result.now self.now.log }
    {
        &self.book
    }

    /// What the book's live table is occupied by, and what went to make room there.
    pub fn occupancy(&self) -> Occupancy
        ensures { result.references ≡ length self.now.book.live.tickets }
    {
        self.book.occupancy()
    }

    /// How many entries the book's table has, as `Table::entries`.
    pub fn entries(&self) -> usize
        ensures { result ≡ length self.now.book.live.records }
    {
        self.book.entries()
    }

    /// Gives the book's table room for the rows of its next listing, as `Table::swap_room`. It stays as it is.
    pub fn swap_room(&mut self, room: RowRoom) -> RowRoom
        ensures { self.new ≡ self.old }
    {
        self.book.swap_room(room)
    }

    /// Whether it is the book of this number.
    pub fn is_of(&self, number: u32) -> bool
        ensures { IsTrue result ↔ (self.now.number ≡ number) }
    {
        self.keeper.is_of(number)
    }

    /// Rolls the book, as `Book::roll` does. Its record stays.
    pub fn roll(&mut self) -> Result<(), NoMemory>
        ensures ok { OnOk result (self.new.book ≡ rolled self.old.book) }
        ensures err { OnErr result (self.new.book ≡ self.old.book) }
        ensures record { (self.new.log ≡ self.old.log) × (self.new.number ≡ self.old.number) }
    {
        self.book.roll()
    }

    /// Has the book answer an event that is no release, for a seat, as `serve` does, and notes the call in its record. The seat's
    /// token is told. Another has the reference that the call made, if it made one. A refusal changes nothing.
    pub fn serve(
        &mut self,
        records: &Record<J>,
        seat: &mut Seat,
        token: &mut Token<J>,
        shard: u32,
        event: &Event,
    ) -> Result<(Reply, Token<J>), Refusal>
        requires shard { shard < 64 }
        requires event { IsTableEvent event.now }
        requires other { IsNoRelease event.now }
        requires seer { IsSeer self.old.number token.old }
        requires settled { IsSettled token.old }
        ensures ok { IfOk result (λ told. Extends self.old.book seat.old.number event.now told.0 self.new.book) }
        ensures told { IfOk result (λ told. Told seat.old shard event.now told.0 seat.new) }
        ensures recorded { IfOk result (λ told. self.new.log ≡ self.old.log ++ noted (number_of self.old.number token.old) event.now told.0 ∷ []) }
        ensures mine { IfOk result (λ told. IsTold self.old.number event.now told.0 token.old token.new) }
        ensures seen { OnOk result (log_of self.old.number token.new ≡ self.new.log) }
        ensures of_spec { OnOk result (IsMadeWith (J.specs self.old.number) self.new.log) }
        ensures seer { IsSeer self.old.number token.new }
        ensures settled { IsSettled token.new }
        ensures given { IfOk result (λ told. told.1 ≡ only self.old.number (holder self.new.log (tickets_told event.now told.0 []))) }
        ensures number { self.new.number ≡ self.old.number }
        ensures refused { IfErr result (IsRefusedTo seat.old shard event.now) }
        ensures cause { IfErr result (IsRefusedBy self.old.book.live seat.old shard event.now) }
        ensures err { OnErr result ((self.new ≡ self.old) × (seat.new ≡ seat.old) × (token.new ≡ token.old)) }
    {
        let Kept { book, keeper } = self;
        let reply = serve_lent(book, seat, shard, event)?;
        let given = keeper.note(records, token, event, &reply);
        Ok((reply, given))
    }

    /// Has the book release a reference, for a seat, and notes the call in its record. The reference is out: it is never refused
    /// as stale. A refusal changes nothing, and hands the reference's token back.
    pub fn release(
        &mut self,
        records: &Record<J>,
        seat: &mut Seat,
        token: &mut Token<J>,
        reference: Token<J>,
        shard: u32,
        now: u64,
        ticket: Ticket,
    ) -> Result<(), (Token<J>, Refusal)>
        requires shard { shard < 64 }
        requires moment { now < 2 ^ 62 }
        requires reference { IsReference self.old.number reference }
        requires ticket { ticket ≡ ticket_at self.old.number reference }
        requires seer { IsSeer self.old.number token.old }
        requires settled { IsSettled token.old }
        ensures ok { OnOk result (Extends self.old.book seat.old.number (Release now ticket) Released self.new.book) }
        ensures told { OnOk result (Told seat.old shard (Release now ticket) Released seat.new) }
        ensures recorded { OnOk result (self.new.log ≡ self.old.log ++ noted (number_of self.old.number token.old) (Release now ticket) Released ∷ []) }
        ensures mine { OnOk result (IsTold self.old.number (Release now ticket) Released token.old token.new) }
        ensures seen { OnOk result (log_of self.old.number token.new ≡ self.new.log) }
        ensures of_spec { OnOk result (IsMadeWith (J.specs self.old.number) self.new.log) }
        ensures seer { IsSeer self.old.number token.new }
        ensures settled { IsSettled token.new }
        ensures number { self.new.number ≡ self.old.number }
        ensures refused { IfErr result (λ refused. IsRefusedTo seat.old shard (Release now ticket) refused.1) }
        ensures cause { IfErr result (λ refused. IsRefusedBy self.old.book.live seat.old shard (Release now ticket) refused.1) }
        ensures fresh { IfErr result (λ refused. refused.1 ≢ Stale) }
        ensures back { IfErr result (λ refused. refused.0 ≡ only self.old.number (holder self.old.log ((ticket, key_at self.old.number reference) ∷ []))) }
        ensures err { OnErr result ((self.new ≡ self.old) × (seat.new ≡ seat.old) × (token.new ≡ token.old)) }
    {
        let Kept { book, keeper } = self;
        let release = Event::Release(now, ticket);
        let reply = match serve_lent(book, seat, shard, &release) {
            Ok(reply) => reply,
            Err(refusal) => {
                let mut shown = reference;
                keeper.confirm(records, &mut shown);
                return Err((shown, refusal));
            }
        };
        keeper.note_release(records, token, reference, &release, &reply);
        Ok(())
    }
}
