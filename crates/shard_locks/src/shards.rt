//! A table in shards, shared by threads, with one lock a shard; connections, `Seated`, housekeeping and settling call it.

ghost use Rattle.std.specs.Prelude.{◌≡◌, ◌≢◌, ◌+◌, ◌≤◌, ◌<◌, ◌^◌, [], Ok, Err, true, false, length, IfOk, IfErr, OnOk, OnErr};
ghost use Rattle.stick_key.specs.Shard.{shard};
ghost use Rattle.stored_data.specs.Laws.{HasTag};
ghost use Rattle.stick_model.specs.Limits.{IsTableSpec, IsTableEvent};
ghost use Rattle.stick_model.specs.declared.events.Event.TheVariants.{Track, Look, Count, Release};
ghost use Rattle.stick_model.specs.declared.replies.Reply.TheVariants.{Row as Shown, Value, Released};
ghost use Rattle.stick_model.specs.declared.replies.Refusal.TheVariants.{Stale};
ghost use Rattle.stick_model.specs.Laws.{tickets_told};
ghost use Rattle.shard_record.specs.Dealing.{HasLeft};
ghost use Rattle.shard_record.specs.Parts.{holder};
ghost use Rattle.shard_record.specs.Views.{only};
ghost use Rattle.shard_record.specs.Telling.{IsNoRelease, IsTold, log_of};
ghost use Rattle.shard_book.specs.Keeping.{MayAsk, part_of};
ghost use Rattle.shard_book.specs.Told.{Told, IsRefusedTo};
ghost use Rattle.shard_locks.specs.Shared.{AreParts, HasMade, IsOfShard, seats_of};
ghost use Rattle.shard_locks.specs.ShardsState.{IsReferenceRefused, IsUnlocked, book_of, fresh_seats};
ghost use Rattle.shard_locks.specs.Tracking.{IsAt, reply_of};

use crate::insisting::insist;
use crate::opening::{Locks, open_locks, open_seats, specs_of_shards};
use crate::rolling::roll_long;
use crate::tracking::tracking_of;
use crate::unlocked::{lock_all, room_for, unlock_all};
use crate::{SharedRef, SharedSeat, Tracking, Unlocked};
use base_sequence::NoMemory;
use shard_port::{counted_value, shown_row};
use shard_record::{Dealer, Naming, Record, Token};
use std::alloc::Global;
use std::marker::Model;
use std::sync::{Arc, Wait};
use stick_key::{StickKey, shard_of};
use stick_table::{Event, Refusal, Reply, Row, Spec, Table};
use stored_data::Act;

/// A table in shards, shared by threads. Each shard's book has a lock of its own, so that calls of different shards go on
/// side by side. Beside each book lies what keeps the record of its calls, which exists in proofs alone. A seat may be used with
/// each table of its record, and a reference with the table that made it: with another of the record its calls never return.
#[derive(Drop)]
pub struct Shards<T: Table, J: Naming> {
    pub(crate) spec: Spec,
    /// What each shard was made with: nothing of a book can be lent out of its lock.
    specs: Vec<Spec>,
    keep: bool,
    pub(crate) records: Arc<Record<J>, Global>,
    /// The number by which the record has the book of the first shard.
    first: u32,
    pub(crate) books: Locks<T, J>,
}

impl<T: Table, J: Naming> Model for Shards<T, J> {
    ghost use Rattle.std.specs.Prelude.{length};
    ghost use Rattle.shard_locks.specs.ShardsState.{ShardsState, AreShards};
    ghost use Rattle.shard_locks.specs.Shared.{AreNumbered, AreParts};

    ghost Value = { ShardsState };

    ghost view = { λ table. record { spec = table.spec; shards = length table.books.items; keep = table.keep; first = table.first } };

    ghost invariant = { λ table. AreShards table.spec (length table.books.items) table.specs.items × AreNumbered table.first (length table.books.items) J.books
        × AreParts J.specs table.first table.spec (length table.books.items) };
}

impl<T: Table, J: Naming> Shards<T, J> {
    /// A table's empty shards, and as many seats for their callers. The first shards have one place more, where the size is
    /// no multiple. With `keep`, the seats keep receipts. The dealer has a record that keeps the calls of as many books, and
    /// says that these are made so.
    pub fn new(
        alloc: Global,
        dealer: &mut Dealer<J>,
        spec: Spec,
        shards: u32,
        seats: u32,
        keep: bool,
    ) -> Result<(Shards<T, J>, Vec<SharedSeat<J>>), NoMemory>
        requires spec { IsTableSpec spec }
        requires some { 1 ≤ shards }
        requires few { shards ≤ 64 }
        requires places { shards ≤ spec.size }
        requires callers { (1 ≤ seats) × (seats ≤ 1024) }
        requires left { HasLeft dealer.old shards seats }
        requires parts { AreParts J.specs dealer.old.kept spec shards }
        ensures table { IfOk result (λ made. made.0 ≡ record { spec = spec; shards = shards; keep = keep; first = dealer.old.kept }) }
        ensures seats { IfOk result (λ made. seats_of made.1.items ≡ fresh_seats seats keep) }
        ensures dealt { OnOk result (dealer.new ≡ record dealer.old { kept = dealer.old.kept + shards; seated = dealer.old.seated + seats }) }
    {
        let specs = specs_of_shards(alloc, &spec, shards)?;
        let records = dealer.records()?;
        let first = dealer.kept();
        let room = u32::MAX - shards;
        if room < first {
            return Err(NoMemory);
        }
        let books = open_locks(alloc, dealer, &spec, shards)?;
        let seats = open_seats(alloc, dealer, seats, keep)?;
        let table = Shards {
            spec,
            specs,
            keep,
            records,
            first,
            books,
        };
        Ok((table, seats))
    }

    /// The books out of their locks, as settling needs them: nobody waits for a lock that is owned. Where there is no memory
    /// for the lists of them, the table comes back.
    pub fn into_books(self, alloc: Global) -> Result<Unlocked<T, J>, Shards<T, J>>
        ensures ok { IfOk result (IsUnlocked self) }
        ensures err { IfErr result (λ table. table ≡ self) }
    {
        let count = self.books.as_slice().len();
        let Some((mut books, mut keepers)) = room_for(alloc, count) else {
            return Err(self);
        };
        let Shards {
            spec,
            specs,
            keep,
            records,
            first,
            books: locks,
        } = self;
        let room = unlock_all(locks, &mut books, &mut keepers);
        Ok(Unlocked {
            spec,
            specs,
            keep,
            records,
            first,
            books,
            keepers,
            room,
        })
    }

    /// The table again, its books under locks. It takes no memory.
    pub fn from_books(unlocked: Unlocked<T, J>) -> Shards<T, J>
        ensures { result ≡ record { spec = unlocked.spec; shards = length unlocked.books; keep = unlocked.keep; first = unlocked.first } }
    {
        let Unlocked {
            spec,
            specs,
            keep,
            records,
            first,
            books,
            keepers,
            room,
        } = unlocked;
        Shards {
            spec,
            specs,
            keep,
            records,
            first,
            books: lock_all(books, keepers, room),
        }
    }

    /// How many shards there are.
    pub fn shards(&self) -> u32
        ensures shards { result ≡ self.now.shards }
        ensures some { 1 ≤ result }
        ensures few { result ≤ 64 }
        ensures places { result ≤ self.now.spec.size }
    {
        self.books.as_slice().len() as u32
    }

    /// What a shard was made with.
    pub fn spec(&self, shard: u32) -> &Spec
        requires { shard < self.now.shards }
        ensures spec { result.now ≡ part_of self.now.spec self.now.shards shard }
        ensures limits { IsTableSpec result.now }
    {
        &self.specs[shard as usize]
    }

    /// What the whole table was made with.
    pub(crate) fn whole(&self) -> &Spec
        ensures spec { result.now ≡ self.now.spec }
        ensures limits { IsTableSpec result.now }
        ensures places { self.now.shards ≤ result.now.size }
    {
        &self.spec
    }

    /// The number by which the record has the book of a shard.
    pub(crate) fn book_of(&self, shard: u32) -> u32
        requires { shard < self.now.shards }
        ensures book { result ≡ book_of self.now shard }
        ensures inside { result < J.books }
        ensures made { J.specs result ≡ part_of self.now.spec self.now.shards shard }
    {
        self.first + shard
    }

    /// Has a shard's book answer an event that is no release, for a seat, under the shard's lock. What comes with it has the
    /// reference which the call made, if it made one.
    fn call_any(
        &self,
        rt: &impl Wait,
        seat: &mut SharedSeat<J>,
        shard: u32,
        event: &Event,
    ) -> Result<(Reply, Token<J>), Refusal>
        requires shard { shard < self.now.shards }
        requires event { IsTableEvent event.now }
        requires other { IsNoRelease event.now }
        ensures told { IfOk result (λ told. Told seat.old.seat shard event.now told.0 seat.new.seat) }
        ensures recorded { IfOk result (λ told. IsTold (book_of self.now shard) event.now told.0 seat.old.known seat.new.known) }
        ensures of_spec { OnOk result (IsOfShard self.now shard seat.new.known) }
        ensures given { IfOk result (λ told. told.1 ≡ only (book_of self.now shard) (holder (log_of (book_of self.now shard) seat.new.known) (tickets_told event.now told.0 []))) }
        ensures refused { IfErr result (IsRefusedTo seat.old.seat shard event.now) }
        ensures err { OnErr result (seat.new ≡ seat.old) }
    {
        let book = self.book_of(shard);
        let mut kept = self.books[shard as usize].lock(rt);
        insist(rt, kept.is_of(book));
        match seat.ask(&mut kept, &self.records, shard, event) {
            Ok(told) => Ok(told),
            Err(refusal) => Err(refusal),
        }
    }

    /// Asks a shard an event that names no ticket, and of a key only where the key lies on it. A refusal changes nothing:
    /// `Behind` where the seat has seen more events of the shard than its book has counted, which is answered first; else
    /// as `serve` refuses.
    pub fn call(
        &self,
        rt: &impl Wait,
        seat: &mut SharedSeat<J>,
        shard: u32,
        event: Event,
    ) -> Result<Reply, Refusal>
        requires shard { shard < self.now.shards }
        requires event { IsTableEvent event }
        requires asked { MayAsk self.now.shards shard event }
        ensures told { IfOk result (λ reply. Told seat.old.seat shard event reply seat.new.seat) }
        ensures recorded { IfOk result (λ reply. IsTold (book_of self.now shard) event reply seat.old.known seat.new.known) }
        ensures mine { IfOk result (λ reply. HasMade (book_of self.now shard) event reply seat.old.known seat.new.known) }
        ensures of_spec { OnOk result (IsOfShard self.now shard seat.new.known) }
        ensures refused { IfErr result (IsRefusedTo seat.old.seat shard event) }
        ensures err { OnErr result (seat.new ≡ seat.old) }
    {
        match self.call_any(rt, seat, shard, &event) {
            Ok((reply, _token)) => Ok(reply),
            Err(refusal) => Err(refusal),
        }
    }

    /// Gives a reference back. A refusal changes nothing, and hands it back: `Stale`, before all else, where its shard is
    /// none of these, and never else; else as `call`. To a seat without receipts it is refused as `Behind` alone.
    pub fn release(
        &self,
        rt: &impl Wait,
        seat: &mut SharedSeat<J>,
        reference: SharedRef<J>,
        now: u64,
    ) -> Result<(), (SharedRef<J>, Refusal)>
        requires moment { now < 2 ^ 62 }
        ensures told { OnOk result (Told seat.old.seat reference.shard (Release now reference.ticket) Released seat.new.seat) }
        ensures recorded { OnOk result (IsTold (book_of self.now reference.shard) (Release now reference.ticket) Released seat.old.known seat.new.known) }
        ensures mine { OnOk result (HasMade (book_of self.now reference.shard) (Release now reference.ticket) Released seat.old.known seat.new.known) }
        ensures of_spec { OnOk result (IsOfShard self.now reference.shard seat.new.known) }
        ensures back { IfErr result (λ refused. refused.0 ≡ reference) }
        ensures refused { IfErr result (λ refused. IsReferenceRefused self.now.shards seat.old.seat reference.shard (Release now reference.ticket) refused.1) }
        ensures strange { self.now.shards ≤ reference.shard → result ≡ Err (reference, Stale) }
        ensures fresh { reference.shard < self.now.shards → IfErr result (λ refused. refused.1 ≢ Stale) }
        ensures err { OnErr result (seat.new ≡ seat.old) }
    {
        let shard = reference.shard();
        if shard >= self.shards() {
            return Err((reference, Refusal::Stale));
        }
        let own = self.book_of(shard);
        let ticket = reference.ticket();
        let (book, mut token) = reference.into_token();
        insist(rt, book == own);
        // What it knows of its key would go with it.
        let known = self.records.part_keeper(&mut token, book);
        let mut kept = self.books[shard as usize].lock(rt);
        insist(rt, kept.is_of(book));
        match seat.give_back(&mut kept, &self.records, token, shard, now, ticket) {
            Ok(()) => Ok(()),
            Err((mut token, refusal)) => {
                self.records.join(&mut token, known);
                Err((SharedRef::new(shard, book, ticket, token), refusal))
            }
        }
    }

    /// Shows the entry of a reference. A refusal changes nothing: `Stale`, before all else, where its shard is none of
    /// these; else as `call`.
    pub fn look(
        &self,
        rt: &impl Wait,
        seat: &mut SharedSeat<J>,
        reference: &SharedRef<J>,
        now: u64,
    ) -> Result<Row, Refusal>
        requires moment { now < 2 ^ 62 }
        ensures told { IfOk result (λ row. Told seat.old.seat reference.now.shard (Look now reference.now.ticket) (Shown row) seat.new.seat) }
        ensures recorded { IfOk result (λ row. IsTold (book_of self.now reference.now.shard) (Look now reference.now.ticket) (Shown row) seat.old.known seat.new.known) }
        ensures mine { IfOk result (λ row. HasMade (book_of self.now reference.now.shard) (Look now reference.now.ticket) (Shown row) seat.old.known seat.new.known) }
        ensures of_spec { OnOk result (IsOfShard self.now reference.now.shard seat.new.known) }
        ensures refused { IfErr result (IsReferenceRefused self.now.shards seat.old.seat reference.now.shard (Look now reference.now.ticket)) }
        ensures strange { self.now.shards ≤ reference.now.shard → result ≡ Err Stale }
        ensures err { OnErr result (seat.new ≡ seat.old) }
    {
        let shard = reference.shard();
        if shard >= self.shards() {
            return Err(Refusal::Stale);
        }
        insist(rt, reference.book() == self.book_of(shard));
        let event = Event::Look(now, reference.ticket());
        match self.call_any(rt, seat, shard, &event) {
            Ok((reply, _token)) => Ok(shown_row(reply)),
            Err(refusal) => Err(refusal),
        }
    }

    /// Does an act on the data of a reference's entry, and answers what the act does. Refusals are those of `look`.
    pub fn count(
        &self,
        rt: &impl Wait,
        seat: &mut SharedSeat<J>,
        reference: &SharedRef<J>,
        now: u64,
        act: Act,
    ) -> Result<Option<u64>, Refusal>
        requires moment { now < 2 ^ 62 }
        requires tag { HasTag act }
        ensures told { IfOk result (λ value. Told seat.old.seat reference.now.shard (Count now reference.now.ticket act) (Value value) seat.new.seat) }
        ensures recorded { IfOk result (λ value. IsTold (book_of self.now reference.now.shard) (Count now reference.now.ticket act) (Value value) seat.old.known seat.new.known) }
        ensures mine { IfOk result (λ value. HasMade (book_of self.now reference.now.shard) (Count now reference.now.ticket act) (Value value) seat.old.known seat.new.known) }
        ensures of_spec { OnOk result (IsOfShard self.now reference.now.shard seat.new.known) }
        ensures refused { IfErr result (IsReferenceRefused self.now.shards seat.old.seat reference.now.shard (Count now reference.now.ticket act)) }
        ensures strange { self.now.shards ≤ reference.now.shard → result ≡ Err Stale }
        ensures err { OnErr result (seat.new ≡ seat.old) }
    {
        let shard = reference.shard();
        if shard >= self.shards() {
            return Err(Refusal::Stale);
        }
        insist(rt, reference.book() == self.book_of(shard));
        let event = Event::Count(now, reference.ticket(), act);
        match self.call_any(rt, seat, shard, &event) {
            Ok((reply, _token)) => Ok(counted_value(&reply)),
            Err(refusal) => Err(refusal),
        }
    }

    /// Tracks a key on its shard. Refusals are those of `call`, and change nothing.
    pub fn track(
        &self,
        rt: &impl Wait,
        seat: &mut SharedSeat<J>,
        now: u64,
        key: StickKey,
    ) -> Result<Tracking<SharedRef<J>>, Refusal>
        requires moment { now < 2 ^ 62 }
        ensures told { IfOk result (λ tracking. Told seat.old.seat (shard key self.now.shards) (Track now key) (reply_of tracking) seat.new.seat) }
        ensures recorded { IfOk result (λ tracking. IsTold (book_of self.now (shard key self.now.shards)) (Track now key) (reply_of tracking) seat.old.known seat.new.known) }
        ensures mine { IfOk result (λ tracking. HasMade (book_of self.now (shard key self.now.shards)) (Track now key) (reply_of tracking) seat.old.known seat.new.known) }
        ensures of_spec { OnOk result (IsOfShard self.now (shard key self.now.shards) seat.new.known) }
        ensures at { IfOk result (IsAt (shard key self.now.shards)) }
        ensures refused { IfErr result (IsRefusedTo seat.old.seat (shard key self.now.shards) (Track now key)) }
        ensures err { OnErr result (seat.new ≡ seat.old) }
    {
        let place = shard_of(&key, self.shards());
        let book = self.book_of(place);
        let event = Event::Track(now, key);
        match self.call_any(rt, seat, place, &event) {
            Ok((reply, token)) => Ok(tracking_of(reply, place, book, token)),
            Err(refusal) => Err(refusal),
        }
    }

    /// Makes a shard's live state the base of its calls, as `Kept::roll` does, where it has that many calls and no
    /// receipts are kept; answers whether it did. Where the table can't take its base for want of memory, nothing changes. The
    /// record of all calls stays.
    pub fn roll(&self, rt: &impl Wait, shard: u32, least: u64) -> Result<bool, NoMemory>
        requires shard { shard < self.now.shards }
        ensures kept { self.now.keep ≡ true → result ≡ Ok false }
    {
        if self.keep {
            return Ok(false);
        }
        let mut kept = self.books[shard as usize].lock(rt);
        roll_long(&mut kept, least)
    }
}
