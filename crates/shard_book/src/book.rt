//! A table with its calls since a base; `Books`, `shard_locks` and `shard_settling` keep one for each shard.

ghost use Rattle.std.specs.Prelude.{◌≡◌, ◌≤◌, ◌^◌, true, is_some, length, IfOk, IfErr, OnOk, OnErr, IsOk};
ghost use Rattle.stick_model.specs.State.{key_of};
ghost use Rattle.stick_model.specs.Legal.{IsLegal};
ghost use Rattle.stick_model.specs.Limits.{IsTableSpec, IsTableEvent};
ghost use Rattle.stick_model.specs.Refusals.{has_life};
ghost use Rattle.stick_model.specs.declared.events.Event.TheVariants.{Release};
ghost use Rattle.shard_book.specs.BookState.{IsBook, Extends, IsCallRefused, opened, rolled};

use crate::recorded::{answer, answer_twice, out_after, record_of};
use crate::{Occupancy, Recorded};
use base_sequence::NoMemory;
use std::alloc::Global;
use std::marker::Model;
use stick_table::{Event, PlainTable, Refusal, Reply, RowRoom, Spec, Table};

/// A table, and the calls recorded since its base: those that were answered, in their order.
#[derive(Drop)]
pub struct Book<T: Table> {
    calls: Vec<Recorded>,
    /// It knows what it was at its base, from which the record begins.
    live: T,
    /// How many tickets are out. The record keeps a place for the release of each.
    out: usize,
}

impl<T: Table> Model for Book<T> {
    ghost use Rattle.std.specs.Prelude.{vec_capacity, vec_len};
    ghost use Rattle.shard_book.specs.BookState.{BookState, IsBook, HasPlaces};

    ghost Value = { BookState };

    ghost view = { λ book. record { base = T.base book.live; calls = book.calls.items; live = T.state book.live } };

    ghost invariant = { λ book. IsBook (record { base = T.base book.live; calls = book.calls.items; live = T.state book.live })
        × HasPlaces (T.state book.live) (vec_len book.calls) (vec_capacity book.calls) book.out };
}

impl<T: Table> Book<T> {
    /// The book of an empty table.
    pub fn open(alloc: Global, spec: Spec) -> Result<Book<T>, NoMemory>
        requires { IsTableSpec spec }
        ensures opened { IfOk result (λ book. book ≡ opened spec) }
        ensures book { IfOk result (λ book. IsBook book) }
    {
        let live = T::open(alloc, spec)?;
        Ok(Book {
            calls: Vec::new(alloc),
            live,
            out: 0,
        })
    }

    /// Has the live table answer an event, and records the call with its seat. A refusal changes nothing: `Memory`
    /// where a growth was refused, which is answered first where it is the record's; else as the table refuses.
    /// A `Release` takes no memory, and that of an outstanding ticket always succeeds.
    pub fn call(&mut self, seat: u32, event: Event) -> Result<Reply, Refusal>
        requires { IsTableEvent event }
        ensures before { IsBook self.old }
        ensures book { OnOk result (IsBook self.new) }
        ensures ok { IfOk result (λ reply. Extends self.old seat event reply self.new) }
        ensures lives { OnOk result (has_life self.old.live event ≡ true) }
        ensures refused { IfErr result (IsCallRefused self.old.live event) }
        ensures release { (now : _) (ticket : _) → event ≡ Release now ticket → is_some (key_of ticket self.old.live.tickets) ≡ true → IsOk result }
        ensures err { OnErr result (self.new ≡ self.old) }
    {
        match self.call_lent(seat, &event) {
            Ok(reply) => Ok(reply),
            Err(refusal) => Err(refusal),
        }
    }

    /// The same of an event that is lent.
    pub(crate) fn call_lent(&mut self, seat: u32, event: &Event) -> Result<Reply, Refusal>
        requires { IsTableEvent event.now }
        ensures before { IsBook self.old }
        ensures book { OnOk result (IsBook self.new) }
        ensures ok { IfOk result (λ reply. Extends self.old seat event.now reply self.new) }
        ensures lives { OnOk result (has_life self.old.live event.now ≡ true) }
        ensures refused { IfErr result (IsCallRefused self.old.live event.now) }
        ensures release { (now : _) (ticket : _) → event.now ≡ Release now ticket → is_some (key_of ticket self.old.live.tickets) ≡ true → IsOk result }
        ensures err { OnErr result (self.new ≡ self.old) }
    {
        let Ok(call) = Recorded::of(*self.calls.allocator(), seat, event) else {
            return Err(Refusal::Memory);
        };
        let reply = answer(&mut self.live, &mut self.calls, self.out, event)?;
        self.out = out_after(self.out, &reply);
        self.calls.push_reserved(record_of(call, &reply));
        Ok(reply)
    }

    /// The same as `call`, the reply given twice, as for the caller and for what the caller keeps. Memory for both is taken before
    /// anything changes; a `Release` takes none here either.
    pub fn call_twice(&mut self, seat: u32, event: Event) -> Result<(Reply, Reply), Refusal>
        requires { IsTableEvent event }
        ensures before { IsBook self.old }
        ensures book { OnOk result (IsBook self.new) }
        ensures ok { IfOk result (λ replies. Extends self.old seat event replies.0 self.new) }
        ensures twice { IfOk result (λ replies. replies.1 ≡ replies.0) }
        ensures lives { OnOk result (has_life self.old.live event ≡ true) }
        ensures refused { IfErr result (IsCallRefused self.old.live event) }
        ensures release { (now : _) (ticket : _) → event ≡ Release now ticket → is_some (key_of ticket self.old.live.tickets) ≡ true → IsOk result }
        ensures err { OnErr result (self.new ≡ self.old) }
    {
        match self.call_twice_lent(seat, &event) {
            Ok(replies) => Ok(replies),
            Err(refusal) => Err(refusal),
        }
    }

    /// The same of an event that is lent.
    pub(crate) fn call_twice_lent(
        &mut self,
        seat: u32,
        event: &Event,
    ) -> Result<(Reply, Reply), Refusal>
        requires { IsTableEvent event.now }
        ensures before { IsBook self.old }
        ensures book { OnOk result (IsBook self.new) }
        ensures ok { IfOk result (λ replies. Extends self.old seat event.now replies.0 self.new) }
        ensures twice { IfOk result (λ replies. replies.1 ≡ replies.0) }
        ensures lives { OnOk result (has_life self.old.live event.now ≡ true) }
        ensures refused { IfErr result (IsCallRefused self.old.live event.now) }
        ensures release { (now : _) (ticket : _) → event.now ≡ Release now ticket → is_some (key_of ticket self.old.live.tickets) ≡ true → IsOk result }
        ensures err { OnErr result (self.new ≡ self.old) }
    {
        let Ok(call) = Recorded::of(*self.calls.allocator(), seat, event) else {
            return Err(Refusal::Memory);
        };
        let (reply, again) = answer_twice(&mut self.live, &mut self.calls, self.out, event)?;
        self.out = out_after(self.out, &reply);
        self.calls.push_reserved(record_of(call, &reply));
        Ok((reply, again))
    }

    /// Makes the live state the base, and empties the record. The record's memory stays, and so its places for the
    /// releases of the tickets that are out. Where the table can't take its base for want of memory, nothing changes.
    pub fn roll(&mut self) -> Result<(), NoMemory>
        ensures book { IsBook self.new }
        ensures ok { OnOk result (self.new ≡ rolled self.old) }
        ensures err { OnErr result (self.new ≡ self.old) }
    {
        self.live.set_base()?;
        self.calls.clear();
        Ok(())
    }

    /// How many events the live table has counted.
    pub fn events(&self) -> u64
        ensures events { result ≡ self.now.live.events }
        ensures limit { result ≤ 2 ^ 62 }
        ensures book { IsBook self.now }
    {
        self.live.base_events() + self.calls.as_slice().len() as u64
    }

    /// What its live table is occupied by, and what went to make room there.
    pub fn occupancy(&self) -> Occupancy
        ensures { result.references ≡ length self.now.live.tickets }
    {
        Occupancy {
            references: self.live.references(),
            purged: self.live.purged(),
        }
    }

    /// How many entries its live table has, as `Table::entries`.
    pub fn entries(&self) -> usize
        ensures { result ≡ length self.now.live.records }
    {
        self.live.entries()
    }

    /// Gives its live table room for the rows of its next listing, as `Table::swap_room`. It stays as it is.
    pub fn swap_room(&mut self, room: RowRoom) -> RowRoom
        ensures { self.new ≡ self.old }
    {
        self.live.swap_room(room)
    }

    /// A plain copy of the table as it is now.
    pub fn copied(&self) -> Result<PlainTable, NoMemory>
        ensures copy { IfOk result (λ table. table.now ≡ self.now.live) }
        ensures limits { IfOk result (λ table. IsTableSpec table.now.spec) }
        ensures legal { IfOk result (λ table. IsLegal table.now) }
    {
        self.live.to_plain()
    }

    /// A plain copy of the table from which the record begins.
    pub fn base(&self) -> Result<PlainTable, NoMemory>
        ensures base { IfOk result (λ table. table.now ≡ self.now.base) }
        ensures book { IsBook self.now }
    {
        self.live.base_to_plain()
    }

    /// The calls answered since the base, in their order.
    pub fn calls(&self) -> &[Recorded]
        ensures calls { result.now ≡ self.now.calls }
        ensures book { IsBook self.now }
    {
        self.calls.as_slice()
    }

    /// The table as it is now; it knows its base.
    pub fn live(&self) -> &T
        ensures live { T.state result.now ≡ self.now.live }
        ensures base { T.base result.now ≡ self.now.base }
        ensures book { IsBook self.now }
    {
        &self.live
    }
}
