//! The pooled stick table: an event of one key costs the same whatever the table's size; `tcp_proxy` and `stickd_script` open it.
#![tactic(auto)]

mod clearing;
mod entries;
mod entry;
mod entry_images;
mod entry_store;
mod events;
mod expiry;
mod filters;
mod listing;
mod looks;
mod numbers;
mod pairs;
mod plain_copy;
mod references;
mod room;
mod rows;
mod slot_images;
mod spare_keys;
mod ticket_book;
mod tracked;
mod tracking;
mod value_rows;

use base_sequence::NoMemory;
use entry_store::Store;
use std::alloc::Global;
use std::marker::Model;
use std::mem;
use stick_key::StickKey;
use stick_model::{Event, Refusal, Reply, RowRoom, Spec, Ticket};
use stick_table::{PlainTable, Table};
use ticket_book::TicketBook;

/// A table in which an event of one key costs the same whatever its size. `open` takes the memory of its whole size;
/// after it only replies, keys and `set_base` take some. What it was at its base is kept slot by slot, as slots change.
#[derive(Drop)]
pub struct StickTable {
    alloc: Global,
    spec: Spec,
    clock: u64,
    events: u64,
    store: Store,
    book: TicketBook,
    base_clock: u64,
    base_events: u64,
    base_tickets: Vec<(Ticket, StickKey)>,
    /// Room for the rows of the next listing, where it was given some.
    room: RowRoom,
}

impl Model for StickTable {
    ghost use Rattle.stick_table.specs.TwoStates.{TwoStates};
    ghost use Rattle.stick_pooled.specs.Table.{state_of, base_of, IsTable, IsBase};

    ghost Value = { TwoStates };

    ghost view = { λ t. record { now = state_of t.spec t.clock t.events t.store t.book; base = base_of t.spec t.base_clock t.base_events t.store.base t.base_tickets.items } };

    ghost invariant = { λ t. IsTable t.spec t.clock t.events t.store t.book × IsBase t.spec t.base_clock t.base_events t.store.base t.base_tickets.items };
}

impl Table for StickTable {
    ghost state = { λ table. table.now };

    ghost base = { λ table. table.base };

    fn open(alloc: Global, spec: Spec) -> Result<Self, NoMemory> {
        let columns = spec.columns.copy()?;
        let store = Store::open(alloc, spec.size, columns, spec.seed)?;
        let book = TicketBook::new(alloc, spec.max_refs)?;
        Ok(StickTable {
            alloc,
            spec,
            clock: 0,
            events: 0,
            store,
            book,
            base_clock: 0,
            base_events: 0,
            base_tickets: Vec::new(alloc),
            room: RowRoom::none(alloc),
        })
    }

    fn spec(&self) -> &Spec {
        &self.spec
    }

    fn step(&mut self, event: &Event) -> Result<Reply, Refusal> {
        if let Some(refusal) = self.refusal(event) {
            return Err(refusal);
        }
        match self.answer(event) {
            Ok(reply) => Ok(reply),
            Err(_) => Err(Refusal::Memory),
        }
    }

    fn step_twice(&mut self, event: &Event) -> Result<(Reply, Reply), Refusal> {
        if let Some(refusal) = self.refusal(event) {
            return Err(refusal);
        }
        match self.answer_twice(event) {
            Ok(replies) => Ok(replies),
            Err(_) => Err(Refusal::Memory),
        }
    }

    fn references(&self) -> u32 {
        self.book.len()
    }

    fn purged(&self) -> u64 {
        self.store.purged()
    }

    fn entries(&self) -> usize {
        self.store.len() as usize
    }

    fn swap_room(&mut self, room: RowRoom) -> RowRoom {
        mem::replace(&mut self.room, room)
    }

    fn set_base(&mut self) -> Result<(), NoMemory> {
        self.make_base()
    }

    fn base_events(&self) -> u64 {
        self.base_events
    }

    fn base_to_plain(&self) -> Result<PlainTable, NoMemory> {
        self.copy_base()
    }

    fn to_plain(&self) -> Result<PlainTable, NoMemory> {
        self.copy_to_plain()
    }
}
