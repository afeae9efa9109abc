//! A plain table in a state of the table, as it is or at its base; `StickTable` calls it for settling.
ghost use Rattle.std.specs.Prelude.{◌≡◌, ℕ, ◌+◌, ◌<◌, ◌^◌, IfOk, OnOk, OnErr, IsSome, Some, None, get_or, length, map};
ghost use Rattle.std.specs.List.{AllByRecursion};
ghost use Rattle.std.specs.Option.{option_map};
ghost use Rattle.stick_pooled.specs.Stock.{AreDistinct, held_at, kept_slots};
ghost use Rattle.stick_model.specs.declared.rows.Ticket.{Ticket as ATicket};
ghost use Rattle.stick_pooled.specs.Seen.{filled};
ghost use Rattle.stick_pooled.specs.Shown.{kept_keyed, kept_records};
ghost use Rattle.stick_pooled.specs.Table.{tickets_of};
ghost use Rattle.stick_pooled.specs.declared.entry.Kept.{Kept as AKept};

use crate::StickTable;
use crate::entry::{Kept, Point};
use crate::entry_store::Store;
use crate::ticket_book::TicketBook;
use base_sequence::NoMemory;
use std::alloc::Global;
use stick_key::StickKey;
use stick_model::{Record, Ticket};
use stick_table::PlainTable;

/// The date of what was refreshed at a moment.
fn date_after(expire: Option<u32>, moment: u64) -> Option<u64>
    requires { moment < 2 ^ 62 }
    ensures { result ≡ option_map (λ life. moment + life) expire }
{
    match expire {
        Some(life) => Some(moment + u64::from(life)),
        None => None,
    }
}

/// The key and the record of an entry.
fn record_of(expire: Option<u32>, kept: Kept) -> (StickKey, Record)
    requires { kept.moment < 2 ^ 62 }
    ensures { result ≡ kept_keyed expire kept }
{
    let record = Record {
        stamp: kept.stamp,
        date: date_after(expire, kept.moment),
        values: kept.values,
    };
    (kept.key, record)
}

/// The keys and the records of the entries, in the order of the slots.
fn gather_records(
    alloc: Global,
    store: &Store,
    point: Point,
    size: u32,
    expire: Option<u32>,
) -> Result<Vec<(StickKey, Record)>, NoMemory>
    requires within { size ≡ length store.now.slots }
    requires size { size ≡ length (kept_slots point store.now) }
    requires moments { (slot : ℕ) (kept : AKept) → get_or (kept_slots point store.now) slot None ≡ Some kept → kept.moment < 2 ^ 62 }
    ensures { IfOk result (λ records. records.items ≡ filled (map (option_map (kept_keyed expire)) (kept_slots point store.now))) }
{
    let mut records = Vec::new(alloc);
    for slot in 0..size {
        if let Some(kept) = store.slot_at(point, slot)? {
            records.push(record_of(expire, kept))?;
        }
    }
    Ok(records)
}

/// The records, in the order of their keys.
fn copy_records(
    alloc: Global,
    store: &Store,
    point: Point,
    size: u32,
    expire: Option<u32>,
) -> Result<Vec<(StickKey, Record)>, NoMemory>
    requires within { size ≡ length store.now.slots }
    requires size { size ≡ length (kept_slots point store.now) }
    requires moments { (slot : ℕ) (kept : AKept) → get_or (kept_slots point store.now) slot None ≡ Some kept → kept.moment < 2 ^ 62 }
    requires distinct { AreDistinct (kept_slots point store.now) }
    ensures { IfOk result (λ records. records.items ≡ kept_records expire (kept_slots point store.now)) }
{
    let mut records = gather_records(alloc, store, point, size, expire)?;
    records.sort_unstable_by(|a: &(StickKey, Record), b: &(StickKey, Record)| a.0.cmp(&b.0));
    Ok(records)
}

/// The tickets with the keys of their entries, the oldest first.
fn copy_tickets(
    alloc: Global,
    store: &Store,
    book: &TicketBook,
) -> Result<Vec<(Ticket, StickKey)>, NoMemory>
    requires { AllByRecursion (λ (ticket : ATicket × ℕ). IsSome (held_at store.now ticket.1)) book.now.tickets }
    ensures { IfOk result (λ tickets. tickets.items ≡ tickets_of store.now book.now) }
{
    let held = book.to_vec(alloc)?;
    let mut tickets = Vec::with_capacity(alloc, held.len())?;
    for (ticket, slot) in &held {
        tickets.push((*ticket, store.key(*slot).copy()?))?;
    }
    Ok(tickets)
}

/// The same tickets with their keys once more.
fn copy_kept_tickets(
    alloc: Global,
    tickets: &[(Ticket, StickKey)],
) -> Result<Vec<(Ticket, StickKey)>, NoMemory>
    ensures { IfOk result (λ copy. copy.items ≡ tickets.now) }
{
    let mut copy = Vec::with_capacity(alloc, tickets.len())?;
    for held in tickets {
        copy.push((held.0, held.1.copy()?))?;
    }
    Ok(copy)
}

impl StickTable {
    /// A plain table in the same state.
    pub(crate) fn copy_to_plain(&self) -> Result<PlainTable, NoMemory>
        ensures { IfOk result (λ table. table.now ≡ self.now.now) }
    {
        let spec = self.spec.copy()?;
        let records = copy_records(self.alloc, &self.store, Point::Now, spec.size, spec.expire)?;
        let tickets = copy_tickets(self.alloc, &self.store, &self.book)?;
        PlainTable::from_parts(self.alloc, spec, self.clock, self.events, records, tickets)
    }

    /// A plain table in the state of its base.
    pub(crate) fn copy_base(&self) -> Result<PlainTable, NoMemory>
        ensures { IfOk result (λ table. table.now ≡ self.now.base) }
    {
        let spec = self.spec.copy()?;
        let records = copy_records(self.alloc, &self.store, Point::Base, spec.size, spec.expire)?;
        let tickets = copy_kept_tickets(self.alloc, &self.base_tickets)?;
        PlainTable::from_parts(
            self.alloc,
            spec,
            self.base_clock,
            self.base_events,
            records,
            tickets,
        )
    }

    /// Makes what it is now its base. Where a growth is refused, nothing changes.
    pub(crate) fn make_base(&mut self) -> Result<(), NoMemory>
        ensures stays { self.new.now ≡ self.old.now }
        ensures ok { OnOk result (self.new.base ≡ self.old.now) }
        ensures err { OnErr result (self.new ≡ self.old) }
    {
        let tickets = copy_tickets(self.alloc, &self.store, &self.book)?;
        self.store.set_base(self.alloc)?;
        self.base_clock = self.clock;
        self.base_events = self.events;
        self.base_tickets = tickets;
        Ok(())
    }
}
