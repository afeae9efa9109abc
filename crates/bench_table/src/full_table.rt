//! A table that is full, and what is done to it.
ghost use Rattle.std.specs.Prelude.{◌≤◌, ◌<◌, ◌^◌, All, IfOk};
ghost use Rattle.stick_model.specs.Limits.{IsTableEvent, IsTableSpec};

use crate::converting::key_of;
use base_sequence::{NoMemory, Sequence};
use std::alloc::{AllocError, Global};
use stick_key::{KeyType, Sample, StickKey};
use stick_table::{Cell, Event, Spec, Table, Ticket};
use stored_data::{Act, Column, Datum, Field, StoredSet};
use test_calls::{Random, ticket_of};

/// What is timed.
#[derive(Clone, Copy)]
pub enum Work {
    Get,
    Put,
    Renew,
    Track,
    Connect,
    Expire,
}

/// What the table is made with: entries that live for an hour, so many of which go at once where it is full.
fn spec(alloc: Global, size: u32, purge: u32) -> Result<Spec, AllocError>
    requires size { (1 ≤ size) × (size ≤ 2 ^ 30) }
    requires purge { (1 ≤ purge) × (purge ≤ 1024) }
    ensures { IfOk result IsTableSpec }
{
    let mut columns = StoredSet::new(alloc);
    columns.add(Column {
        datum: Datum::Gpc0,
        period: 0,
        count: 0,
    })?;
    columns.add(Column {
        datum: Datum::ConnRate,
        period: 10_000,
        count: 0,
    })?;
    columns.add(Column {
        datum: Datum::ConnCur,
        period: 0,
        count: 0,
    })?;
    Ok(Spec {
        kind: KeyType::Ip,
        size,
        expire: Some(3_600_000),
        nopurge: false,
        purge,
        columns,
        max_refs: 1_024,
        life: 1 << 62,
        seed: 1,
    })
}

/// The key of an address.
fn key(alloc: Global, number: u32) -> Result<StickKey, AllocError> {
    let [a, b, c, d] = number.to_be_bytes();
    key_of(alloc, &Sample::V4([a, b, c, d]), KeyType::Ip)
}

/// One value.
fn pairs(alloc: Global) -> Result<Sequence<Cell>, NoMemory>
    ensures { IfOk result (All (λ pair. pair.value ≤ 1)) }
{
    let pair = Cell {
        field: Field::plain(Datum::Gpc0),
        value: 1,
    };
    Sequence::from_slice(alloc, &[pair])
}

/// A put of one value.
fn put(alloc: Global, number: u32) -> Result<Event, AllocError>
    ensures { IfOk result IsTableEvent }
{
    let key = key(alloc, number)?;
    Ok(Event::Put(0, key, pairs(alloc)?))
}

/// A table that has as many entries as it can have, of the keys from 0 on.
#[derive(Drop)]
pub struct FullTable<T: Table> {
    alloc: Global,
    table: T,
    size: u32,
    newest: u32,
}

impl<T: Table> FullTable<T> {
    /// A table of this size, each place of which is taken. For a new key so many entries go at once.
    pub fn new(alloc: Global, size: u32, purge: u32) -> Result<FullTable<T>, AllocError>
        requires size { (1 ≤ size) × (size ≤ 2 ^ 30) }
        requires purge { (1 ≤ purge) × (purge ≤ 1024) }
    {
        let mut table = T::open(alloc, spec(alloc, size, purge)?)?;
        for number in 0..size {
            let event = put(alloc, number)?;
            drop(table.step(&event));
        }
        Ok(FullTable {
            alloc,
            table,
            size,
            newest: size,
        })
    }

    /// One event; answers how many were refused.
    fn ask(&mut self, event: &Event) -> u64
        requires { IsTableEvent event.now }
    {
        match self.table.step(event) {
            Ok(_) => 0,
            Err(_) => 1,
        }
    }

    /// The same of an event that is let go then.
    fn step(&mut self, event: Event) -> u64
        requires { IsTableEvent event }
    {
        self.ask(&event)
    }

    /// Asks for the row of a key.
    fn get(&mut self, number: u32) -> Result<u64, AllocError> {
        let key = key(self.alloc, number)?;
        Ok(self.step(Event::Get(0, key)))
    }

    /// Puts a value at a key.
    fn put(&mut self, number: u32) -> Result<u64, AllocError> {
        let event = put(self.alloc, number)?;
        Ok(self.step(event))
    }

    /// Puts a value at a key that was never there.
    fn renew(&mut self) -> Result<u64, AllocError> {
        self.newest = self.newest.wrapping_add(1);
        self.put(self.newest)
    }

    /// The ticket of a reference to a key.
    fn ticket(&mut self, number: u32) -> Result<Option<Ticket>, AllocError> {
        let event = Event::Track(0, key(self.alloc, number)?);
        Ok(match self.table.step(&event) {
            Ok(reply) => ticket_of(&reply),
            Err(_) => None,
        })
    }

    fn release(&mut self, ticket: Ticket) -> u64 {
        self.step(Event::Release(0, ticket))
    }

    fn count(&mut self, ticket: Ticket) -> u64 {
        self.step(Event::Count(0, ticket, Act::IncGpc0))
    }

    fn look(&mut self, ticket: Ticket) -> u64 {
        self.step(Event::Look(0, ticket))
    }

    fn expire(&mut self) -> u64 {
        self.step(Event::Expire(0))
    }

    /// Takes a reference to a key, and gives it back.
    fn track(&mut self, number: u32) -> Result<u64, AllocError> {
        match self.ticket(number)? {
            Some(ticket) => Ok(self.release(ticket)),
            None => Ok(1),
        }
    }

    /// Takes a reference to a key, counts and looks by it, and gives it back.
    fn connect(&mut self, number: u32) -> Result<u64, AllocError> {
        let Some(ticket) = self.ticket(number)? else {
            return Ok(1);
        };
        let counted = self.count(ticket);
        let looked = self.look(ticket);
        let released = self.release(ticket);
        Ok(counted.saturating_add(looked).saturating_add(released))
    }

    /// A work on the entry of a key; answers how many events were refused.
    fn work(&mut self, work: Work, number: u32) -> Result<u64, AllocError> {
        match work {
            Work::Get => self.get(number),
            Work::Put => self.put(number),
            Work::Renew => self.renew(),
            Work::Track => self.track(number),
            Work::Connect => self.connect(number),
            Work::Expire => Ok(self.expire()),
        }
    }

    /// So many rounds of a work, on entries drawn at random; answers how many events were refused.
    pub fn run(&mut self, work: Work, random: &mut Random, count: u32) -> Result<u64, AllocError> {
        let mut refused: u64 = 0;
        for _round in 0..count {
            let number = random.below(self.size.max(1));
            refused = refused.saturating_add(self.work(work, number)?);
        }
        Ok(refused)
    }
}
