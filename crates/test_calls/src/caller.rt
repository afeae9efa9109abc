//! A caller of a table in shards, who asks events that are given, or drawn at random.

ghost use Rattle.std.specs.Prelude.{◌<◌, ◌^◌, IfOk};
ghost use Rattle.stick_model.specs.Limits.{IsTableEvent};

use crate::asking::ask;
use crate::draws::{event, filter};
use crate::purse::{Held, Purse};
use crate::random_numbers::Random;
use crate::telling::{Asked, Told, told_of};
use base_sequence::NoMemory;
use shard_locks::{Listing, Shards, SharedSeat};
use shard_record::Naming;
use std::alloc::Global;
use std::sync::Wait;
use stick_table::{Event, Filter, Refusal, Reply, Table};

/// The last moment that an event can have.
const LAST_MOMENT: u64 = (1 << 62) - 1;

/// What is drawn: by this seed and the number of the seat, of keys below this number and of moments in ms below this one,
/// or as much later as the caller has waited.
#[derive(Clone, Copy)]
pub struct Drawing {
    pub seed: u32,
    pub keys: u32,
    pub moments: u32,
}

/// A seat of a table in shards, what it asks next, and the references that it holds.
#[derive(Drop)]
pub struct Caller<'a, T: Table, J: Naming> {
    alloc: Global,
    table: &'a Shards<T, J>,
    seat: SharedSeat<J>,
    random: Random,
    drawing: Drawing,
    /// The ms that it has waited.
    waited: u64,
    purse: Purse<J>,
}

impl<'a, T: Table, J: Naming> Caller<'a, T, J> {
    /// A caller who holds what the purse has.
    pub fn new(
        alloc: Global,
        table: &'a Shards<T, J>,
        seat: SharedSeat<J>,
        purse: Purse<J>,
        drawing: Drawing,
    ) -> Caller<'a, T, J> {
        let seed = u64::from(drawing.seed) << 32 | u64::from(seat.seat().number());
        Caller {
            alloc,
            table,
            seat,
            random: Random::new(seed),
            drawing,
            waited: 0,
            purse,
        }
    }

    /// Waits so many ms: what it draws from now on is of moments so much later.
    pub fn wait(&mut self, ms: u32) {
        self.waited = self.waited.saturating_add(u64::from(ms));
    }

    /// A moment.
    fn moment(&mut self) -> u64
        ensures { result < 2 ^ 62 }
    {
        let drawn = self.random.below(self.drawing.moments.max(1));
        self.waited
            .saturating_add(u64::from(drawn))
            .min(LAST_MOMENT)
    }

    /// The event that it asks next: one of a reference only where it holds one.
    fn next(&mut self, held: Held) -> Result<Event, NoMemory>
        ensures { IfOk result IsTableEvent }
    {
        let now = self.moment();
        let drawn = event(
            self.alloc,
            &mut self.random,
            self.drawing.keys,
            now,
            held.ticket,
        )?;
        match drawn {
            Event::Look(_, _) | Event::Count(_, _, _) | Event::Release(_, _)
                if self.purse.count() == 0 => Ok(Event::Expire(now)),
            _ => Ok(drawn),
        }
    }

    /// An event drawn at random, asked of the table.
    pub fn call(&mut self, rt: &impl Wait) -> Result<Reply, Refusal> {
        let held = self.purse.any(&mut self.random);
        let event = self.next(held)?;
        let other = self.random.below(self.table.shards());
        let shard = match &event {
            Event::Look(_, _) | Event::Count(_, _, _) | Event::Release(_, _) => held.shard,
            _ => other,
        };
        self.ask(rt, shard, event)
    }

    /// This event, asked of the shard of its key, or else of this one.
    pub fn ask(&mut self, rt: &impl Wait, shard: u32, event: Event) -> Result<Reply, Refusal>
        requires { IsTableEvent event }
    {
        let place = shard % self.table.shards();
        ask(
            rt,
            self.table,
            &mut self.seat,
            &mut self.purse,
            place,
            event,
        )
    }

    /// What is told where this is asked of the shard of its key or its reference, or else of this one.
    pub fn say(&mut self, rt: &impl Wait, shard: u32, asked: Asked) -> Told {
        let held = self.purse.held_at(asked.place());
        let shard = if asked.is_of_reference() {
            held.shard
        } else {
            shard
        };
        match asked.event(self.alloc, held.ticket) {
            Ok(event) => told_of(self.ask(rt, shard, event)),
            Err(_) => Told::Refused(Refusal::Memory),
        }
    }

    /// Lists all shards; answers how many entries there are, and how many rows were shown. A refusal says of how many shards the
    /// call was made.
    pub fn list(
        &mut self,
        rt: &impl Wait,
        now: u64,
        filter: &Filter,
    ) -> Result<(u64, usize), (u32, Refusal)>
        requires { now < 2 ^ 62 }
    {
        match self.table.list(rt, self.alloc, &mut self.seat, now, filter) {
            Ok(Listing::Rows { used, rows }) => match rows.read() {
                Ok(reading) => Ok((used, reading.as_slice().len())),
                Err(_) => Err((self.table.shards(), Refusal::Memory)),
            },
            Ok(Listing::NotStored(_)) => Ok((0, 0)),
            Err(refused) => Err(refused),
        }
    }

    /// Lists all shards by a filter drawn at random; answers whether it was answered.
    pub fn list_any(&mut self, rt: &impl Wait) -> Result<(), Refusal> {
        let now = self.moment();
        let filter = filter(self.alloc, &mut self.random, self.drawing.keys)?;
        match self.list(rt, now, &filter) {
            Ok(_) => Ok(()),
            Err((_, refusal)) => Err(refusal),
        }
    }

    /// Gives back the references that it holds; answers how many.
    pub fn release_all(&mut self, rt: &impl Wait) -> Result<u64, Refusal> {
        let mut released = 0u64;
        for _ in 0..self.purse.count() {
            let held = self.purse.held_at(0);
            let event = Event::Release(0, held.ticket);
            match self.ask(rt, held.shard, event) {
                Ok(_) => released = released.saturating_add(1),
                Err(refusal) => return Err(refusal),
            }
        }
        Ok(released)
    }

    /// The seat of the caller, who goes on.
    pub fn seat(&self) -> &SharedSeat<J> {
        &self.seat
    }

    /// Its seat, with its calls, and the references that it holds.
    pub fn into_parts(self) -> (SharedSeat<J>, Purse<J>) {
        (self.seat, self.purse)
    }
}
