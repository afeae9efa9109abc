//! What a plain table is at one time: a list of records and a list of tickets; `Contents` keeps two of it.

mod changes;
mod filters;
mod looks;
mod pairs;
mod records;
mod references;
mod room;
mod rows;
mod tickets;

ghost use Rattle.std.specs.Prelude.{◌≡◌, ◌+◌, ◌<◌, ◌^◌};
ghost use Rattle.std.specs.Option.{option_map};

use base_sequence::NoMemory;
use records::copy_records;
use std::alloc::Global;
use std::marker::Model;
use stick_key::StickKey;
use stick_model::{Event, Record, Refusal, Reply, Spec, Stored, Ticket};
use tickets::{copy_tickets, find_key, free_slot};

/// Records and tickets, which each event goes over.
#[derive(Drop)]
pub(crate) struct Contents {
    alloc: Global,
    spec: Spec,
    clock: u64,
    events: u64,
    records: Vec<(StickKey, Record)>,
    tickets: Vec<(Ticket, StickKey)>,
    /// How many records went to make room for others, modulo 2^64. Its view doesn't show it.
    purged: u64,
}

impl Model for Contents {
    ghost use Rattle.stick_model.specs.State.{State};
    ghost use Rattle.stick_table.specs.Invariant.{IsBounded};

    ghost Value = { State };

    ghost view = { λ table. record { spec = table.spec; clock = table.clock; events = table.events; records = table.records.items; tickets = table.tickets.items } };

    ghost invariant = { λ table. IsBounded table.spec table.clock table.events table.tickets.items };
}

impl Contents {
    ghost use Rattle.std.specs.Prelude.{◌≡◌, ◌≤◌, ◌^◌, ◌↔◌, IsTrue, IfOk, IsOk, IfErr, OnOk, OnErr, MatchOption, true, false, length};
    ghost use Rattle.stick_model.specs.State.{empty_table};
    ghost use Rattle.stick_table.specs.Invariant.{IsBounded};
    ghost use Rattle.stick_model.specs.Limits.{IsTableEvent, IsTableSpec};
    ghost use Rattle.stick_model.specs.Refusals.{IsRefused, has_life as has_life_for, takes_memory};
    ghost use Rattle.stick_model.specs.Run.{CanRedo, redone};
    ghost use Rattle.stick_model.specs.Step.{Step, MayTrack, is_out as is_event_out, is_free_slot, after};

    /// Those of an empty table, whose clock is at 0 and which has counted no event.
    pub(crate) fn open(alloc: Global, spec: Spec) -> Contents
        requires { IsTableSpec spec }
        ensures { result ≡ empty_table spec }
    {
        Contents {
            alloc,
            spec,
            clock: 0,
            events: 0,
            records: Vec::new(alloc),
            tickets: Vec::new(alloc),
            purged: 0,
        }
    }

    /// Of these parts: the records in the order of their keys, and the outstanding references, the oldest first. None of the
    /// records has gone yet to make room for others.
    pub(crate) fn from_parts(
        alloc: Global,
        spec: Spec,
        clock: u64,
        events: u64,
        records: Vec<(StickKey, Record)>,
        tickets: Vec<(Ticket, StickKey)>,
    ) -> Contents
        requires { IsBounded spec clock events tickets.items }
        ensures { result ≡ record { spec = spec; clock = clock; events = events; records = records.items; tickets = tickets.items } }
    {
        Contents {
            alloc,
            spec,
            clock,
            events,
            records,
            tickets,
            purged: 0,
        }
    }

    /// Those of the empty table that was made with the same.
    pub(crate) fn emptied(&self) -> Result<Contents, NoMemory>
        ensures { IfOk result (λ empty. empty ≡ empty_table self.now.spec) }
    {
        Ok(Contents::open(self.alloc, self.spec.copy()?))
    }

    /// The same once more.
    pub(crate) fn copy(&self) -> Result<Contents, NoMemory>
        ensures { IfOk result (λ copy. copy ≡ self.now) }
    {
        Ok(Contents {
            alloc: self.alloc,
            spec: self.spec.copy()?,
            clock: self.clock,
            events: self.events,
            records: copy_records(self.alloc, &self.records)?,
            tickets: copy_tickets(self.alloc, &self.tickets)?,
            purged: self.purged,
        })
    }

    /// What the table was made with.
    pub(crate) fn spec(&self) -> &Spec
        ensures spec { result.now ≡ self.now.spec }
        ensures limits { IsTableSpec result.now }
    {
        &self.spec
    }

    /// How many events were counted.
    pub(crate) fn events(&self) -> u64
        ensures events { result ≡ self.now.events }
        ensures limit { result ≤ 2 ^ 62 }
    {
        self.events
    }

    /// The entries: each key with what is kept of it, in the order of the keys.
    pub(crate) fn records(&self) -> &[(StickKey, Record)]
        ensures { result.now ≡ self.now.records }
    {
        self.records.as_slice()
    }

    /// The outstanding references with their keys, the oldest first.
    pub(crate) fn tickets(&self) -> &[(Ticket, StickKey)]
        ensures { result.now ≡ self.now.tickets }
    {
        self.tickets.as_slice()
    }

    /// Whether they are an empty table's: no entries and no references, the clock at 0, and no event counted.
    pub(crate) fn is_new(&self) -> bool
        ensures { IsTrue result ↔ (self.now ≡ empty_table self.now.spec) }
    {
        self.clock == 0 && self.events == 0 && self.records.is_empty() && self.tickets.is_empty()
    }

    /// The step of a stored event once more: a reference that it makes gets the slot that the call names. Refused as
    /// `step_twice`.
    pub(crate) fn redo(&mut self, stored: &Stored) -> Result<Reply, Refusal>
        requires event { IsTableEvent stored.now.event }
        requires slot { CanRedo self.old stored.now }
        ensures ok { IfOk result (λ reply. Step self.old stored.now.event reply self.new) }
        ensures redone { IfOk result (λ reply. redone self.old stored.now ≡ (reply, self.new)) }
        ensures lives { OnOk result (has_life_for self.old stored.now.event ≡ true) }
        ensures refused { IfErr result (IsRefused self.old stored.now.event) }
        ensures err { OnErr result (self.new ≡ self.old) }
    {
        let (reply, _again) = self.step_with(&stored.event, stored.slot.unwrap_or(0))?;
        Ok(reply)
    }

    /// One event, its reply given twice.
    pub(crate) fn step_twice(&mut self, event: &Event) -> Result<(Reply, Reply), Refusal>
        requires { IsTableEvent event.now }
        ensures ok { IfOk result (λ replies. Step self.old event.now replies.0 self.new) }
        ensures twice { IfOk result (λ replies. replies.1 ≡ replies.0) }
        ensures lives { OnOk result (has_life_for self.old event.now ≡ true) }
        ensures refused { IfErr result (IsRefused self.old event.now) }
        ensures err { OnErr result (self.new ≡ self.old) }
    {
        let slot = self.slot_for(event);
        self.step_with(event, slot)
    }

    /// How many references are out.
    pub(crate) fn references(&self) -> u32
        ensures { result ≡ length self.now.tickets }
    {
        self.tickets.len() as u32
    }

    /// How many records there are.
    pub(crate) fn entries(&self) -> usize
        ensures { result ≡ length self.now.records }
    {
        self.records.len()
    }

    /// How many records went to make room for others, modulo 2^64.
    pub(crate) fn purged(&self) -> u64 {
        self.purged
    }

    /// Whether the ticket that an event names is out.
    fn is_out(&self, event: &Event) -> bool
        ensures { result ≡ is_event_out self.now event.now }
    {
        match event {
            Event::Look(_, ticket) | Event::Count(_, ticket, _) | Event::Release(_, ticket) =>
                find_key(&self.tickets, *ticket).is_some(),
            _ => true,
        }
    }

    fn has_life(&self, event: &Event) -> bool
        ensures { result ≡ has_life_for self.now event.now }
    {
        let taken = event.life_taken();
        let used = self.events + self.tickets.len() as u64;
        used + taken <= self.spec.life
    }

    /// Why an event is refused whatever memory there is.
    fn refusal(&self, event: &Event) -> Option<Refusal>
        ensures { MatchOption result ((is_event_out self.now event.now ≡ true) × (has_life_for self.now event.now ≡ true)) (IsRefused self.now event.now) }
    {
        if !self.is_out(event) {
            return Some(Refusal::Stale);
        }
        if !self.has_life(event) {
            return Some(Refusal::Exhausted);
        }
        None
    }

    /// A free slot, where the event may make a reference.
    fn slot_for(&self, event: &Event) -> u32
        ensures { MayTrack self.now event.now → is_free_slot self.now result ≡ true }
    {
        match event {
            Event::Track(_, _) => free_slot(&self.tickets, self.spec.max_refs).unwrap_or(0),
            _ => 0,
        }
    }

    /// A step in which a reference gets this slot, its reply given twice.
    fn step_with(&mut self, event: &Event, slot: u32) -> Result<(Reply, Reply), Refusal>
        requires { IsTableEvent event.now }
        ensures ok { IfOk result (λ replies. after self.old event.now slot ≡ (replies.0, self.new)) }
        ensures twice { IfOk result (λ replies. replies.1 ≡ replies.0) }
        ensures out { OnOk result (is_event_out self.old event.now ≡ true) }
        ensures lives { OnOk result (has_life_for self.old event.now ≡ true) }
        ensures refused { IfErr result (IsRefused self.old event.now) }
        ensures err { OnErr result (self.new ≡ self.old) }
    {
        if let Some(refusal) = self.refusal(event) {
            return Err(refusal);
        }
        match self.answer(event, slot) {
            Ok(replies) => Ok(replies),
            Err(_) => Err(Refusal::Memory),
        }
    }

    /// The reply to an event whose ticket is out, and for which there is life, given twice. Memory for both is taken before
    /// anything changes.
    fn answer(&mut self, event: &Event, slot: u32) -> Result<(Reply, Reply), NoMemory>
        requires event { IsTableEvent event.now }
        requires out { is_event_out self.old event.now ≡ true }
        requires life { has_life_for self.old event.now ≡ true }
        ensures ok { IfOk result (λ replies. after self.old event.now slot ≡ (replies.0, self.new)) }
        ensures twice { IfOk result (λ replies. replies.1 ≡ replies.0) }
        ensures err { OnErr result (self.new ≡ self.old) }
        ensures memory { takes_memory event.now ≡ false → IsOk result }
    {
        match event {
            Event::Get(now, key) => self.get(*now, key),
            Event::Track(now, key) => self.track(*now, key, slot),
            Event::Look(now, ticket) => self.look(*now, *ticket),
            Event::List(now, choice) => self.list(*now, choice),
            _ => self.change_twice(event, slot),
        }
    }
}

/// The date of what is refreshed at a moment.
fn date_after(expire: Option<u32>, clock: u64) -> Option<u64>
    requires { clock < 2 ^ 62 }
    ensures { result ≡ option_map (λ life. clock + life) expire }
{
    match expire {
        Some(life) => Some(clock + u64::from(life)),
        None => None,
    }
}
