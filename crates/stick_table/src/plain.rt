//! The plain table: a list of records and a list of tickets, and what both were at its base; settling may replay on one.

use crate::Table;
use crate::contents::Contents;
use base_sequence::NoMemory;
use std::alloc::Global;
use std::marker::Model;
use stick_key::StickKey;
use stick_model::{Event, Record, Refusal, Reply, RowRoom, Spec, Stored, Ticket};

/// A table that goes over all its records at each event.
#[derive(Drop)]
pub struct PlainTable {
    live: Contents,
    base: Contents,
}

impl Model for PlainTable {
    ghost use Rattle.stick_table.specs.TwoStates.{TwoStates};

    ghost Value = { TwoStates };

    ghost view = { λ table. record { now = table.live; base = table.base } };
}

impl PlainTable {
    ghost use Rattle.std.specs.Prelude.{◌≡◌, ◌≤◌, ◌^◌, ◌↔◌, IsTrue, IfOk, IfErr, OnOk, OnErr, true};
    ghost use Rattle.stick_model.specs.State.{empty_table};
    ghost use Rattle.stick_table.specs.Invariant.{IsBounded};
    ghost use Rattle.stick_model.specs.Limits.{IsTableEvent};
    ghost use Rattle.stick_model.specs.Refusals.{IsRefused, has_life};
    ghost use Rattle.stick_model.specs.Run.{CanRedo, redone};
    ghost use Rattle.stick_model.specs.Step.{Step};

    /// A table of these parts: its records in the order of their keys, and its outstanding references, the oldest first. At its
    /// base it was empty. None of its records has gone yet to make room for others.
    pub fn from_parts(
        alloc: Global,
        spec: Spec,
        clock: u64,
        events: u64,
        records: Vec<(StickKey, Record)>,
        tickets: Vec<(Ticket, StickKey)>,
    ) -> Result<PlainTable, NoMemory>
        requires { IsBounded spec clock events tickets.items }
        ensures now { IfOk result (λ table. table.now ≡ record { spec = spec; clock = clock; events = events; records = records.items; tickets = tickets.items }) }
        ensures base { IfOk result (λ table. table.base ≡ empty_table spec) }
    {
        PlainTable::since_empty(Contents::from_parts(alloc, spec, clock, events, records, tickets))
    }

    /// A table that is this now, and was empty at its base.
    fn since_empty(live: Contents) -> Result<PlainTable, NoMemory>
        ensures { IfOk result (λ table. table ≡ record { now = live; base = empty_table live.spec }) }
    {
        let base = live.emptied()?;
        Ok(PlainTable { live, base })
    }

    /// How many events it has counted.
    pub fn events(&self) -> u64
        ensures events { result ≡ self.now.now.events }
        ensures limit { result ≤ 2 ^ 62 }
    {
        self.live.events()
    }

    /// Its entries: each key with what is kept of it, in the order of the keys.
    pub fn records(&self) -> &[(StickKey, Record)]
        ensures { result.now ≡ self.now.now.records }
    {
        self.live.records()
    }

    /// Its outstanding references with their keys, the oldest first.
    pub fn tickets(&self) -> &[(Ticket, StickKey)]
        ensures { result.now ≡ self.now.now.tickets }
    {
        self.live.tickets()
    }

    /// Whether it is as it was opened: without entries and references, its clock at 0, and no event counted.
    pub fn is_new(&self) -> bool
        ensures { IsTrue result ↔ (self.now.now ≡ empty_table self.now.now.spec) }
    {
        self.live.is_new()
    }

    /// The step of a stored event once more: a reference that it makes gets the slot that the call names. Refused as
    /// `step`.
    pub fn redo(&mut self, stored: &Stored) -> Result<Reply, Refusal>
        requires event { IsTableEvent stored.now.event }
        requires slot { CanRedo self.old.now stored.now }
        ensures ok { IfOk result (λ reply. Step self.old.now stored.now.event reply self.new.now) }
        ensures redone { IfOk result (λ reply. redone self.old.now stored.now ≡ (reply, self.new.now)) }
        ensures lives { OnOk result (has_life self.old.now stored.now.event ≡ true) }
        ensures refused { IfErr result (IsRefused self.old.now stored.now.event) }
        ensures err { OnErr result (self.new.now ≡ self.old.now) }
        ensures base { self.new.base ≡ self.old.base }
    {
        self.live.redo(stored)
    }
}

impl Table for PlainTable {
    ghost state = { λ table. table.now };

    ghost base = { λ table. table.base };

    fn open(alloc: Global, spec: Spec) -> Result<Self, NoMemory> {
        PlainTable::since_empty(Contents::open(alloc, spec))
    }

    fn spec(&self) -> &Spec {
        self.live.spec()
    }

    fn step(&mut self, event: &Event) -> Result<Reply, Refusal> {
        let (reply, _again) = self.step_twice(event)?;
        Ok(reply)
    }

    fn step_twice(&mut self, event: &Event) -> Result<(Reply, Reply), Refusal> {
        self.live.step_twice(event)
    }

    fn references(&self) -> u32 {
        self.live.references()
    }

    fn purged(&self) -> u64 {
        self.live.purged()
    }

    fn entries(&self) -> usize {
        self.live.entries()
    }

    fn swap_room(&mut self, room: RowRoom) -> RowRoom {
        room
    }

    fn set_base(&mut self) -> Result<(), NoMemory> {
        self.base = self.live.copy()?;
        Ok(())
    }

    fn base_events(&self) -> u64 {
        self.base.events()
    }

    fn base_to_plain(&self) -> Result<PlainTable, NoMemory> {
        PlainTable::since_empty(self.base.copy()?)
    }

    fn to_plain(&self) -> Result<PlainTable, NoMemory> {
        PlainTable::since_empty(self.live.copy()?)
    }
}
