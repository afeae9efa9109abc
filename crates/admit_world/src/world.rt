//! Connections that share the tables of a setup, and go on by a schedule; tests run it.

ghost use Rattle.std.specs.Prelude.{◌≡◌, ◌<◌, ◌^◌, List, length, Some, slice_get, IfOk};
ghost use Rattle.admit_core.specs.Connection.{Connection};
ghost use Rattle.admit_core.specs.Held.{held_at};
ghost use Rattle.admit_drive.specs.Tables.{CanOpen, HasShard, TableState, table_states};
ghost use Rattle.shard_port.specs.declared.reference.Reference.{Reference as ItsReference};
ghost use Rattle.admit_world.specs.World.{begun, Element, Elements, IsSchedule, WorldState};
ghost use Rattle.admit_world.specs.WorldCode.{IsReached, StandsFor, WorldView, world_view};
ghost use Rattle.admit_world.specs.declared.visit.Visit.{Visit as ItsVisit};

use crate::visitor::{Visitor, wake};
use crate::{Reference, Visit};
use admit_core::{Conn, Phase};
use admit_drive::{advance, open_tables};
use base_sequence::NoMemory;
use rule_model::{Setup, Slot};
use shard_book::{Book, Books, Named};
use std::alloc::Global;
use std::marker::Model;
use stick_table::Table;

/// Connections that share the tables of a setup, on one thread: each goes on by one event or one change of phase, in any
/// order.
#[derive(Drop)]
pub struct World<'a, T: Table> {
    setup: &'a Setup,
    tables: Vec<Named<Books<T>>>,
    visitors: Vec<Visitor<'a>>,
}

impl<'a, T: Table> Model for World<'a, T> {
    ghost use Rattle.admit_world.specs.WorldCode.{IsReached, WorldView, world_view};

    ghost Value = { WorldView };

    ghost view = { λ world. world_view world.setup.now world.tables.items world.visitors.items };

    ghost invariant = { λ world. IsReached (world_view world.setup.now world.tables.items world.visitors.items) };
}

/// The book of a shard that is there.
fn book_of<T: Table>(tables: &[Named<Books<T>>], table: u32, shard: u32) -> &Book<T>
    requires { HasShard (table_states tables.now) table shard }
    ensures { (found : TableState) → slice_get (table_states tables.now) table ≡ Some found → slice_get found.state.books shard ≡ Some result.now }
{
    tables[table as usize].keeper.book(shard)
}

/// One connection goes on, after it is closed where it rests. Whether it was refused.
fn go_on<T: Table>(
    alloc: Global,
    setup: &Setup,
    tables: &mut Vec<Named<Books<T>>>,
    visitors: &mut Vec<Visitor<'_>>,
    number: u32,
    moment: u64,
) -> bool
    requires number { number < length visitors.old.items }
    requires moment { moment < 2 ^ 62 }
    requires reached { IsReached (world_view setup.now tables.old.items visitors.old.items) }
    ensures count { length visitors.new.items ≡ length visitors.old.items }
    ensures went { (visits : List ItsVisit) (world : WorldState) → StandsFor (world_view setup.now tables.old.items visitors.old.items) visits world →
        (after : WorldState) × StandsFor (world_view setup.now tables.new.items visitors.new.items) visits after × Element visits world (number, moment) after result }
{
    let visitor = &mut visitors[number as usize];
    wake(visitor);
    advance(alloc, tables.as_mut_slice(), &mut visitor.conn, moment)
}

impl<'a, T: Table> World<'a, T> {
    /// A world of empty tables, in which a connection has just come for each visit.
    pub fn new(alloc: Global, setup: &'a Setup, visits: &[Visit]) -> Result<Self, NoMemory>
        requires { CanOpen setup.now }
        ensures stands { IfOk result (λ world. StandsFor world visits.now (begun setup.now visits.now)) }
        ensures setup { IfOk result (λ world. world.setup ≡ setup.now) }
        ensures count { IfOk result (λ world. length world.visitors ≡ length visits.now) }
    {
        let tables = open_tables(alloc, setup)?;
        let mut visitors = Vec::new(alloc);
        for visit in visits {
            visitors.push(Visitor {
                visit: *visit,
                conn: Conn::new(setup, visit.samples),
            })?;
        }
        Ok(World {
            setup,
            tables,
            visitors,
        })
    }

    /// How far a connection is.
    pub fn phase(&self, number: u32) -> Phase
        requires { number < length self.now.visitors }
        ensures { (visits : List ItsVisit) (world : WorldState) (connection : Connection ItsReference) → StandsFor self.now visits world →
            slice_get world.connections number ≡ Some connection → result ≡ connection.progress.phase }
    {
        self.visitors[number as usize].conn.phase()
    }

    /// The number of the table and the reference that a connection holds by a slot.
    pub fn held(&self, number: u32, slot: Slot) -> Option<(u32, Reference)>
        requires { number < length self.now.visitors }
        ensures { (visits : List ItsVisit) (world : WorldState) (connection : Connection ItsReference) → StandsFor self.now visits world →
            slice_get world.connections number ≡ Some connection → result ≡ held_at connection.progress.held slot }
    {
        match self.visitors[number as usize].conn.held(slot) {
            Some((table, reference)) => Some((table, *reference)),
            None => None,
        }
    }

    /// The book of a shard of a table.
    pub fn book(&self, table: u32, shard: u32) -> &Book<T>
        requires table { table < length self.now.setup.tables }
        requires shard { shard < self.now.setup.shards }
        ensures { (found : TableState) → slice_get self.now.tables table ≡ Some found → slice_get found.state.books shard ≡ Some result.now }
    {
        book_of(self.tables.as_slice(), table, shard)
    }

    /// Each element of a schedule, a connection's number and a moment in ms, has that connection go on: its next event is
    /// made on its shard's book, or its next change of phase. One that rests is closed first, and one that has ended does
    /// nothing. How many elements were refused.
    pub fn run(&mut self, alloc: Global, schedule: &[(u32, u64)]) -> u64
        requires schedule { IsSchedule (length self.old.visitors) schedule.now }
        ensures setup { self.new.setup ≡ self.old.setup }
        ensures count { length self.new.visitors ≡ length self.old.visitors }
        ensures ran { (visits : List ItsVisit) (world : WorldState) → StandsFor self.old visits world →
            (after : WorldState) × StandsFor self.new visits after × Elements visits world schedule.now after result }
    {
        let mut refused = 0u64;
        for (number, moment) in schedule {
            if self.element(alloc, *number, *moment) {
                refused += 1;
            }
        }
        refused
    }

    /// One connection goes on. Whether it was refused.
    fn element(&mut self, alloc: Global, number: u32, moment: u64) -> bool
        requires number { number < length self.old.visitors }
        requires moment { moment < 2 ^ 62 }
        ensures setup { self.new.setup ≡ self.old.setup }
        ensures count { length self.new.visitors ≡ length self.old.visitors }
        ensures went { (visits : List ItsVisit) (world : WorldState) → StandsFor self.old visits world →
            (after : WorldState) × StandsFor self.new visits after × Element visits world (number, moment) after result }
    {
        go_on(
            alloc,
            self.setup,
            &mut self.tables,
            &mut self.visitors,
            number,
            moment,
        )
    }
}
