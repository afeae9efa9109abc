//! What is counted of a world of connections from a few addresses. What a world promises of a call is long, and here
//! counts are compared: so each call stands in a function of its own, of which no more is promised than the next call needs.

ghost use Rattle.std.specs.Prelude.{◌≡◌, ◌<◌, ◌^◌, length, IfOk};
ghost use Rattle.admit_drive.specs.Tables.{CanOpen};

use admit_core::Phase;
use admit_world::{Visit, World};
use base_sequence::NoMemory;
use rule_addresses::Address;
use rule_eval::Samples;
use rule_model::{Setup, Slot};
use std::alloc::Global;
use stick_pooled::StickTable;
use stick_table::{Event, Filter, PlainTable, Reply, Row, Table};

/// A connection of 100 bytes in and 200 out, from 10.0.0.HOST.
pub fn visit(host: u8) -> Visit {
    Visit {
        samples: Samples {
            src: Address::V4([10, 0, 0, host]),
            src_port: 5000,
            dst_port: 0,
        },
        bytes_in: 100,
        bytes_out: 200,
    }
}

/// A world of connections that have just come.
pub fn open_world<'a, T: Table>(
    alloc: Global,
    setup: &'a Setup,
    visits: &[Visit],
) -> Result<World<'a, T>, NoMemory>
    requires { CanOpen setup.now }
    ensures setup { IfOk result (λ world. world.setup ≡ setup.now) }
    ensures count { IfOk result (λ world. length world.visitors ≡ length visits.now) }
{
    World::new(alloc, setup, visits)
}

/// A connection goes on at a moment. How often it was refused, which is once at most.
pub fn go_on<T: Table>(alloc: Global, world: &mut World<'_, T>, number: u32, moment: u64) -> u64
    requires number { number < length world.old.visitors }
    requires moment { moment < 2 ^ 62 }
    ensures setup { world.new.setup ≡ world.old.setup }
    ensures count { length world.new.visitors ≡ length world.old.visitors }
{
    world.run(alloc, &[(number, moment)])
}

/// How far a connection is.
pub fn phase<T: Table>(world: &World<'_, T>, number: u32) -> Phase
    requires { number < length world.now.visitors }
{
    world.phase(number)
}

/// The shard of the reference that a connection holds.
fn held_shard(world: &World<'_, StickTable>, number: u32) -> Option<u32>
    requires { number < length world.now.visitors }
{
    match world.held(number, Slot::Sc0) {
        Some((_, reference)) => Some(reference.shard),
        None => None,
    }
}

/// The table of a shard.
fn shard_of<'w, T: Table>(world: &'w World<'_, T>, shard: u32) -> &'w T
    requires table { length world.now.setup.tables ≡ 1 }
    requires shard { shard < world.now.setup.shards }
{
    world.book(0, shard).live()
}

/// A plain copy of a table.
fn copied<T: Table>(table: &T) -> Option<PlainTable> {
    table.to_plain().ok()
}

/// How many references rows show.
fn references(rows: &[Row]) -> u32 {
    rows.iter()
        .fold(0u32, |sum, row| sum.saturating_add(row.refs))
}

/// How many references a table lists.
fn listed(table: &mut PlainTable) -> Option<u32> {
    match table.step(&Event::List(0, Filter::Everything)) {
        Ok(Reply::Rows { rows, .. }) => match rows.read() {
            Ok(reading) => Some(references(reading.as_slice())),
            Err(_) => None,
        },
        _ => None,
    }
}

/// How many references a shard has out, as its table lists them.
pub fn out<T: Table>(world: &World<'_, T>, shard: u32) -> Option<u32>
    requires table { length world.now.setup.tables ≡ 1 }
    requires shard { shard < world.now.setup.shards }
{
    match copied(shard_of(world, shard)) {
        Some(mut copy) => listed(&mut copy),
        None => None,
    }
}

/// How many of the four connections hold a reference of a shard.
pub fn held(world: &World<'_, StickTable>, shard: u32) -> u32
    requires { length world.now.visitors ≡ 4 }
{
    let mut held = 0u32;
    for number in 0..4u32 {
        if held_shard(world, number) == Some(shard) {
            held = held.saturating_add(1);
        }
    }
    held
}

/// Whether a connection is admitted and holds a reference.
fn is_admitted(world: &World<'_, StickTable>, number: u32) -> bool
    requires { number < length world.now.visitors }
{
    matches!(phase(world, number), Phase::Admitted) && held_shard(world, number).is_some()
}

/// How many of the four connections are admitted, hold a reference and come from a host.
pub fn admitted(world: &World<'_, StickTable>, hosts: [u8; 4], host: u8) -> u32
    requires { length world.now.visitors ≡ 4 }
{
    let mut admitted = 0u32;
    for number in 0..4u32 {
        if hosts[number as usize] == host && is_admitted(world, number) {
            admitted = admitted.saturating_add(1);
        }
    }
    admitted
}
