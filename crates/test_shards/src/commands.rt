//! Commands on a table that threads share, asked by one seat, and records of a table that one thread has, which begin again.

use crate::trials::{Desk, Sums, Trial, holds, passes};
use base_clock::StoppedClock;
use base_sequence::{NoMemory, Sequence};
use byte_ports::MemorySink;
use shard_book::{Books, Keeper, Named};
use shard_locks::Seated;
use shard_record::Naming;
use std::alloc::Global;
use std::sync::Wait;
use std::test::Fail;
use stick_key::KeyType;
use stick_table::{Event, PlainTable, Refusal, Spec};
use stored_data::StoredSet;
use table_cli::{answer, answer_oldest_first};

/// A command line at a moment in ms, and its answer.
type Answered = (u32, &'static [u8], &'static [u8]);

/// Lines on a table of integers in two shards, whose entries live for 500 ms. Keys 5 and 7 lie on the first shard, key 6 on the
/// second.
static LINES: [Answered; 5] = [
    (0, b"set table n key 5", b"\n"),
    (0, b"set table n key 7", b"\n"),
    (0, b"set table n key 6", b"\n"),
    (0, b"set table n key 5 data.gpc0 2", b"\n"),
    (
        10,
        b"show table n",
        b"# table: n, type: integer, size:12, used:3\n\
          0x0: key=5 use=0 exp=490 gpc0=2 conn_cnt=0 conn_cur=0\n\
          0x0: key=6 use=0 exp=490 gpc0=0 conn_cnt=0 conn_cur=0\n\
          0x0: key=7 use=0 exp=490 gpc0=0 conn_cnt=0 conn_cur=0\n\n",
    ),
];

/// What is told of the table then in the order in which its entries go, at moment 10, without an event.
static TOLD: &[u8] = b"# table: n, type: integer, size:12, used:3\n\
    0x0: key=7 use=0 exp=490 gpc0=0 conn_cnt=0 conn_cur=0\n\
    0x0: key=5 use=0 exp=490 gpc0=2 conn_cnt=0 conn_cur=0\n\
    0x0: key=6 use=0 exp=490 gpc0=0 conn_cnt=0 conn_cur=0\n\n";

/// Whether a line is answered so.
fn is_answered<K: Keeper>(
    alloc: Global,
    tables: &mut [Named<K>],
    (moment, line, wanted): Answered,
) -> bool {
    let mut clock = StoppedClock::at(u64::from(moment));
    let mut writer = MemorySink::new(alloc, 1_000, None);
    answer(alloc, tables, &mut clock, line, &mut writer).is_ok() && writer.written() == wanted
}

/// Whether the lines are answered so, one after another.
fn are_answered<K: Keeper>(alloc: Global, tables: &mut [Named<K>]) -> bool {
    for line in LINES.iter() {
        if !is_answered(alloc, tables, *line) {
            return false;
        }
    }
    true
}

/// Whether the table is told so, the oldest entry of a shard first.
fn is_told<K: Keeper>(alloc: Global, tables: &[Named<K>]) -> bool {
    let mut clock = StoppedClock::at(10);
    let mut writer = MemorySink::new(alloc, 1_000, None);
    answer_oldest_first(alloc, tables, &mut clock, b"n", &mut writer).is_ok()
        && writer.written() == TOLD
}

/// The tables of a line's service: one, named n.
fn named<K: Keeper + Drop>(alloc: Global, keeper: K) -> Result<Vec<Named<K>>, NoMemory> {
    let name = Sequence::from_slice(alloc, b"n")?;
    let mut tables = Vec::new(alloc);
    tables.push(Named { name, keeper })?;
    Ok(tables)
}

/// Whether a table that a seat asks is answered and told so.
fn is_served<K: Keeper + Drop>(alloc: Global, keeper: K) -> bool {
    match named(alloc, keeper) {
        Ok(mut tables) => are_answered(alloc, &mut tables) && is_told(alloc, &tables),
        Err(_) => false,
    }
}

/// Whether that is so of a seat of a table that threads share; and its books have that many calls, all since the empty table.
pub fn are_commands_answered<J: Naming>(rt: &impl Wait, alloc: Global, desk: Desk<J>) -> bool {
    let Desk { table, first, .. } = desk;
    let is_served = is_served(alloc, Seated::new(&table, rt, first));
    let called = |events: u64| Sums {
        size: 6,
        events,
        base: 0,
        calls: events as usize,
    };
    is_served && holds(alloc, table, [called(4), called(2)])
}

#[test]
fn a_seat_is_answered(rt: HostRuntime) -> Result<(), Fail> {
    assert!(rt; passes(&rt, rt.alloc(), Trial::Commands));
    Ok(())
}

/// How many calls the records of a table have that one thread has called once, and how many once they have begun again.
fn begun_again(alloc: Global) -> Result<(u64, u64), Refusal> {
    let spec = Spec {
        kind: KeyType::Integer,
        size: 12,
        expire: None,
        nopurge: false,
        purge: 1,
        columns: StoredSet::new(alloc),
        max_refs: 4,
        life: 1_000,
        seed: 0,
    };
    let mut books = Books::<PlainTable>::new(alloc, spec, 2)?;
    books.call(1, 0, Event::Expire(0))?;
    let recorded = books.recorded();
    books.roll()?;
    Ok((recorded, books.recorded()))
}

#[test]
fn records_of_one_thread_begin_again(rt: HostRuntime) -> Result<(), Fail> {
    assert!(rt; begun_again(rt.alloc()).ok() == Some((1, 0)));
    Ok(())
}
