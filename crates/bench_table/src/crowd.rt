//! A crowd at a limit. Many threads track one key at once and look at its entry, and who sees more references than the limit
//! gives its own back. However their calls fall between one another, no more stay than the limit says: `admit_all` ensures it,
//! and here it runs.

ghost use Rattle.std.specs.Prelude.{◌≡◌};
ghost use Rattle.test_calls.specs.Planned.{IsNamed};

use shard_locks::{Shards, SharedSeat};
use shard_record::Naming;
use std::alloc::Global;
use std::fmt::{Display, Formatter, Write};
use std::marker::Brand;
use std::sync::Wait;
use std::thread::Threads;
use std::{fmt, io};
use stick_pooled::StickTable;
use stick_table::{Refusal, Table};
use test_calls::{Client, Planned, TablePlan, admit_all, key, open_alone, open_record};

/// How many clients come at once, each on a thread of its own, and how many of them may stay.
const CLIENTS: u32 = 16;

const LIMIT: u32 = 3;

/// The table that they come to.
const TABLE: TablePlan = TablePlan {
    size: 64,
    max_refs: 64,
    life: 1 << 62,
    shards: 4,
    seats: CLIENTS,
    keep: false,
};

/// How a round ended: how many clients stayed, and how many references were out then.
#[derive(Clone, Copy)]
struct Stayed {
    clients: u32,
    references: u32,
}

impl Stayed {
    /// Whether no more stayed than may, and each of them has a reference.
    fn is_within(self) -> bool {
        self.clients <= LIMIT && self.references == self.clients
    }
}

impl Display for Stayed {
    fn fmt<W: Write>(&self, f: &mut Formatter<W>) -> fmt::Result {
        let Stayed {
            clients,
            references,
        } = *self;
        write!(f, "{clients} stayed, {references} references out")
    }
}

/// The clients of a crowd, all of one key, each of whom has a seat.
fn clients_of<J: Naming>(
    alloc: Global,
    seats: Vec<SharedSeat<J>>,
) -> Result<Vec<Client<J>>, Refusal> {
    let mut clients = Vec::new(alloc);
    for seat in seats {
        let key = key(alloc, 1)?;
        clients.push(Client { seat, key })?;
    }
    Ok(clients)
}

/// How many clients of a crowd stay, each of whom has a seat. The references of those are out until the round ends.
fn stay<T: Table + Send, J: Naming + Send + Sync, R: Threads + Wait + Sync>(
    rt: &R,
    alloc: Global,
    table: &Shards<T, J>,
    seats: Vec<SharedSeat<J>>,
) -> Result<u32, Refusal> {
    let mut clients = clients_of(alloc, seats)?;
    let Some(first) = clients.pop() else {
        return Ok(0);
    };
    let crowd = admit_all(rt, table, first, clients, 0, LIMIT);
    Ok(crowd.admitted)
}

/// How many references to a table's entries are out.
fn references_out<T: Table, J: Naming>(rt: &impl Wait, table: &Shards<T, J>) -> u32 {
    let mut references = 0u32;
    for shard in 0..table.shards() {
        references = references.saturating_add(table.occupancy(rt, shard).references);
    }
    references
}

/// A round, its calls in a record.
fn round_recorded<J: Naming + Send + Sync, T: Table + Send, R: Threads + Wait + Sync>(
    rt: &R,
    alloc: Global,
    opened: Planned,
) -> Result<Stayed, Refusal>
    requires record { IsNamed opened J.record_id J.books J.specs }
{
    let (table, seats) = open_alone::<T, J>(alloc, TABLE, opened)?;
    let clients = stay(rt, alloc, &table, seats)?;
    Ok(Stayed {
        clients,
        references: references_out(rt, &table),
    })
}

/// A round of a new table.
fn run_round<T: Table + Send, R: Threads + Wait + Sync>(
    rt: &R,
    alloc: Global,
) -> Result<Stayed, Refusal> {
    let opened = open_record(alloc, &[TABLE])?;
    round_recorded::<Brand, T, R>(rt, alloc, opened)
}

/// Runs a round, and says where it didn't end as it should; answers whether it did.
fn is_kept<T: Table + Send, R: Threads + Wait + Sync + Eprint + AllocGlobal>(
    rt: &R,
) -> io::Result<bool> {
    match run_round::<T, R>(rt, rt.alloc()) {
        Ok(stayed) => {
            if stayed.is_within() {
                return Ok(true);
            }
            eprintln!(rt; "bench_table: {stayed}")?;
            Ok(false)
        }
        Err(refusal) => {
            eprintln!(rt; "bench_table: refused: {refusal}")?;
            Ok(false)
        }
    }
}

/// Runs so many rounds, until one doesn't end as it should; answers whether each did.
fn are_kept<T: Table + Send, R: Threads + Wait + Sync + Print + Eprint + AllocGlobal>(
    rt: &R,
    rounds: u32,
) -> io::Result<bool> {
    for _ in 0..rounds {
        if !is_kept::<T, R>(rt)? {
            return Ok(false);
        }
    }
    println!(rt; "crowd: {rounds} rounds, at most {LIMIT} of {CLIENTS} stay")?;
    Ok(true)
}

/// Has crowds of one key come to new pooled tables, so many, one behind the other. Answers whether no more stayed than the limit
/// says, each time, and as many references were out.
pub fn run_crowds<R: Threads + Wait + Sync + Print + Eprint + AllocGlobal>(
    rt: &R,
    rounds: u32,
) -> io::Result<bool> {
    are_kept::<StickTable, R>(rt, rounds)
}
