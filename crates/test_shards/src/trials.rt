//! The trials of tables, each on new tables of a record of its own.

ghost use Rattle.std.specs.Prelude.{◌≡◌};
ghost use Rattle.test_calls.specs.Planned.{IsNamed};

use crate::commands::are_commands_answered;
use crate::holding::{Waiting, waits_as};
use crate::refusals::are_refused;
use crate::rolls::is_rolled;
use crate::rounds::keeps_house;
use crate::threads::settles;
use base_sequence::NoMemory;
use shard_book::Book;
use shard_locks::{Shards, SharedSeat};
use shard_record::Naming;
use std::alloc::Global;
use std::marker::Brand;
use std::rt::Clock;
use std::sync::Wait;
use std::thread::Threads;
use stick_table::{PlainTable, Table};
use test_calls::{
    Caller, Drawing, OpenTable, Planned, Purse, Records, TablePlan, books_of, open_record,
};

/// What is tried.
#[derive(Clone, Copy)]
pub enum Trial {
    Holding(Waiting),
    Threads,
    Refusals,
    Rolls,
    Commands,
    Rounds,
}

/// A table of 12 entries, each shard of which may have 5 references.
const TWELVE: TablePlan = TablePlan {
    size: 12,
    max_refs: 5,
    life: 1 << 62,
    shards: 2,
    seats: 2,
    keep: false,
};

/// What is drawn of keys and moments.
const DRAWING: Drawing = Drawing {
    seed: 0,
    keys: 16,
    moments: 2_000,
};

impl Trial {
    /// The table that is called.
    fn table(self) -> TablePlan {
        match self {
            Trial::Threads => TablePlan {
                keep: true,
                ..TWELVE
            },
            Trial::Refusals => TablePlan { life: 3, ..TWELVE },
            _ => TWELVE,
        }
    }
}

/// A table and its two seats.
#[derive(Drop)]
pub struct Desk<J: Naming> {
    pub table: Shards<PlainTable, J>,
    pub first: SharedSeat<J>,
    pub second: SharedSeat<J>,
}

/// A table with its seats.
fn desk_of<J: Naming>(opened: OpenTable<PlainTable, J>) -> Option<Desk<J>> {
    let (table, mut seats) = opened;
    match (seats.pop(), seats.pop()) {
        (Some(second), Some(first)) => Some(Desk {
            table,
            first,
            second,
        }),
        _ => None,
    }
}

/// A caller by a seat, who holds nothing yet.
pub fn caller_of<J: Naming>(
    alloc: Global,
    table: &Shards<PlainTable, J>,
    seat: SharedSeat<J>,
) -> Caller<'_, PlainTable, J> {
    Caller::new(alloc, table, seat, Purse::new(alloc), DRAWING)
}

/// What a book holds: the places of its table, its events, those of its base, and the calls since then.
#[derive(Clone, Copy, PartialEq)]
pub struct Sums {
    pub size: u32,
    pub events: u64,
    pub base: u64,
    pub calls: usize,
}

fn sums_of(book: &Book<PlainTable>) -> Sums {
    Sums {
        size: book.live().spec().size,
        events: book.events(),
        base: book.live().base_events(),
        calls: book.calls().len(),
    }
}

/// Whether the books of a table's two shards hold that.
pub fn holds<J: Naming>(alloc: Global, table: Shards<PlainTable, J>, wanted: [Sums; 2]) -> bool {
    let Ok(books) = books_of(alloc, table) else {
        return false;
    };
    match books.as_slice() {
        [first, second] => [sums_of(first), sums_of(second)] == wanted,
        _ => false,
    }
}

/// The tables of a record: that which is called, and another.
fn open_two<J: Naming>(
    alloc: Global,
    plan: TablePlan,
    planned: Planned,
) -> Result<(Option<Desk<J>>, Option<Desk<J>>), NoMemory>
    requires { IsNamed planned J.record_id J.books J.specs }
{
    let records = Records::<J>::new(alloc, planned)?;
    let (left, own) = records.open(alloc, plan)?;
    let (_left, other) = left.open(alloc, TWELVE)?;
    Ok((desk_of(own), desk_of(other)))
}

/// Whether a trial passes on a table, with another beside it.
fn passes_on<J: Naming + Send + Sync, R: Threads + Wait + Clock + Sync>(
    rt: &R,
    alloc: Global,
    trial: Trial,
    own: Desk<J>,
    other: Desk<J>,
) -> bool {
    match trial {
        Trial::Holding(waiting) => waits_as(rt, alloc, own, waiting),
        Trial::Threads => settles(rt, alloc, own),
        Trial::Refusals => are_refused(rt, alloc, own, other),
        Trial::Rolls => is_rolled(rt, alloc, own),
        Trial::Commands => are_commands_answered(rt, alloc, own),
        Trial::Rounds => keeps_house(rt, alloc, own),
    }
}

/// Whether a trial passes on tables of a record.
fn passes_recorded<J: Naming + Send + Sync, R: Threads + Wait + Clock + Sync>(
    rt: &R,
    alloc: Global,
    trial: Trial,
    planned: Planned,
) -> bool
    requires { IsNamed planned J.record_id J.books J.specs }
{
    let Ok(desks) = open_two::<J>(alloc, trial.table(), planned) else {
        return false;
    };
    let (own, other) = desks;
    let Some(own) = own else {
        return false;
    };
    match other {
        Some(other) => passes_on(rt, alloc, trial, own, other),
        None => false,
    }
}

/// Whether a trial passes.
pub fn passes<R: Threads + Wait + Clock + Sync>(rt: &R, alloc: Global, trial: Trial) -> bool {
    match open_record(alloc, &[trial.table(), TWELVE]) {
        Ok(planned) => passes_recorded::<Brand, R>(rt, alloc, trial, planned),
        Err(_) => false,
    }
}
