//! The callers whose calls are timed.

ghost use Rattle.std.specs.Prelude.{◌≡◌};
ghost use Rattle.test_calls.specs.Planned.{IsNamed};

use crate::locks::bare::BareCaller;
use crate::locks::locked::LockedCaller;
use crate::locks::runner::Runner;
use base_sequence::NoMemory;
use shard_book::Seat;
use shard_locks::{Shards, SharedSeat};
use shard_record::Naming;
use std::alloc::Global;
use std::marker::Brand;
use std::sync::Wait;
use stick_table::Table;
use test_calls::{Planned, TablePlan, books_of, open_alone, open_record};

/// A table in so many shards, and so many seats without receipts.
pub fn plan_of(shards: u32, seats: u32) -> TablePlan {
    TablePlan {
        size: 8_192,
        max_refs: 1_024,
        life: 1 << 62,
        shards,
        seats,
        keep: false,
    }
}

/// The caller of a seat.
fn locked_caller<'a, T: Table, J: Naming, R: Wait>(
    alloc: Global,
    rt: &'a R,
    table: &'a Shards<T, J>,
    seat: SharedSeat<J>,
) -> Runner<LockedCaller<'a, T, J, R>> {
    Runner::new(LockedCaller::new(alloc, rt, table, seat))
}

/// The callers of a table, one for each seat.
pub fn locked_callers<'a, T: Table, J: Naming, R: Wait>(
    alloc: Global,
    rt: &'a R,
    table: &'a Shards<T, J>,
    seats: Vec<SharedSeat<J>>,
) -> Result<Vec<Runner<LockedCaller<'a, T, J, R>>>, NoMemory> {
    let mut runners = Vec::new(alloc);
    for seat in seats {
        runners.push(locked_caller(alloc, rt, table, seat))?;
    }
    Ok(runners)
}

/// A caller of books of its own, with this number. They were a table's, whose calls a record kept.
fn bare_recorded<J: Naming, T: Table>(
    alloc: Global,
    shards: u32,
    number: u32,
    opened: Planned,
) -> Result<Runner<BareCaller<T>>, NoMemory>
    requires record { IsNamed opened J.record_id J.books J.specs }
{
    let (table, _seats) = open_alone::<T, J>(alloc, plan_of(shards, 1), opened)?;
    let books = books_of(alloc, table)?;
    let seat = Seat::new(alloc, number, false);
    Ok(Runner::new(BareCaller::new(alloc, books, seat)))
}

/// A caller of books of its own, with this number.
fn bare_caller<T: Table>(
    alloc: Global,
    shards: u32,
    number: u32,
) -> Result<Runner<BareCaller<T>>, NoMemory> {
    let opened = open_record(alloc, &[plan_of(shards, 1)])?;
    bare_recorded::<Brand, T>(alloc, shards, number, opened)
}

/// So many callers, each of books of its own.
pub fn bare_callers<T: Table>(
    alloc: Global,
    shards: u32,
    callers: u32,
) -> Result<Vec<Runner<BareCaller<T>>>, NoMemory> {
    let mut runners = Vec::new(alloc);
    for number in 0..callers {
        runners.push(bare_caller(alloc, shards, number)?)?;
    }
    Ok(runners)
}
