//! Two threads that share a table, with which it is settled once they have ended.

use crate::trials::{Desk, Trial, caller_of, passes};
use shard_book::Book;
use shard_locks::{Shards, SharedSeat};
use shard_record::Naming;
use shard_settling::{Settled, Unsettled, settle};
use std::alloc::Global;
use std::rt::Clock;
use std::sync::Wait;
use std::test::Fail;
use std::thread;
use std::thread::Threads;
use stick_table::{PlainTable, Table};
use test_calls::{Caller, Purse, abandon_all};

/// How many calls each thread makes.
const CALLS: u32 = 1_000;

/// A seat that has called, and the references that its caller holds.
type Called<J> = (SharedSeat<J>, Purse<J>);

/// Has a caller call so often; answers whether no call was refused.
fn is_answered<J: Naming>(rt: &impl Wait, caller: &mut Caller<'_, PlainTable, J>) -> bool {
    for _ in 0..CALLS {
        if caller.call(rt).is_err() {
            return false;
        }
    }
    true
}

/// The calls of one thread, unless one is refused.
fn call_often<J: Naming>(
    rt: &impl Wait,
    alloc: Global,
    table: &Shards<PlainTable, J>,
    seat: SharedSeat<J>,
) -> Option<Called<J>> {
    let mut caller = caller_of(alloc, table, seat);
    if is_answered(rt, &mut caller) {
        Some(caller.into_parts())
    } else {
        None
    }
}

/// The calls of two threads.
fn call_from_two<J: Naming + Send + Sync, R: Threads + Wait + Sync>(
    rt: &R,
    alloc: Global,
    table: &Shards<PlainTable, J>,
    first: SharedSeat<J>,
    second: SharedSeat<J>,
) -> Option<(Called<J>, Called<J>)> {
    thread::scope(
        thread::scope_env(),
        rt,
        |scope| -> Option<(Called<J>, Called<J>)> {
            let Ok(first) = scope.spawn(move || call_often(rt, alloc, table, first)) else {
                return None;
            };
            let Ok(second) = scope.spawn(move || call_often(rt, alloc, table, second)) else {
                return None;
            };
            match (first.join(rt), second.join(rt)) {
                (Some(first), Some(second)) => Some((first, second)),
                _ => None,
            }
        },
    )
}

/// Whether a book has counted so many calls, and its record goes back to the empty table.
fn is_whole(book: &Book<PlainTable>, calls: u64) -> bool {
    book.live().base_events() == 0 && book.events() == calls
}

/// Whether all calls were settled, and the references that are held, with books whose records go back to the empty table.
fn is_settled<J: Naming>(settled: &Settled<PlainTable, J>, held: usize) -> bool {
    match (
        settled.counts.as_slice(),
        settled.tickets.as_slice(),
        settled.books.as_slice(),
    ) {
        ([first, second], [tickets, more], [book, other]) => {
            first.saturating_add(*second) == 2 * u64::from(CALLS)
                && tickets
                    .as_slice()
                    .len()
                    .saturating_add(more.as_slice().len())
                    == held
                && is_whole(book, *first)
                && is_whole(other, *second)
        }
        _ => false,
    }
}

/// Whether a table is settled with what two callers have.
fn settles_with<J: Naming>(
    alloc: Global,
    table: Shards<PlainTable, J>,
    first: Called<J>,
    second: Called<J>,
) -> bool {
    let ((seat, mut purse), (other, more)) = (first, second);
    purse.put_all(more.into_refs());
    let held = purse.count();
    let mut seats = Vec::new(alloc);
    if seats.push(seat).is_err() || seats.push(other).is_err() {
        return false;
    }
    match settle(alloc, table, seats, purse.into_refs()) {
        Ok(settled) => is_settled(&settled, held),
        Err(unsettled) => {
            let Unsettled {
                fault: _,
                found: _,
                shards: _,
                seats: _,
                refs,
            } = unsettled;
            abandon_all(refs);
            false
        }
    }
}

/// Whether two threads call a table, of which none is refused, and it is settled then.
pub fn settles<J: Naming + Send + Sync, R: Threads + Wait + Clock + Sync>(
    rt: &R,
    alloc: Global,
    desk: Desk<J>,
) -> bool {
    let Desk {
        table,
        first,
        second,
    } = desk;
    match call_from_two(rt, alloc, &table, first, second) {
        Some((first, second)) => settles_with(alloc, table, first, second),
        None => false,
    }
}

#[test]
fn threads_settle_with_receipts(rt: HostRuntime) -> Result<(), Fail> {
    assert!(rt; passes(&rt, rt.alloc(), Trial::Threads));
    Ok(())
}
