//! The callers of a table, each in a thread of its own, and what they do before the table is settled.

ghost use Rattle.stick_model.specs.Limits.{IsTableEvent};

use crate::stress::rounds::Plan;
use shard_locks::{Shards, SharedSeat};
use shard_record::Naming;
use std::alloc::Global;
use std::sync::Wait;
use std::sync::atomic::{AtomicU64, Ordering};
use std::thread;
use std::thread::Threads;
use stick_table::{Event, Refusal, Table};
use test_calls::{Caller, Drawing, Purse, key};

/// One call of so many lists all shards.
const LISTED: u32 = 64;

/// How many calls the callers have made, and how many of them have ended.
#[derive(Drop)]
pub struct Progress {
    pub calls: AtomicU64,
    pub ended: AtomicU64,
}

impl Progress {
    /// Whether so many calls were made, or so many callers have ended.
    pub fn has(&self, calls: u64, callers: u32) -> bool {
        calls <= self.calls.load(Ordering::SeqCst)
            || u64::from(callers) <= self.ended.load(Ordering::SeqCst)
    }
}

/// The caller of a seat.
fn caller_of<'a, T: Table, J: Naming>(
    alloc: Global,
    table: &'a Shards<T, J>,
    seat: SharedSeat<J>,
    seed: u32,
) -> Caller<'a, T, J> {
    let drawing = Drawing {
        seed,
        keys: 1_000,
        moments: 400,
    };
    Caller::new(alloc, table, seat, Purse::new(alloc), drawing)
}

/// The calls of one caller, a ms after one another, one in 64 of them a listing of all shards; answers how many references it gave
/// back then.
fn call_often<T: Table, J: Naming>(
    rt: &impl Wait,
    caller: &mut Caller<'_, T, J>,
    calls: u32,
    progress: &Progress,
) -> Result<u64, Refusal> {
    for number in 0..calls {
        caller.wait(1);
        if number % LISTED == 0 {
            caller.list_any(rt)?;
            progress
                .calls
                .fetch_add(u64::from(LISTED), Ordering::SeqCst);
        } else {
            caller.call(rt)?;
        }
    }
    caller.release_all(rt)
}

/// A seat whose caller has ended, and how many references it gave back.
#[derive(Drop)]
struct Called<J: Naming> {
    seat: SharedSeat<J>,
    released: u64,
}

/// All calls of one seat.
fn call_to_end<T: Table, J: Naming>(
    rt: &impl Wait,
    alloc: Global,
    table: &Shards<T, J>,
    seat: SharedSeat<J>,
    plan: Plan,
    seed: u32,
    progress: &Progress,
) -> Result<Called<J>, Refusal> {
    let mut caller = caller_of(alloc, table, seat, seed);
    let called = call_often(rt, &mut caller, plan.calls, progress);
    progress.ended.fetch_add(1, Ordering::SeqCst);
    match called {
        Ok(released) => {
            let (seat, _purse) = caller.into_parts();
            Ok(Called { seat, released })
        }
        Err(refusal) => Err(refusal),
    }
}

/// Has all seats call at once; they come back in their order, with the number of references that were given back at the end.
pub fn call_all<T: Table + Send, J: Naming + Send + Sync, R: Threads + Wait + Sync>(
    rt: &R,
    alloc: Global,
    table: &Shards<T, J>,
    seats: Vec<SharedSeat<J>>,
    plan: Plan,
    seed: u32,
    progress: &Progress,
) -> Result<(Vec<SharedSeat<J>>, u64), Refusal> {
    let called = thread::map_vec(
        rt,
        seats,
        &|seat| call_to_end(rt, alloc, table, seat, plan, seed, progress),
    )?;
    let mut seats = Vec::new(alloc);
    let mut released = 0u64;
    for one in called {
        let Called {
            seat,
            released: more,
        } = one?;
        seats.push(seat)?;
        released = released.saturating_add(more);
    }
    Ok((seats, released))
}

/// Has a caller ask an event, and lets go what it was told.
fn ask<T: Table, J: Naming>(
    rt: &impl Wait,
    caller: &mut Caller<'_, T, J>,
    event: Event,
) -> Result<(), Refusal>
    requires { IsTableEvent event }
{
    match caller.ask(rt, 0, event) {
        Ok(_reply) => Ok(()),
        Err(refusal) => Err(refusal),
    }
}

/// What a caller does at its end: the first asks so often for what has expired, and every second one takes a reference of a key
/// of its own.
fn close_caller<T: Table, J: Naming>(
    rt: &impl Wait,
    alloc: Global,
    caller: &mut Caller<'_, T, J>,
    expires: u64,
) -> Result<(), Refusal> {
    let number = caller.seat().seat().number();
    if number % 2 == 1 {
        return Ok(());
    }
    let expires = if number == 0 { expires } else { 0 };
    for _ in 0..expires {
        ask(rt, caller, Event::Expire(0))?;
    }
    ask(rt, caller, Event::Track(0, key(alloc, number)?))
}

/// The callers have given all references back. Then every second one takes one, and the first asks for what has expired, so often
/// as is said. What comes back are the seats, and the references.
pub fn close<T: Table, J: Naming>(
    rt: &impl Wait,
    alloc: Global,
    table: &Shards<T, J>,
    seats: Vec<SharedSeat<J>>,
    expires: u64,
) -> Result<(Vec<SharedSeat<J>>, Purse<J>), Refusal> {
    let mut ended = Vec::new(alloc);
    let mut held = Purse::new(alloc);
    for seat in seats {
        let mut caller = caller_of(alloc, table, seat, 0);
        close_caller(rt, alloc, &mut caller, expires)?;
        let (seat, purse) = caller.into_parts();
        ended.push(seat)?;
        held.put_all(purse.into_refs());
    }
    Ok((ended, held))
}
