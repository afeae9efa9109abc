//! A round: a table is opened, called, rolled or not, and settled.

ghost use Rattle.std.specs.Prelude.{◌≡◌};
ghost use Rattle.test_calls.specs.Planned.{IsNamed};

use crate::stress::calling::{Progress, call_all, close};
use base_sequence::NoMemory;
use shard_locks::{Shards, SharedSeat};
use shard_record::Naming;
use shard_settling::{Fault, Settled, Unsettled, settle};
use std::alloc::Global;
use std::fmt::{Display, Formatter, Write};
use std::marker::Brand;
use std::rt::Clock;
use std::sync::Wait;
use std::sync::atomic::AtomicU64;
use std::thread::Threads;
use std::time::Duration;
use std::{fmt, thread};
use stick_pooled::StickTable;
use stick_table::{PlainTable, Refusal, Table};
use test_calls::{Planned, Purse, TablePlan, abandon_all, open_alone, open_record};

/// How many entries each shard has places for.
const PLACES: u32 = 48;

/// How many references each shard may have: more than places, so that some shard is full of tracked entries at times.
const REFERENCES: u32 = 64;

/// The ms for which a roll waits at most.
const PATIENCE: u32 = 60_000;

/// So many threads call a table in so many shards, so often each: a plain one, or a pooled one. With `rolls`, no receipts are
/// kept, and the records are rolled so often meanwhile.
#[derive(Clone, Copy)]
pub struct Plan {
    pub pooled: bool,
    pub threads: u32,
    pub shards: u32,
    pub calls: u32,
    pub rolls: Option<u32>,
}

impl Plan {
    /// The table.
    fn table(self) -> TablePlan {
        TablePlan {
            size: self.shards.saturating_mul(PLACES),
            max_refs: REFERENCES,
            life: 1 << 62,
            shards: self.shards,
            seats: self.threads,
            keep: self.rolls.is_none(),
        }
    }
}

/// How a round ended that was settled: how many calls the books have counted, how many references were shown, and how often
/// a record was rolled.
#[derive(Clone, Copy)]
pub struct Ended {
    calls: u64,
    references: usize,
    rolls: Option<u32>,
}

impl Display for Ended {
    fn fmt<W: Write>(&self, f: &mut Formatter<W>) -> fmt::Result {
        let Ended {
            calls,
            references,
            rolls,
        } = *self;
        match rolls {
            Some(rolls) => write!(
                f,
                "rolled: {calls} calls, {references} references, {rolls} rolls"
            ),
            None => write!(f, "settled: {calls} calls, {references} references"),
        }
    }
}

/// Why a round didn't end as it should.
#[derive(Clone, Copy)]
pub enum Trouble {
    Refused(Refusal),
    Unsettled(Fault),
}

impl From<Refusal> for Trouble {
    fn from(refusal: Refusal) -> Trouble {
        Trouble::Refused(refusal)
    }
}

impl From<NoMemory> for Trouble {
    fn from(_refused: NoMemory) -> Trouble {
        Trouble::Refused(Refusal::Memory)
    }
}

impl Display for Trouble {
    fn fmt<W: Write>(&self, f: &mut Formatter<W>) -> fmt::Result {
        match self {
            Trouble::Refused(refusal) => write!(f, "refused: {refusal}"),
            Trouble::Unsettled(fault) => write!(f, "unsettled: {fault:?}"),
        }
    }
}

/// Waits until so many calls were made, or all callers have ended.
fn wait_for<R: Clock>(rt: &R, progress: &Progress, calls: u64, callers: u32) {
    for _ in 0..PATIENCE {
        if progress.has(calls, callers) {
            return;
        }
        thread::sleep(rt, Duration::from_millis(1));
    }
}

/// Rolls the record of each shard in turn, so often in all, evenly over the calls; answers how often it was done.
fn roll_often<T: Table, J: Naming, R: Wait + Clock>(
    rt: &R,
    table: &Shards<T, J>,
    plan: Plan,
    progress: &Progress,
) -> Result<u32, NoMemory> {
    let rolls = plan.rolls.unwrap_or(0);
    let calls = u64::from(plan.threads) * u64::from(plan.calls);
    let mut rolled = 0u32;
    for number in 0..rolls {
        let due = calls / u64::from(rolls.max(1)) * u64::from(number);
        wait_for(rt, progress, due, plan.threads);
        if table.roll(rt, number % table.shards(), 0)? {
            rolled = rolled.saturating_add(1);
        }
    }
    Ok(rolled)
}

/// What a settled table has counted.
fn tally_of<T: Table, J: Naming>(settled: &Settled<T, J>, rolls: Option<u32>) -> Ended {
    let mut calls = 0u64;
    for count in settled.counts.iter() {
        calls = calls.saturating_add(*count);
    }
    let mut references = 0usize;
    for tickets in settled.tickets.iter() {
        references = references.saturating_add(tickets.as_slice().len());
    }
    Ended {
        calls,
        references,
        rolls,
    }
}

/// Settles a table, its callers showing their seats and references.
fn settle_with<T: Table, J: Naming>(
    alloc: Global,
    table: Shards<T, J>,
    seats: Vec<SharedSeat<J>>,
    purse: Purse<J>,
    rolls: Option<u32>,
) -> Result<Ended, Trouble> {
    match settle(alloc, table, seats, purse.into_refs()) {
        Ok(settled) => Ok(tally_of(&settled, rolls)),
        Err(unsettled) => {
            let Unsettled {
                fault,
                found: _,
                shards: _,
                seats: _,
                refs,
            } = unsettled;
            abandon_all(refs);
            Err(Trouble::Unsettled(fault))
        }
    }
}

/// The calls of a round, the rolls beside them, and what the callers have at their end; with the number of rolls. For each
/// reference that could have come back beside at their end, one event is asked: how many calls there are doesn't depend on how the
/// threads met. Where no thread can be made the rolls come after the calls.
fn call_and_close<T: Table + Send, J: Naming + Send + Sync, R: Threads + Wait + Clock + Sync>(
    rt: &R,
    alloc: Global,
    table: &Shards<T, J>,
    seats: Vec<SharedSeat<J>>,
    plan: Plan,
    seed: u32,
) -> Result<(Vec<SharedSeat<J>>, Purse<J>, u32), Refusal> {
    let progress = Progress {
        calls: AtomicU64::new(0),
        ended: AtomicU64::new(0),
    };
    let (rolled, called) = thread::join(
        rt,
        || roll_often(rt, table, plan, &progress),
        || call_all(rt, alloc, table, seats, plan, seed, &progress),
    );
    let rolled = rolled?;
    let (seats, released) = called?;
    let most = u64::from(REFERENCES) * u64::from(table.shards());
    let (seats, purse) = close(rt, alloc, table, seats, most.saturating_sub(released))?;
    Ok((seats, purse, rolled))
}

/// A round of a plan on tables of this kind, whose numbers are drawn by this seed, its calls in a record.
fn round_recorded<J: Naming + Send + Sync, T: Table + Send, R: Threads + Wait + Clock + Sync>(
    rt: &R,
    alloc: Global,
    plan: Plan,
    seed: u32,
    opened: Planned,
) -> Result<Ended, Trouble>
    requires record { IsNamed opened J.record_id J.books J.specs }
{
    let (table, seats) = open_alone::<T, J>(alloc, plan.table(), opened)?;
    let (seats, purse, rolled) = call_and_close(rt, alloc, &table, seats, plan, seed)?;
    let rolls = match plan.rolls {
        Some(_) => Some(rolled),
        None => None,
    };
    settle_with(alloc, table, seats, purse, rolls)
}

/// A round of a plan on tables of this kind, whose numbers are drawn by this seed.
fn run_round<T: Table + Send, R: Threads + Wait + Clock + Sync>(
    rt: &R,
    alloc: Global,
    plan: Plan,
    seed: u32,
) -> Result<Ended, Trouble> {
    let opened = open_record(alloc, &[plan.table()])?;
    round_recorded::<Brand, T, R>(rt, alloc, plan, seed, opened)
}

/// A round of a plan, whose numbers are drawn by this seed.
pub fn run_planned<R: Threads + Wait + Clock + Sync>(
    rt: &R,
    alloc: Global,
    plan: Plan,
    seed: u32,
) -> Result<Ended, Trouble> {
    if plan.pooled {
        return run_round::<StickTable, R>(rt, alloc, plan, seed);
    }
    run_round::<PlainTable, R>(rt, alloc, plan, seed)
}
