//! Times calls of a table in shards that threads share, and the same calls of books without locks, or makes a few of them.

mod bare;
mod calls;
mod locked;
mod opening;
mod runner;

ghost use Rattle.std.specs.Prelude.{◌≡◌};
ghost use Rattle.test_calls.specs.Planned.{IsNamed};

use base_sequence::NoMemory;
use opening::{bare_callers, locked_callers, plan_of};
use runner::{Timed, Work, measure};
use shard_locks::{Shards, SharedSeat};
use shard_record::Naming;
use std::io;
use std::io::Print;
use std::marker::Brand;
use std::rt::Clock;
use std::sync::Wait;
use std::thread::Threads;
use stick_pooled::StickTable;
use stick_table::Table;
use test_calls::{Planned, open_alone, open_record};

/// How many rounds there are where no times are printed.
const FEW: u32 = 100;

/// What is called: by so many threads, of a table in so many shards.
#[derive(Clone, Copy)]
struct Setting {
    shards: u32,
    threads: u32,
    /// How many rounds are timed; without it a few are made.
    rounds: Option<u32>,
}

/// The times of a work without locks and with them.
#[derive(Clone, Copy)]
struct Both {
    bare: Timed,
    locked: Timed,
}

static WORKS: [(&str, Work); 2] = [("look", Work::Look), ("track", Work::Track)];

/// Times a work without locks.
fn time_bare<T: Table + Send, R: Threads + Clock + Sync + AllocGlobal>(
    rt: &R,
    setting: Setting,
    work: Work,
) -> io::Result<Timed> {
    let mut runners = bare_callers::<T>(rt.alloc(), setting.shards, setting.threads)?;
    let rounds = setting.rounds.unwrap_or(FEW);
    Ok(measure(rt, runners.as_mut_slice(), work, rounds)?)
}

/// Times a work of the callers of a table.
fn time_seats<
    T: Table + Send,
    J: Naming + Send + Sync,
    R: Threads + Wait + Clock + Sync + AllocGlobal,
>(
    rt: &R,
    table: &Shards<T, J>,
    seats: Vec<SharedSeat<J>>,
    work: Work,
    rounds: u32,
) -> Result<Timed, NoMemory> {
    let mut runners = locked_callers(rt.alloc(), rt, table, seats)?;
    measure(rt, runners.as_mut_slice(), work, rounds)
}

/// Times a work with locks, its calls in a record.
fn locked_recorded<
    J: Naming + Send + Sync,
    T: Table + Send,
    R: Threads + Wait + Clock + Sync + AllocGlobal,
>(rt: &R, setting: Setting, work: Work, opened: Planned) -> io::Result<Timed>
    requires record { IsNamed opened J.record_id J.books J.specs }
{
    let plan = plan_of(setting.shards, setting.threads);
    let (table, seats) = open_alone::<T, J>(rt.alloc(), plan, opened)?;
    Ok(time_seats(rt, &table, seats, work, setting.rounds.unwrap_or(FEW))?)
}

/// Times a work with locks.
fn time_locked<T: Table + Send, R: Threads + Wait + Clock + Sync + AllocGlobal>(
    rt: &R,
    setting: Setting,
    work: Work,
) -> io::Result<Timed> {
    let plan = plan_of(setting.shards, setting.threads);
    let opened = open_record(rt.alloc(), &[plan])?;
    locked_recorded::<Brand, T, R>(rt, setting, work, opened)
}

/// Tenths of a nanosecond for each round.
fn tenths_of(timed: Timed, rounds: u32) -> u128 {
    timed.nanos.saturating_mul(10) / u128::from(rounds.max(1))
}

/// Prints a line of what a work took.
fn print_line<R: Print>(rt: &R, name: &str, setting: Setting, both: Both) -> io::Result<()> {
    let Setting {
        shards,
        threads,
        rounds,
    } = setting;
    let refused = both.bare.refused.saturating_add(both.locked.refused);
    match rounds {
        Some(rounds) => {
            let bare = tenths_of(both.bare, rounds);
            let locked = tenths_of(both.locked, rounds);
            println!(rt;
                "{name} {shards} {threads} {}.{} {}.{} {refused}",
                bare / 10,
                bare % 10,
                locked / 10,
                locked % 10
            )
        }
        None => println!(rt; "{name} {shards} {threads} {refused}"),
    }
}

/// Prints the times of all works of a setting.
fn print_setting<T: Table + Send, R: Threads + Wait + Clock + Sync + Print + AllocGlobal>(
    rt: &R,
    setting: Setting,
) -> io::Result<()> {
    for (name, work) in WORKS.iter() {
        let bare = time_bare::<T, R>(rt, setting, *work)?;
        let locked = time_locked::<T, R>(rt, setting, *work)?;
        print_line(rt, name, setting, Both { bare, locked })?;
    }
    Ok(())
}

/// Prints all times: of 1 and of 8 shards, by 1, 2 and 4 threads.
fn print_all<T: Table + Send, R: Threads + Wait + Clock + Sync + Print + AllocGlobal>(
    rt: &R,
    rounds: Option<u32>,
) -> io::Result<()> {
    match rounds {
        Some(_) => println!(rt; "round shards threads bare-ns locked-ns refused")?,
        None => println!(rt; "round shards threads refused")?,
    }
    for shards in [1, 8] {
        for threads in [1, 2, 4] {
            let setting = Setting {
                shards,
                threads,
                rounds,
            };
            print_setting::<T, R>(rt, setting)?;
        }
    }
    Ok(())
}

/// Prints the times of calls of pooled tables in shards, of so many rounds; or else how many of a few calls are refused.
pub fn print_lock_times<R: Threads + Wait + Clock + Sync + Print + AllocGlobal>(
    rt: &R,
    rounds: Option<u32>,
) -> io::Result<()> {
    print_all::<StickTable, R>(rt, rounds)
}
