//! Times the events of a table that is full, the parts of the pooled table, the reading and the printing of keys, and calls
//! of tables that threads share. Or it has many threads call such tables, and settles them; has crowds come to a limit; or makes
//! each call once, so that its allocations can be refused. It is run by hand, with what is done, how many entries a table has,
//! and how many rounds there are. Without arguments it does a little of all but the first, and prints no times.
#![tactic(auto)]

mod converting;
mod crowd;
mod full_index;
mod full_order;
mod full_pool;
mod full_table;
mod keys;
mod locks;
mod parts;
mod random;
mod refusals;
mod stress;
mod tables;

use crowd::run_crowds;
use keys::print_key_times;
use locks::print_lock_times;
use parts::print_part_times;
use refusals::run_refusals;
use std::process::ExitCode;
use std::rt::Clock;
use std::sync::Wait;
use std::thread::Threads;
use std::{env, io};
use stick_pooled::StickTable;
use stick_table::PlainTable;
use stress::{Series, rounds_of, run_few, run_rounds};
use tables::print_table_times;

/// How many crowds come without arguments.
const FEW_CROWDS: u32 = 200;

/// What is done.
#[derive(Clone, Copy)]
enum Work {
    /// A few calls of tables that threads share, crowds, and what is done with memory refused.
    Few,
    Plain,
    Pooled,
    Parts,
    Keys,
    Locks,
    Crowds,
    /// What the words behind it ask, where they can be read.
    Stress(Option<Series>),
    Refusals,
}

/// What the first word of the command line asks for.
fn work_of(word: &str) -> Option<Work> {
    match word {
        "plain" => Some(Work::Plain),
        "pooled" => Some(Work::Pooled),
        "parts" => Some(Work::Parts),
        "keys" => Some(Work::Keys),
        "locks" => Some(Work::Locks),
        "crowds" => Some(Work::Crowds),
        "stress" => Some(Work::Stress(None)),
        "refusals" => Some(Work::Refusals),
        _ => None,
    }
}

/// What the command line asks for.
fn asked_for(rt: &HostRuntime) -> io::Result<Option<Work>> {
    Ok(match env::args(rt)?.nth(1) {
        Some(word) => work_of(word.as_str()),
        None => Some(Work::Few),
    })
}

/// The numbers behind the first word.
type Numbers = [Option<u32>; 3];

/// The number that a word of the command line is.
fn number_of(rt: &HostRuntime, place: usize) -> io::Result<Option<u32>> {
    Ok(match env::args(rt)?.nth(place) {
        Some(word) => word.as_str().parse::<u32>().ok(),
        None => None,
    })
}

/// Says how the program is called; answers that nothing was done.
fn print_usage<R: Eprint>(rt: &R) -> io::Result<bool> {
    eprintln!(rt;
        "usage: bench_table plain|pooled SIZE COUNT [PURGE], or parts|keys COUNT, or locks|crowds ROUNDS, or stress [--pooled] [--rolling ROLLS] CALLS [ROUNDS], or refusals"
    )?;
    Ok(false)
}

/// Times the events of a table, of a plain or a pooled one. A full table removes one entry at once where the last number doesn't
/// say how many, 1 to 1,024.
fn time_tables<R: Clock + Print + Eprint + AllocGlobal>(
    rt: &R,
    pooled: bool,
    size: u32,
    numbers: Numbers,
) -> io::Result<bool> {
    let purge = numbers[2].unwrap_or(1);
    let Some(count) = numbers[1] else {
        return print_usage(rt);
    };
    if size == 0 || size > 1 << 30 || purge == 0 || purge > 1024 {
        return print_usage(rt);
    }
    if pooled {
        print_table_times::<StickTable, R>(rt, rt.alloc(), size, count, purge)?;
    } else {
        print_table_times::<PlainTable, R>(rt, rt.alloc(), size, count, purge)?;
    }
    Ok(true)
}

/// Does a work, so many times; answers whether all went well.
fn run_counted<R: Threads + Wait + Clock + Sync + Print + Eprint + AllocGlobal>(
    rt: &R,
    work: Work,
    count: u32,
    numbers: Numbers,
) -> io::Result<bool> {
    match work {
        Work::Crowds => return run_crowds(rt, count),
        Work::Plain => return time_tables(rt, false, count, numbers),
        Work::Pooled => return time_tables(rt, true, count, numbers),
        Work::Parts => print_part_times(rt, rt.alloc(), count)?,
        Work::Keys => print_key_times(rt, rt.alloc(), count)?,
        _ => print_lock_times(rt, Some(count))?,
    }
    Ok(true)
}

/// A little of all that isn't timed; answers whether all went well.
fn run_all_few<R: Threads + Wait + Clock + Sync + Print + Eprint + AllocGlobal>(
    rt: &R,
) -> io::Result<bool> {
    print_lock_times(rt, None)?;
    Ok(run_crowds(rt, FEW_CROWDS)? && run_few(rt)? && run_refusals(rt)?)
}

/// Does a work; answers whether all went well.
fn run<R: Threads + Wait + Clock + Sync + Print + Eprint + AllocGlobal>(
    rt: &R,
    work: Work,
    numbers: Numbers,
) -> io::Result<bool> {
    match (work, numbers[0]) {
        (Work::Few, _) => run_all_few(rt),
        (Work::Stress(Some(rounds)), _) => run_rounds(rt, rounds),
        (Work::Stress(None), _) => print_usage(rt),
        (Work::Refusals, _) => run_refusals(rt),
        (_, Some(count)) => run_counted(rt, work, count, numbers),
        (_, None) => print_usage(rt),
    }
}

fn main(rt: HostRuntime) -> io::Result<ExitCode> {
    let numbers = [number_of(&rt, 2)?, number_of(&rt, 3)?, number_of(&rt, 4)?];
    let is_done = match asked_for(&rt)? {
        Some(Work::Stress(_)) => run(&rt, Work::Stress(rounds_of(&rt)?), numbers)?,
        Some(work) => run(&rt, work, numbers)?,
        None => print_usage(&rt)?,
    };
    Ok(if is_done {
        ExitCode::SUCCESS
    } else {
        ExitCode::FAILURE
    })
}
