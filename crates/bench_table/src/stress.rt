//! A stress test of tables in shards that threads share: each thread has a caller, which asks events of every kind, of random
//! keys at random moments, and lists all shards at times. Then the references come back but for a few, and the table is
//! settled: with receipts, or, without, while another thread rolls the records. The tables are plain or pooled ones.

mod calling;
mod rounds;

use rounds::{Plan, run_planned};
use std::rt::Clock;
use std::sync::Wait;
use std::thread::Threads;
use std::{env, io};

/// So many rounds of a plan, each with other numbers.
#[derive(Clone, Copy)]
pub struct Series {
    plan: Plan,
    rounds: u32,
}

/// The number that a word is, where there is such a word.
fn number_at(words: &[String], place: usize) -> Option<u32> {
    words.get(place)?.as_str().parse::<u32>().ok()
}

/// Whether the word of a place is this one.
fn is_at(words: &[String], place: usize, flag: &str) -> bool {
    match words.get(place) {
        Some(word) => word.as_str() == flag,
        None => false,
    }
}

/// What the words from this place on ask, CALLS [ROUNDS].
fn read_calls(words: &[String], place: usize, pooled: bool, rolls: Option<u32>) -> Option<Series> {
    let calls = number_at(words, place)?;
    let rounds = match words.len().saturating_sub(place) {
        1 => 1,
        2 => number_at(words, place.saturating_add(1))?,
        _ => return None,
    };
    let plan = Plan {
        pooled,
        threads: 64,
        shards: 8,
        calls,
        rolls,
    };
    Some(Series { plan, rounds })
}

/// What the words of a command line ask, the program's name and `stress` first.
fn read_rounds(words: &[String]) -> Option<Series> {
    let pooled = is_at(words, 2, "--pooled");
    let place = 2usize.saturating_add(usize::from(pooled));
    if !is_at(words, place, "--rolling") {
        return read_calls(words, place, pooled, None);
    }
    let rolls = number_at(words, place.saturating_add(1))?;
    read_calls(words, place.saturating_add(2), pooled, Some(rolls))
}

/// Runs a round, and says how it ended; answers whether the table was settled.
fn print_round<R: Threads + Wait + Clock + Sync + Print + Eprint + AllocGlobal>(
    rt: &R,
    plan: Plan,
    seed: u32,
) -> io::Result<bool> {
    match run_planned(rt, rt.alloc(), plan, seed) {
        Ok(ended) => {
            println!(rt; "{ended}")?;
            Ok(true)
        }
        Err(trouble) => {
            eprintln!(rt; "bench_table: {trouble}")?;
            Ok(false)
        }
    }
}

/// Runs rounds of a few calls by 4 threads in 2 shards, of both kinds of table, with receipts and with rolls; answers whether each
/// was settled.
pub fn run_few<R: Threads + Wait + Clock + Sync + Print + Eprint + AllocGlobal>(
    rt: &R,
) -> io::Result<bool> {
    for pooled in [false, true] {
        for rolls in [None, Some(20)] {
            let plan = Plan {
                pooled,
                threads: 4,
                shards: 2,
                calls: 250,
                rolls,
            };
            if !print_round(rt, plan, 0)? {
                return Ok(false);
            }
        }
    }
    Ok(true)
}

/// Runs rounds until one isn't settled; answers whether each was.
pub fn run_rounds<R: Threads + Wait + Clock + Sync + Print + Eprint + AllocGlobal>(
    rt: &R,
    asked: Series,
) -> io::Result<bool> {
    for seed in 0..asked.rounds {
        if !print_round(rt, asked.plan, seed)? {
            return Ok(false);
        }
    }
    Ok(true)
}

/// What the command line asks, where it can be read.
pub fn rounds_of(rt: &HostRuntime) -> io::Result<Option<Series>> {
    let words: Vec<String> = env::args(rt)?.collect(rt.alloc())?;
    Ok(read_rounds(words.as_slice()))
}
