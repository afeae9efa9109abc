//! Callers are run side by side, and timed.

use crate::locks::calls::{Calls, KEYS};
use base_sequence::NoMemory;
use std::rt::Clock;
use std::thread;
use std::thread::Threads;
use std::time::{Duration, Instant};

/// How often a time is taken: the least of them counts.
const REPEATS: u32 = 5;

/// What is timed.
#[derive(Clone, Copy)]
pub enum Work {
    /// A look at a reference.
    Look,
    /// A track of a key whose entry is there, and the release of the reference.
    Track,
}

/// A time in ns, and how many calls were refused.
#[derive(Clone, Copy)]
pub struct Timed {
    pub nanos: u128,
    pub refused: u64,
}

/// No time, and no call that was refused.
const NOTHING: Timed = Timed {
    nanos: 0,
    refused: 0,
};

/// A caller, and what its last run took.
#[derive(Drop)]
pub struct Runner<C: Calls> {
    caller: C,
    timed: Timed,
}

/// So many looks at references in turn; answers how many were refused.
fn look_often<C: Calls>(caller: &mut C, count: u32) -> u64 {
    let mut refused = 0u64;
    for number in 0..count {
        if !caller.look(number % KEYS) {
            refused = refused.saturating_add(1);
        }
    }
    refused
}

/// So many tracks of keys in turn, each reference given back at once; answers how many of both were refused.
fn pass_often<C: Calls>(caller: &mut C, count: u32) -> u64 {
    let mut refused = 0u64;
    for number in 0..count {
        if !caller.pass(number % KEYS) {
            refused = refused.saturating_add(1);
        }
    }
    refused
}

/// Has a caller hold a reference to each of its keys; answers how many it doesn't hold.
fn hold_all<C: Calls>(caller: &mut C) -> u64 {
    let mut refused = 0u64;
    for place in 0..KEYS {
        if !caller.hold(place) {
            refused = refused.saturating_add(1);
        }
    }
    refused
}

impl<C: Calls> Runner<C> {
    /// A caller that holds a reference to each of its keys, as far as none is refused.
    pub fn new(mut caller: C) -> Runner<C> {
        let refused = hold_all(&mut caller);
        Runner {
            caller,
            timed: Timed { nanos: 0, refused },
        }
    }

    /// So many rounds of a work; answers how many calls were refused.
    fn work(&mut self, work: Work, count: u32) -> u64 {
        match work {
            Work::Look => look_often(&mut self.caller, count),
            Work::Track => pass_often(&mut self.caller, count),
        }
    }

    /// The same, timed. Without a clock it took for ever.
    fn run<R: Clock>(&mut self, rt: &R, work: Work, count: u32) {
        let start = Instant::now(rt);
        let refused = self.work(work, count);
        let nanos = match start {
            Ok(start) => nanos_since(rt, start),
            Err(_) => u128::MAX,
        };
        self.timed = Timed { nanos, refused };
    }
}

/// The ns since a moment.
fn nanos_since<R: Clock>(rt: &R, start: Instant) -> u128 {
    match start.elapsed(rt) {
        Ok(time) => {
            let time: Duration = time;
            time.as_nanos()
        }
        Err(_) => u128::MAX,
    }
}

/// What two runs side by side took.
fn beside(one: Timed, other: Timed) -> Timed {
    Timed {
        nanos: one.nanos.max(other.nanos),
        refused: one.refused.saturating_add(other.refused),
    }
}

/// The longest time of some runs side by side, and all that were refused.
fn longest<C: Calls>(runners: &[Runner<C>]) -> Timed {
    let mut longest = NOTHING;
    for runner in runners {
        longest = beside(longest, runner.timed);
    }
    longest
}

/// Begins all records again: they don't grow from one run to the next.
fn begin_all_again<C: Calls>(runners: &mut [Runner<C>]) -> Result<(), NoMemory> {
    for runner in runners.iter_mut() {
        runner.caller.begin_again()?;
    }
    Ok(())
}

/// Has callers do a work side by side, so many rounds each, five times. Answers the least time, of the caller that took
/// longest each time, and how many calls were refused in all.
pub fn measure<C: Calls + Send, R: Threads + Clock + Sync>(
    rt: &R,
    runners: &mut [Runner<C>],
    work: Work,
    count: u32,
) -> Result<Timed, NoMemory> {
    let threads = runners.len();
    let mut least = u128::MAX;
    let mut refused = 0u64;
    for _ in 0..REPEATS {
        thread::for_each_mut(
            rt,
            runners,
            threads.max(1),
            &|_, runner| { runner.run(rt, work, count) },
        );
        let timed = longest(runners);
        least = least.min(timed.nanos);
        refused = refused.saturating_add(timed.refused);
        begin_all_again(runners)?;
    }
    Ok(Timed {
        nanos: least,
        refused,
    })
}
