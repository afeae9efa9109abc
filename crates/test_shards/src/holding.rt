//! A shard that is held, and calls beside it.

use crate::trials::{Desk, Trial, caller_of, passes};
use shard_locks::Shards;
use shard_record::Naming;
use std::alloc::{AllocError, Global};
use std::rt::Clock;
use std::sync::Wait;
use std::sync::atomic::{AtomicBool, Ordering};
use std::test::Fail;
use std::thread;
use std::thread::Threads;
use std::time::Duration;
use stick_table::PlainTable;
use test_calls::{Asked, Caller, Told};

/// A shard that is called while one is held, for how many ms that is held at most, and whether the call is answered meanwhile.
#[derive(Clone, Copy)]
pub struct Waiting {
    held: u32,
    called: u32,
    ms: u32,
    is_answered: bool,
}

/// What one thread tells the other.
#[derive(Drop)]
struct Flags {
    /// The shard is held.
    held: AtomicBool,
    /// The call was answered.
    answered: AtomicBool,
    /// The holder saw that, and held the shard still.
    seen: AtomicBool,
}

/// Waits until a flag is set, so many ms at most; answers whether it is set.
fn is_set<R: Clock>(rt: &R, flag: &AtomicBool, ms: u32) -> bool {
    for _ in 0..ms {
        if flag.load(Ordering::SeqCst) {
            return true;
        }
        thread::sleep(rt, Duration::from_millis(1));
    }
    flag.load(Ordering::SeqCst)
}

/// Holds a shard until the call was answered, or its time is over.
fn hold<J: Naming, R: Wait + Clock>(
    rt: &R,
    table: &Shards<PlainTable, J>,
    flags: &Flags,
    waiting: Waiting,
) {
    let shard = waiting.held % table.shards();
    table.hold(rt, shard, || {
        flags.held.store(true, Ordering::SeqCst);
        let is_seen = is_set(rt, &flags.answered, waiting.ms);
        flags.seen.store(is_seen, Ordering::SeqCst);
    });
}

/// Calls a shard once the other is held.
fn call<J: Naming, R: Wait + Clock>(
    rt: &R,
    caller: &mut Caller<'_, PlainTable, J>,
    shard: u32,
    flags: &Flags,
) {
    if is_set(rt, &flags.held, 10_000)
        && caller.say(rt, shard, Asked::Expire(0)) == Told::Expired(0)
    {
        flags.answered.store(true, Ordering::SeqCst);
    }
}

/// Holds a shard in another thread, and calls one.
fn hold_and_call<J: Naming + Send + Sync, R: Threads + Wait + Clock + Sync>(
    rt: &R,
    table: &Shards<PlainTable, J>,
    caller: &mut Caller<'_, PlainTable, J>,
    waiting: Waiting,
    flags: &Flags,
) -> Result<(), AllocError> {
    thread::scope(thread::scope_env(), rt, |scope| -> Result<(), AllocError> {
        let holder = scope.spawn(move || hold(rt, table, flags, waiting))?;
        call(rt, caller, waiting.called, flags);
        holder.join(rt);
        Ok(())
    })
}

/// Whether a shard was held, and a call was answered, while it was held or not, as is said.
pub fn waits_as<J: Naming + Send + Sync, R: Threads + Wait + Clock + Sync>(
    rt: &R,
    alloc: Global,
    desk: Desk<J>,
    waiting: Waiting,
) -> bool {
    let Desk { table, first, .. } = desk;
    let mut caller = caller_of(alloc, &table, first);
    let flags = Flags {
        held: AtomicBool::new(false),
        answered: AtomicBool::new(false),
        seen: AtomicBool::new(false),
    };
    hold_and_call(rt, &table, &mut caller, waiting, &flags).is_ok()
        && flags.held.load(Ordering::SeqCst)
        && flags.answered.load(Ordering::SeqCst)
        && flags.seen.load(Ordering::SeqCst) == waiting.is_answered
}

#[test]
fn a_call_waits_for_the_lock_of_its_own_shard_alone(rt: HostRuntime) -> Result<(), Fail> {
    let other = Waiting {
        held: 0,
        called: 1,
        ms: 10_000,
        is_answered: true,
    };
    let same = Waiting {
        held: 0,
        called: 0,
        ms: 300,
        is_answered: false,
    };
    assert!(rt; passes(&rt, rt.alloc(), Trial::Holding(other)));
    assert!(rt; passes(&rt, rt.alloc(), Trial::Holding(same)));
    Ok(())
}
