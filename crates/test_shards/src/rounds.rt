//! Rounds of housekeeping: an entry goes at its moment and not before, and records begin again.

ghost use Rattle.std.specs.Prelude.{◌<◌, ◌^◌};

use crate::trials::{Desk, Sums, Trial, caller_of, holds, passes};
use base_clock::StoppedClock;
use shard_housekeeping::{Kept, Pace, housekeep, roll_long};
use shard_locks::{Shards, SharedSeat};
use shard_record::Naming;
use std::alloc::Global;
use std::slice;
use std::sync::Wait;
use std::sync::atomic::{AtomicU64, Ordering};
use std::test::Fail;
use stick_table::PlainTable;
use test_calls::{Asked, Told};

/// A pace of so many rounds.
#[derive(Drop)]
struct Rounds {
    left: AtomicU64,
}

impl Pace for Rounds {
    fn next(&self) -> bool {
        let left = self.left.load(Ordering::SeqCst);
        self.left.store(left.saturating_sub(1), Ordering::SeqCst);
        left > 0
    }
}

/// What so many rounds at a moment count: rounds, records that began again, refusals, and entries that expired; and the seat as it
/// comes back.
fn keep<J: Naming>(
    rt: &impl Wait,
    alloc: Global,
    table: &Shards<PlainTable, J>,
    seat: SharedSeat<J>,
    rounds: u64,
    moment: u64,
) -> Option<([u64; 4], SharedSeat<J>)>
    requires { moment < 2 ^ 62 }
{
    let pace = Rounds {
        left: AtomicU64::new(rounds),
    };
    let mut seats = Vec::new(alloc);
    seats.push(seat).ok()?;
    let mut clock = StoppedClock::at(moment);
    let Kept {
        rounds,
        rolled,
        refused,
        expired,
        mut seats,
    } = housekeep(rt, slice::from_ref(table), seats, &mut clock, &pace, 1);
    let seat = seats.pop()?;
    Some(([rounds, rolled, refused, expired], seat))
}

/// What a table lists of its first shard: how many entries.
fn listed<J: Naming>(
    rt: &impl Wait,
    alloc: Global,
    table: &Shards<PlainTable, J>,
    seat: SharedSeat<J>,
) -> (Told, SharedSeat<J>) {
    let mut caller = caller_of(alloc, table, seat);
    let told = caller.say(rt, 0, Asked::List(0));
    let (seat, _purse) = caller.into_parts();
    (told, seat)
}

/// Puts the key of 5, which lives for 500 ms; answers the seat, where it was put.
fn put<J: Naming>(
    rt: &impl Wait,
    alloc: Global,
    table: &Shards<PlainTable, J>,
    seat: SharedSeat<J>,
) -> Option<SharedSeat<J>> {
    let mut caller = caller_of(alloc, table, seat);
    if caller.say(rt, 0, Asked::Put(5)) != Told::Written(true) {
        return None;
    }
    let (seat, _purse) = caller.into_parts();
    Some(seat)
}

/// What is counted of three rounds at 499 ms and one at 500, and how many entries there were after each, where one lives for 500.
fn kept<J: Naming>(
    rt: &impl Wait,
    alloc: Global,
    table: &Shards<PlainTable, J>,
    seats: (SharedSeat<J>, SharedSeat<J>),
) -> Option<([u64; 4], Told, [u64; 4], Told)> {
    let (seat, keeping) = seats;
    let seat = put(rt, alloc, table, seat)?;
    let (before, keeping) = keep(rt, alloc, table, keeping, 3, 499)?;
    let (there, seat) = listed(rt, alloc, table, seat);
    let (after, _keeping) = keep(rt, alloc, table, keeping, 1, 500)?;
    let (gone, _seat) = listed(rt, alloc, table, seat);
    Some((before, there, after, gone))
}

/// Whether that is so of two shards, both of whose records begin again in each round; and that of the shard which was called since
/// does so once between rounds.
pub fn keeps_house<J: Naming>(rt: &impl Wait, alloc: Global, desk: Desk<J>) -> bool {
    let Desk {
        table,
        first,
        second,
    } = desk;
    let kept = kept(rt, alloc, &table, (first, second));
    let rolled = roll_long(rt, slice::from_ref(&table), 1);
    let called = Sums {
        size: 6,
        events: 7,
        base: 7,
        calls: 0,
    };
    let idle = Sums {
        size: 6,
        events: 4,
        base: 4,
        calls: 0,
    };
    kept == Some(([3, 6, 0, 0], Told::Listed(1), [1, 2, 0, 1], Told::Listed(0)))
        && rolled.rolled == 1
        && holds(alloc, table, [called, idle])
}

#[test]
fn house_is_kept_in_rounds(rt: HostRuntime) -> Result<(), Fail> {
    assert!(rt; passes(&rt, rt.alloc(), Trial::Rounds));
    Ok(())
}
