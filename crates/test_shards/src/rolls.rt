//! A shard whose record begins again, and an entry and a reference that outlast it.

use crate::trials::{Desk, Sums, Trial, caller_of, holds, passes};
use shard_locks::Shards;
use shard_record::Naming;
use std::alloc::Global;
use std::sync::Wait;
use std::test::Fail;
use stick_table::PlainTable;
use test_calls::{Asked, Caller, Told};

/// What is asked of the key of 5, which lies on the first of two shards, before its record begins again.
const BEFORE: [(Asked, Told); 2] = [
    (Asked::Put(5), Told::Written(true)),
    (Asked::Track(5, 0), Told::Row(1, 500, 3)),
];

/// What is asked then.
const AFTER: [(Asked, Told); 5] = [
    (Asked::Look(10), Told::Row(1, 490, 3)),
    (Asked::Count(20), Told::Value(Some(4))),
    (Asked::Release(0, 30), Told::Released),
    (Asked::Get(5, 40), Told::Row(0, 490, 4)),
    (Asked::Clear(5, 50), Told::Removed),
];

/// Whether a caller is told that, one after another.
fn is_told<J: Naming>(
    rt: &impl Wait,
    caller: &mut Caller<'_, PlainTable, J>,
    wanted: &[(Asked, Told)],
) -> bool {
    for (asked, told) in wanted {
        if caller.say(rt, 0, *asked) != *told {
            return false;
        }
    }
    true
}

/// Whether the first shard's record begins again where it has two calls, and not where it has less than is wanted.
fn rolls<J: Naming>(rt: &impl Wait, table: &Shards<PlainTable, J>) -> bool {
    let place = table.shards() - 1;
    let answers = [
        table.roll(rt, 0, 3).ok(),
        table.roll(rt, 0, 2).ok(),
        table.roll(rt, 0, 1).ok(),
        table.roll(rt, place, 1).ok(),
    ];
    answers == [Some(false), Some(true), Some(false), Some(false)]
}

/// Whether a caller is told what is wanted before and after the record of its shard begins again.
fn is_told_over_roll<J: Naming>(
    rt: &impl Wait,
    table: &Shards<PlainTable, J>,
    mut caller: Caller<'_, PlainTable, J>,
) -> bool {
    is_told(rt, &mut caller, &BEFORE) && rolls(rt, table) && is_told(rt, &mut caller, &AFTER)
}

/// Whether that is so, and the books of the shards hold their part of the places, and what was called: the base is that of the
/// one roll.
pub fn is_rolled<J: Naming>(rt: &impl Wait, alloc: Global, desk: Desk<J>) -> bool {
    let Desk { table, first, .. } = desk;
    let caller = caller_of(alloc, &table, first);
    let is_told = is_told_over_roll(rt, &table, caller);
    let called = Sums {
        size: 6,
        events: 7,
        base: 2,
        calls: 5,
    };
    let idle = Sums {
        size: 6,
        events: 0,
        base: 0,
        calls: 0,
    };
    is_told && holds(alloc, table, [called, idle])
}

#[test]
fn a_record_begins_again_where_it_is_rolled_alone(rt: HostRuntime) -> Result<(), Fail> {
    assert!(rt; passes(&rt, rt.alloc(), Trial::Rolls));
    Ok(())
}
