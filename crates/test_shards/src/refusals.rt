//! Refusals that no contract tells apart from others: of a table that has counted all events of its life, and of one that has
//! counted less than the seat has seen.

use crate::trials::{Desk, Trial, caller_of, passes};
use shard_locks::Shards;
use shard_record::Naming;
use std::alloc::Global;
use std::sync::Wait;
use std::test::Fail;
use stick_table::{PlainTable, Refusal};
use test_calls::{Asked, Caller, Told};

/// Asks the first shard so often what has expired; answers whether nothing had.
fn expires_none<J: Naming>(
    rt: &impl Wait,
    caller: &mut Caller<'_, PlainTable, J>,
    times: u32,
) -> bool {
    for _ in 0..times {
        if caller.say(rt, 0, Asked::Expire(0)) != Told::Expired(0) {
            return false;
        }
    }
    true
}

/// What another table is heard to say to a seat that has seen more of this one.
fn said_behind<J: Naming>(
    rt: &impl Wait,
    alloc: Global,
    caller: Caller<'_, PlainTable, J>,
    other: &Shards<PlainTable, J>,
) -> Told {
    let (seat, _purse) = caller.into_parts();
    caller_of(alloc, other, seat).say(rt, 0, Asked::Expire(0))
}

/// Whether a table of three events refuses the fourth, and one of two events a seat that has seen three.
pub fn are_refused<J: Naming>(rt: &impl Wait, alloc: Global, own: Desk<J>, other: Desk<J>) -> bool {
    let Desk { table, first, .. } = own;
    let Desk {
        table: beside,
        first: strange,
        ..
    } = other;
    let mut caller = caller_of(alloc, &table, first);
    let mut stranger = caller_of(alloc, &beside, strange);
    expires_none(rt, &mut caller, 3)
        && expires_none(rt, &mut stranger, 2)
        && caller.say(rt, 0, Asked::Expire(0)) == Told::Refused(Refusal::Exhausted)
        && said_behind(rt, alloc, caller, &beside)
            == Told::Refused(Refusal::Behind { count: 2, front: 3 })
}

#[test]
fn refusals_tell_their_cause(rt: HostRuntime) -> Result<(), Fail> {
    assert!(rt; passes(&rt, rt.alloc(), Trial::Refusals));
    Ok(())
}
