//! An event, asked of a table in shards.

ghost use Rattle.std.specs.Prelude.{◌<◌, ◌^◌};
ghost use Rattle.stored_data.specs.Laws.{HasTag};
ghost use Rattle.stick_model.specs.Limits.{IsTableEvent};
ghost use Rattle.shard_book.specs.Keeping.{MayAsk};

use crate::purse::{Held, Purse};
use shard_locks::{Shards, SharedSeat, Tracking};
use shard_record::Naming;
use std::sync::Wait;
use stick_key::{StickKey, shard_of};
use stick_table::{Event, Refusal, Reply, Table, Ticket};
use stored_data::Act;

/// Tracks a key, once the purse has memory for its reference.
fn track<T: Table, J: Naming>(
    rt: &impl Wait,
    table: &Shards<T, J>,
    seat: &mut SharedSeat<J>,
    purse: &mut Purse<J>,
    now: u64,
    key: StickKey,
) -> Result<Reply, Refusal>
    requires { now < 2 ^ 62 }
{
    purse.reserve()?;
    match table.track(rt, seat, now, key)? {
        Tracking::Tracked(reference, row) => {
            let ticket = reference.ticket();
            purse.put(reference);
            Ok(Reply::Tracked { ticket, row })
        }
        Tracking::Full => Ok(Reply::Full),
        Tracking::NoRefs => Ok(Reply::NoRefs),
    }
}

/// Looks at a reference of the purse. One that isn't there is stale.
fn look<T: Table, J: Naming>(
    rt: &impl Wait,
    table: &Shards<T, J>,
    seat: &mut SharedSeat<J>,
    purse: &Purse<J>,
    now: u64,
    held: Held,
) -> Result<Reply, Refusal>
    requires { now < 2 ^ 62 }
{
    match purse.find(held) {
        Some(reference) => Ok(Reply::Row(table.look(rt, seat, reference, now)?)),
        None => Err(Refusal::Stale),
    }
}

/// Does an act on the data of a reference of the purse.
fn count<T: Table, J: Naming>(
    rt: &impl Wait,
    table: &Shards<T, J>,
    seat: &mut SharedSeat<J>,
    purse: &Purse<J>,
    now: u64,
    held: Held,
    act: Act,
) -> Result<Reply, Refusal>
    requires moment { now < 2 ^ 62 }
    requires tag { HasTag act }
{
    match purse.find(held) {
        Some(reference) => Ok(Reply::Value(table.count(rt, seat, reference, now, act)?)),
        None => Err(Refusal::Stale),
    }
}

/// Gives a reference of the purse back. Where that is refused it stays there.
fn release<T: Table, J: Naming>(
    rt: &impl Wait,
    table: &Shards<T, J>,
    seat: &mut SharedSeat<J>,
    purse: &mut Purse<J>,
    now: u64,
    held: Held,
) -> Result<Reply, Refusal>
    requires { now < 2 ^ 62 }
{
    let Some(reference) = purse.take(held) else {
        return Err(Refusal::Stale);
    };
    match table.release(rt, seat, reference, now) {
        Ok(()) => Ok(Reply::Released),
        Err((reference, refusal)) => {
            purse.put(reference);
            Err(refusal)
        }
    }
}

/// Has a shard answer an event that is no matter of a reference.
fn call<T: Table, J: Naming>(
    rt: &impl Wait,
    table: &Shards<T, J>,
    seat: &mut SharedSeat<J>,
    shard: u32,
    event: Event,
) -> Result<Reply, Refusal>
    requires shard { shard < table.now.shards }
    requires event { IsTableEvent event }
    requires asked { MayAsk table.now.shards shard event }
{
    table.call(rt, seat, shard, event)
}

/// Has a table in shards answer an event for a seat, by the call that is for its kind: the shard of its key, or else this
/// one. A reference goes in and comes out as its ticket: the purse has it.
pub fn ask<T: Table, J: Naming>(
    rt: &impl Wait,
    table: &Shards<T, J>,
    seat: &mut SharedSeat<J>,
    purse: &mut Purse<J>,
    shard: u32,
    event: Event,
) -> Result<Reply, Refusal>
    requires shard { shard < table.now.shards }
    requires event { IsTableEvent event }
{
    match event {
        Event::Track(now, key) => track(rt, table, seat, purse, now, key),
        Event::Look(now, ticket) => look(rt, table, seat, purse, now, Held { shard, ticket }),
        Event::Count(now, ticket, act) => {
            count(rt, table, seat, purse, now, Held { shard, ticket }, act)
        }
        Event::Release(now, ticket) => release(rt, table, seat, purse, now, Held { shard, ticket }),
        Event::Get(now, key) => {
            let place = shard_of(&key, table.shards());
            call(rt, table, seat, place, Event::Get(now, key))
        }
        Event::Put(now, key, pairs) => {
            let place = shard_of(&key, table.shards());
            call(rt, table, seat, place, Event::Put(now, key, pairs))
        }
        Event::Clear(now, key) => {
            let place = shard_of(&key, table.shards());
            call(rt, table, seat, place, Event::Clear(now, key))
        }
        Event::ClearWhere(now, filter) => {
            call(rt, table, seat, shard, Event::ClearWhere(now, filter))
        }
        Event::List(now, filter) => call(rt, table, seat, shard, Event::List(now, filter)),
        Event::Expire(now) => call(rt, table, seat, shard, Event::Expire(now)),
    }
}

/// The ticket that a reply tells.
pub fn ticket_of(reply: &Reply) -> Option<Ticket> {
    match reply {
        Reply::Tracked { ticket, .. } => Some(*ticket),
        _ => None,
    }
}
