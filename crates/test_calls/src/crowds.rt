//! Clients that come to a table in shards at once, each on a thread of its own, and are admitted where a look at their entry
//! shows few references. What is proved of them is the limit, of all threads together.

ghost use Rattle.std.specs.Prelude.{◌≡◌, ◌+◌, ◌<◌, ◌≤◌, ◌^◌, ℕ, true, IfSome};
ghost use Rattle.stick_model.specs.Key.{Key as AKey};
ghost use Rattle.shard_locks.specs.Holding.{HoldsPassed, count_held, held_on};
ghost use Rattle.test_calls.specs.Crowds.{WasWithin, AreAdmitted, IsJudged, IsKnownOut};

use shard_locks::{Shards, SharedRef, SharedSeat, Tracking};
use shard_record::{Naming, Token};
use std::sync::Wait;
use std::thread::{Threads, join};
use stick_key::StickKey;
use stick_table::Table;

/// A client that is to come: its seat, and the key of its source.
#[derive(Drop)]
pub struct Client<J: Naming> {
    pub seat: SharedSeat<J>,
    pub key: StickKey,
}

/// Clients that have come: what those hold who were admitted, as one token, and how many they are.
#[derive(Drop)]
pub struct Crowd<J: Naming> {
    pub held: Token<J>,
    pub admitted: u32,
}

/// The reference that tracking a key is answered, if one comes.
fn track_one<T: Table, J: Naming>(
    rt: &impl Wait,
    table: &Shards<T, J>,
    seat: &mut SharedSeat<J>,
    now: u64,
    key: StickKey,
) -> Option<SharedRef<J>>
    requires moment { now < 2 ^ 62 }
    ensures tracked { IfSome result (IsKnownOut table.now seat.new.known) }
{
    match table.track(rt, seat, now, key) {
        Ok(Tracking::Tracked(reference, _row)) => Some(reference),
        Ok(Tracking::Full | Tracking::NoRefs) => None,
        Err(_) => None,
    }
}

/// Whether a look at the entry of a reference shows at most `limit` references of its key.
fn is_within<T: Table, J: Naming>(
    rt: &impl Wait,
    table: &Shards<T, J>,
    seat: &mut SharedSeat<J>,
    reference: &SharedRef<J>,
    now: u64,
    limit: u32,
) -> bool
    requires moment { now < 2 ^ 62 }
    ensures judged { IsJudged table.now limit now reference.now seat.old.known result seat.new.known }
    ensures there { result ≡ true → reference.now.shard < table.now.shards }
    ensures passed { result ≡ true → IsKnownOut table.now seat.old.known reference.now → WasWithin table.now limit reference.now seat.new.known }
{
    match table.look(rt, seat, reference, now) {
        Ok(row) => row.refs <= limit,
        Err(_) => false,
    }
}

/// Gives a reference back; one whose release is refused stays out.
fn let_go<T: Table, J: Naming>(
    rt: &impl Wait,
    table: &Shards<T, J>,
    seat: &mut SharedSeat<J>,
    reference: SharedRef<J>,
    now: u64,
)
    requires moment { now < 2 ^ 62 }
{
    match table.release(rt, seat, reference, now) {
        Ok(()) => {}
        Err((reference, _)) => reference.abandon(),
    }
}

/// A client that isn't admitted: it holds nothing.
fn turned_away<T: Table, J: Naming>(table: &Shards<T, J>, seat: SharedSeat<J>) -> Crowd<J>
    ensures none { count_held table.now result.held ≡ 0 }
    ensures counted { AreAdmitted table.now result.held result.admitted }
    ensures passed { (limit : ℕ) → HoldsPassed table.now limit result.held }
{
    Crowd {
        held: table.held_none(seat),
        admitted: 0,
    }
}

/// A client that is admitted.
fn let_in<T: Table, J: Naming>(
    rt: &impl Wait,
    table: &Shards<T, J>,
    seat: SharedSeat<J>,
    reference: SharedRef<J>,
    limit: u32,
) -> Crowd<J>
    requires there { reference.shard < table.now.shards }
    requires passed { WasWithin table.now limit reference seat.known }
    ensures one { count_held table.now result.held ≡ 1 }
    ensures counted { AreAdmitted table.now result.held result.admitted }
    ensures passed { HoldsPassed table.now limit result.held }
{
    Crowd {
        held: table.held_one(rt, seat, reference),
        admitted: 1,
    }
}

/// A client comes: its key is tracked and looked at, each call under the shard's lock. It is admitted where the look shows at
/// most `limit` references, and gives its own back where it shows more.
fn admit_one<T: Table, J: Naming>(
    rt: &impl Wait,
    table: &Shards<T, J>,
    client: Client<J>,
    now: u64,
    limit: u32,
) -> Crowd<J>
    requires moment { now < 2 ^ 62 }
    ensures counted { AreAdmitted table.now result.held result.admitted }
    ensures passed { HoldsPassed table.now limit result.held }
{
    let Client { mut seat, key } = client;
    let Some(reference) = track_one(rt, table, &mut seat, now, key) else {
        return turned_away(table, seat);
    };
    if is_within(rt, table, &mut seat, &reference, now, limit) {
        return let_in(rt, table, seat, reference, limit);
    }
    let_go(rt, table, &mut seat, reference, now);
    turned_away(table, seat)
}

/// Two crowds of a table, as one.
fn both<T: Table, J: Naming>(
    table: &Shards<T, J>,
    first: Crowd<J>,
    second: Crowd<J>,
    limit: u32,
) -> Crowd<J>
    requires first { AreAdmitted table.now first.held first.admitted × HoldsPassed table.now limit first.held }
    requires second { AreAdmitted table.now second.held second.admitted × HoldsPassed table.now limit second.held }
    ensures both { count_held table.now result.held ≡ count_held table.now first.held + count_held table.now second.held }
    ensures counted { AreAdmitted table.now result.held result.admitted }
    ensures passed { HoldsPassed table.now limit result.held }
{
    let admitted = first.admitted.saturating_add(second.admitted);
    let Crowd { held, admitted: _ } = first;
    let Crowd {
        held: other,
        admitted: _,
    } = second;
    Crowd {
        held: table.held_both(held, other),
        admitted,
    }
}

/// Clients come at once, each on a thread of its own: each is admitted or not, and those that are stay. However the threads'
/// calls fall between one another, and whatever others call meanwhile, at most `limit` of those that are admitted are of one key.
pub fn admit_all<T: Table + Send, J: Naming + Send + Sync, R: Threads + Wait + Sync>(
    rt: &R,
    table: &Shards<T, J>,
    first: Client<J>,
    mut others: Vec<Client<J>>,
    now: u64,
    limit: u32,
) -> Crowd<J>
    requires moment { now < 2 ^ 62 }
    ensures counted { AreAdmitted table.now result.held result.admitted }
    ensures passed { HoldsPassed table.now limit result.held }
    ensures limit { (shard : ℕ) → shard < table.now.shards → (key : AKey) → held_on table.now shard key result.held ≤ limit }
{
    let Some(next) = others.pop() else {
        return admit_one(rt, table, first, now, limit);
    };
    let (one, more) = join(
        rt,
        move || -> Crowd<J>
            requires { now < 2 ^ 62 }
            ensures { AreAdmitted table.entry.now result.held result.admitted × HoldsPassed table.entry.now limit result.held }
        { admit_one(rt, table, first, now, limit) },
        move || -> Crowd<J>
            requires { now < 2 ^ 62 }
            ensures { AreAdmitted table.entry.now result.held result.admitted × HoldsPassed table.entry.now limit result.held }
        { admit_all(rt, table, next, others, now, limit) },
    );
    both(table, one, more, limit)
}
