//! Rounds of housekeeping over each shard of each table; `tcp_proxy` calls `housekeep` on a thread of its own.

ghost use Rattle.std.specs.Prelude.{◌≡◌, ◌<◌, ◌^◌, length, true};
ghost use Rattle.stick_model.specs.declared.replies.Reply.TheVariants.{Expired};
ghost use Rattle.shard_locks.specs.ShardsState.{book_of};
ghost use Rattle.shard_housekeeping.specs.Keeping.{Expires, KeepsRound, KeepsRounds, KeepsShard, KeepsTable, Rolls, RollsEach, RollsTable, is_of_expire};

use crate::counts::Counts;
use crate::lengths::greatest_length;
use crate::{Kept, Pace};
use base_clock::Clock;
use shard_locks::{Shards, SharedSeat};
use shard_record::Naming;
use std::sync::Wait;
use stick_table::{Event, Reply, Table};

/// How many entries a reply to an expiry tells to be gone.
fn expired_count(reply: &Reply) -> u64
    requires { is_of_expire reply.now ≡ true }
    ensures { Expired result ≡ reply.now }
{
    match reply {
        Reply::Expired(count) => *count,
        _ => unreachable!(),
    }
}

/// Has a shard expire the entries whose time has come, which is one call of the seat, and counts them. A refusal is counted, and
/// changes nothing.
#[tactic(auto, using(crate::proofs::ExpiringLemmas::told_count))]
fn expire<T: Table, J: Naming>(
    rt: &impl Wait,
    table: &Shards<T, J>,
    seat: &mut SharedSeat<J>,
    shard: u32,
    now: u64,
    counts: &mut Counts,
)
    requires shard { shard < table.now.shards }
    requires moment { now < 2 ^ 62 }
    ensures { Expires (book_of table.now shard) shard now seat.old counts.old seat.new counts.new }
{
    match table.call(rt, seat, shard, Event::Expire(now)) {
        Ok(reply) => counts.add_expired(expired_count(&reply)),
        Err(_refusal) => counts.refuse(),
    }
}

/// Has a shard's record begin again where it is long, and counts it. A refusal is counted, and changes nothing.
fn roll<T: Table, J: Naming>(
    rt: &impl Wait,
    table: &Shards<T, J>,
    shard: u32,
    roll_at: u64,
    counts: &mut Counts,
)
    requires shard { shard < table.now.shards }
    ensures { Rolls table.now.keep counts.old counts.new }
{
    let least = greatest_length(table.spec(shard), roll_at);
    counts.note_roll(table.roll(rt, shard, least));
}

/// Has a shard expire what is over at the clock's moment, and then begin its record again where it is long.
fn keep_shard<T: Table, J: Naming, C: Clock>(
    rt: &impl Wait,
    table: &Shards<T, J>,
    seat: &mut SharedSeat<J>,
    shard: u32,
    clock: &mut C,
    roll_at: u64,
    counts: &mut Counts,
)
    requires shard { shard < table.now.shards }
    ensures { KeepsShard C.shows table.now shard (record { seat = seat.old; clock = C.state clock.old; counts = counts.old }) (record { seat = seat.new; clock = C.state clock.new; counts = counts.new }) }
{
    let now = clock.now();
    expire(rt, table, seat, shard, now, counts);
    roll(rt, table, shard, roll_at, counts);
}

/// Does so in each shard of a table, in their order.
fn keep_table<T: Table, J: Naming, C: Clock>(
    rt: &impl Wait,
    table: &Shards<T, J>,
    seat: &mut SharedSeat<J>,
    clock: &mut C,
    roll_at: u64,
    counts: &mut Counts,
)
    ensures { KeepsTable C.shows table.now (record { seat = seat.old; clock = C.state clock.old; counts = counts.old }) (record { seat = seat.new; clock = C.state clock.new; counts = counts.new }) }
{
    for shard in 0..table.shards() {
        keep_shard(rt, table, seat, shard, clock, roll_at, counts);
    }
}

/// One round: does so in each table, in their order, by the table's seat.
fn keep_round<T: Table, J: Naming, C: Clock>(
    rt: &impl Wait,
    tables: &[Shards<T, J>],
    seats: &mut Vec<SharedSeat<J>>,
    clock: &mut C,
    roll_at: u64,
    counts: &mut Counts,
)
    requires { length tables.now ≡ length seats.old.items }
    ensures seats { length seats.new.items ≡ length seats.old.items }
    ensures kept { KeepsRound C.shows tables.now (record { seats = seats.old.items; clock = C.state clock.old; counts = counts.old }) (record { seats = seats.new.items; clock = C.state clock.new; counts = counts.new }) }
{
    for place in 0..tables.len() {
        let seat = &mut seats[place];
        keep_table(rt, &tables[place], seat, clock, roll_at, counts);
    }
}

/// Keeps house until the pace says that there is no round more. In a round each shard of each table is asked to expire the
/// entries whose time has come, at the moment that the clock shows. Then its record begins again where it is long, as
/// `roll_long` says. What is refused is counted and left to the next round. The seats come back with their calls.
pub fn housekeep<T: Table, J: Naming, C: Clock, P: Pace>(
    rt: &impl Wait,
    tables: &[Shards<T, J>],
    mut seats: Vec<SharedSeat<J>>,
    clock: &mut C,
    pace: &P,
    roll_at: u64,
) -> Kept<J>
    requires { length tables.now ≡ length seats.items }
    ensures { KeepsRounds C.shows tables.now seats.items (C.state clock.old) result (C.state clock.new) }
{
    let mut counts = Counts::none();
    let mut rounds = 0u64;
    for _ in rt.forever() {
        if !pace.next() {
            break;
        }
        keep_round(rt, tables, &mut seats, clock, roll_at, &mut counts);
        rounds = rounds.saturating_add(1);
    }
    Kept {
        rounds,
        rolled: counts.rolled,
        refused: counts.refused,
        expired: counts.expired,
        seats,
    }
}

/// Has the long records of a table begin again.
fn roll_table<T: Table, J: Naming>(
    rt: &impl Wait,
    table: &Shards<T, J>,
    roll_at: u64,
    counts: &mut Counts,
)
    ensures { RollsTable table.now counts.old counts.new }
{
    for shard in 0..table.shards() {
        roll(rt, table, shard, roll_at, counts);
    }
}

/// Has the record of each shard of each table begin again where no receipts are kept and it has at least `roll_at` calls, or as
/// many as take an eighth of its table's bytes. What is refused is counted, and changes nothing.
pub fn roll_long<T: Table, J: Naming>(
    rt: &impl Wait,
    tables: &[Shards<T, J>],
    roll_at: u64,
) -> Counts
    ensures { RollsEach tables.now result }
{
    let mut counts = Counts::none();
    for place in 0..tables.len() {
        roll_table(rt, &tables[place], roll_at, &mut counts);
    }
    counts
}
