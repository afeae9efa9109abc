//! The housekeeping of the tables, each second and for long records more often, until the proxy stops; `service_threads` has one
//! thread do it.

ghost use Rattle.std.specs.Prelude.{◌≡◌};
ghost use Rattle.tcp_proxy.specs.Napping.{nap_of};

use crate::running_program::ServiceCounts;
use crate::shared::{ProxyRuntime, Shared};
use base_clock::RunningClock;
use log::{Log, info};
use shard_housekeeping::{Counts, Kept, Pace, housekeep, roll_long};
use shard_locks::SharedSeat;
use shard_record::Naming;
use std::sync::atomic::{AtomicBool, Ordering};
use stick_table::Table;
use tcp_stats::Count;

/// How many ms lie between two rounds.
const SECOND: u64 = 1_000;

/// How many ms lie between two looks for long records, where the first found some, and where it found none.
const SOON: u64 = 50;

const LATER: u64 = 250;

/// How many looks there are in a second at most.
const LOOKS: u32 = 20;

/// What housekeeping came to, told at the end, and to others as it goes on.
#[derive(Drop)]
struct Tally<'a> {
    board: &'a ServiceCounts,
    rounds: u64,
    rolls: u64,
    refusals: u64,
}

impl<'a> Tally<'a> {
    /// Nothing was done yet.
    fn new(board: &'a ServiceCounts) -> Tally<'a> {
        Tally {
            board,
            rounds: 0,
            rolls: 0,
            refusals: 0,
        }
    }

    /// So many records more began again, and so many more calls were refused.
    fn add(&mut self, rolled: u64, refused: u64) {
        self.rolls = self.rolls.saturating_add(rolled);
        self.refusals = self.refusals.saturating_add(refused);
        self.board.add(Count::Rolls, rolled);
        self.board.add(Count::Refusals, refused);
    }

    /// One round more, in which so many entries went as their time was over.
    fn add_round(&mut self, expired: u64) {
        self.rounds = self.rounds.saturating_add(1);
        self.board.add(Count::Expiries, expired);
    }
}

/// How long to wait for the next look, in ms, where the last one came to this, and so much is left until the next round.
fn nap_of(last: Counts, left: u64) -> u64
    ensures { result ≡ nap_of last left }
{
    let nap = if last.rolled > 0 || last.refused > 0 {
        SOON
    } else {
        LATER
    };
    nap.min(left)
}

/// Waits for a second, in which long records begin again as they are found. False where the proxy stops.
fn wait_second<T: Table, J: Naming, R: ProxyRuntime>(
    shared: &Shared<'_, T, J, R>,
    tally: &mut Tally<'_>,
) -> bool {
    let mut last = Counts::none();
    let mut left = SECOND;
    for _look in 0..LOOKS {
        let nap = nap_of(last, left);
        shared.stop.wait(shared.rt, Some(nap));
        if shared.stop.is_set() {
            return false;
        }
        last = roll_long(shared.rt, shared.tables, shared.roll_at);
        tally.add(last.rolled, last.refused);
        left = left.saturating_sub(nap);
        if left == 0 {
            break;
        }
    }
    true
}

/// One round, at once.
#[derive(Drop)]
struct Once {
    is_done: AtomicBool,
}

impl Pace for Once {
    fn next(&self) -> bool {
        !self.is_done.swap(true, Ordering::SeqCst)
    }
}

/// Has shards expire what is over each second, and begin long records again. What that comes to is counted as it goes on.
pub(crate) fn keep_tables<T: Table, J: Naming, R: ProxyRuntime>(
    shared: &Shared<'_, T, J, R>,
    mut seats: Vec<SharedSeat<J>>,
) -> Vec<SharedSeat<J>> {
    let mut clock = RunningClock::new(shared.rt, shared.start);
    let mut tally = Tally::new(&shared.running.board.service);
    for _round in shared.rt.forever() {
        if seats.as_slice().len() != shared.tables.len() || !wait_second(shared, &mut tally) {
            break;
        }
        let once = Once {
            is_done: AtomicBool::new(false),
        };
        let Kept {
            rounds: _,
            rolled,
            refused,
            expired,
            seats: back,
        } = housekeep(
            shared.rt,
            shared.tables,
            seats,
            &mut clock,
            &once,
            shared.roll_at,
        );
        seats = back;
        tally.add_round(expired);
        tally.add(rolled, refused);
    }
    let Tally {
        rounds,
        rolls,
        refusals,
        ..
    } = tally;
    info!(shared.rt; "housekeeping: {rounds} rounds, {rolls} records began again, {refusals} refusals");
    seats
}
