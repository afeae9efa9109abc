//! What housekeeping has done, and its seats; `housekeep` answers it, and `tcp_proxy` takes it for settling.

use shard_locks::SharedSeat;
use shard_record::Naming;

/// How many rounds there were, how many records began again in them, how many expiries and rolls were refused, and how many
/// entries went as their time was over, each count stopping at 2^64 - 1; and the seat of each table, with its calls.
#[derive(Drop)]
pub struct Kept<J: Naming> {
    pub rounds: u64,
    pub rolled: u64,
    pub refused: u64,
    pub expired: u64,
    pub seats: Vec<SharedSeat<J>>,
}
