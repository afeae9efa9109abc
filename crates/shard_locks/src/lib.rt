//! A table in shards, shared by threads, each shard's book under a lock; the proxy's workers, commands, housekeeping and settling
//! call it.
#![tactic(auto)]

mod holding;
mod insisting;
mod listing;
mod opening;
mod ported;
mod reading;
mod rolling;
mod row_room;
mod seat_counts;
mod seated;
mod shards;
mod shared_ref;
mod shared_seat;
mod tracking;
mod unlocked;

pub use listing::Listing;
pub use seat_counts::SeatCounts;
pub use seated::Seated;
pub use shards::Shards;
pub use shared_ref::SharedRef;
pub use shared_seat::SharedSeat;
pub use tracking::Tracking;
pub use unlocked::Unlocked;
