//! What of a shard is occupied; books tell it, and `Keeper` tells it of each shard.

/// The references to entries of a shard, and the entries that went to make room.
#[derive(Clone, Copy)]
pub struct Occupancy {
    /// How many references are out.
    pub references: u32,
    /// How many entries went to make room for others since the table was opened, modulo 2^64.
    pub purged: u64,
}
