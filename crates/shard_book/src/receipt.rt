//! A call as its caller keeps it; `asking` makes it for the seat, and `shard_settling` compares it.

use stick_table::{Event, Reply};

/// A call of a shard that was answered, and its reply.
#[derive(Drop)]
pub struct Receipt {
    pub shard: u32,
    pub event: Event,
    pub reply: Reply,
}
