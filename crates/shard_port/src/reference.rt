//! A reference to an entry of a shard; `drive` makes it, and connections of scripts and worlds hold it.

use stick_table::Ticket;

/// A reference to an entry of one shard of a table, for callers on one thread.
#[derive(Clone, Copy, Debug, PartialEq, Eq)]
pub struct Reference {
    /// The number of the shard, from 0.
    pub shard: u32,
    pub ticket: Ticket,
}
