//! What is timed of a caller.

use base_sequence::NoMemory;

/// How many keys each caller has of its own.
pub const KEYS: u32 = 16;

/// A caller of a table in shards, whose keys are its own.
pub trait Calls: Drop {
    /// Tracks the key of a place, below 16, and holds the reference behind those that it holds; answers whether it does.
    fn hold(&mut self, place: u32) -> bool;

    /// Looks at the reference of a place among those that it holds; answers whether it was shown.
    fn look(&mut self, place: u32) -> bool;

    /// Tracks the key of a place, and gives the reference back; answers whether both were done.
    fn pass(&mut self, place: u32) -> bool;

    /// Begins the records of all shards again.
    fn begin_again(&mut self) -> Result<(), NoMemory>;
}
