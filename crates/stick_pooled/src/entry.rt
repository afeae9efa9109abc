//! What is kept of an entry beside its key and its data, and an entry as it was at the base; `entry_store` keeps one per slot.

use stick_key::StickKey;
use stored_data::Values;

/// When an entry was refreshed last, and how many references to it are out.
#[derive(Clone, Copy, Debug, PartialEq, Eq)]
pub struct Entry {
    /// The number of the event that refreshed it.
    pub stamp: u64,
    /// The clock at that event, in ms.
    pub moment: u64,
    /// How many references to its key are out.
    pub refs: u32,
}

/// One of the two states that a store knows.
#[derive(Clone, Copy, Debug, PartialEq, Eq)]
pub enum Point {
    /// What it is.
    Now,
    /// What it was at its base.
    Base,
}

/// An entry as it was at the base: its key, when it was refreshed last, and its data.
#[derive(Drop)]
pub struct Kept {
    /// Its key.
    pub key: StickKey,
    /// The number of the event that refreshed it.
    pub stamp: u64,
    /// The clock at that event, in ms.
    pub moment: u64,
    /// Its data.
    pub values: Values,
}
