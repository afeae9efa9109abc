//! What names a slot of a table; `Pool` makes handles, and `key_index` and `stick_pooled` keep them.

/// No slot: slots are below 2^30.
pub const NONE: u32 = u32::MAX;

/// Names what a slot holds for as long as it is there. A slot is used again, a generation never is.
#[derive(Clone, Copy, PartialEq, Eq, Debug)]
pub struct Handle {
    /// The number of the slot, below the capacity.
    pub slot: u32,
    /// Which of the slot's tenants is meant: each has a greater generation than all before it.
    pub generation: u64,
}
