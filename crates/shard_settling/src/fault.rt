//! Why a table in shards isn't settled; `check` answers it, and `tcp_proxy` prints it.

/// Why a table in shards isn't settled, with the number of the shard.
#[derive(Clone, Copy, Debug, PartialEq, Eq)]
pub enum Fault {
    /// The shard has counted other events than the seats' calls; or the table has no such shard, and the seats called one.
    MissingCalls(u32),
    /// Other tickets are out than those of the references; or the table has no such shard, and a reference of one is shown.
    MissingRefs(u32),
    /// The shard's table isn't made as it should be; or, with receipts, its record doesn't begin with the empty table, or
    /// isn't what the seats were told.
    Mismatch(u32),
    /// A growth was refused.
    Memory,
}
