//! What serving comes to; `serve` answers it, and `tcp_proxy` prints it and settles by it.

use shard_locks::{SharedRef, SharedSeat};
use shard_record::Naming;

/// What was served: how many connections were admitted, rejected, and not accepted as the system hadn't what that takes, each
/// count stopping at 2^64 - 1; the seats of each table, with their calls; and the references of each table that couldn't be
/// given back. It can't be dropped, as references can't.
pub struct Served<J: Naming> {
    pub admitted: u64,
    pub rejected: u64,
    pub unaccepted: u64,
    pub seats: Vec<Vec<SharedSeat<J>>>,
    pub refs: Vec<Vec<SharedRef<J>>>,
}

/// Why serving ended with a fault.
#[derive(Clone, Copy, Debug, PartialEq, Eq)]
pub enum FaultKind {
    /// A thread couldn't wait for connections.
    Waiting,
    /// A worker's thread couldn't be started.
    Thread,
    /// There was no memory for what serving needs. No worker was started.
    NoMemory,
}

/// A fault, and what was served all the same. It is told once all workers that were started have ended.
pub struct ServeFault<J: Naming> {
    pub kind: FaultKind,
    pub served: Served<J>,
}
