//! The memory that serving takes, all of it before any worker starts; `serve` takes it first.

ghost use Rattle.std.specs.Prelude.{◌≡◌, ◌≤◌, ◌*◌, ◌^◌, IfOk, length, vec_capacity, vec_len};
ghost use Rattle.tcp_relay.specs.Seating.{HaveEach};

use crate::buffers::{Buffers, reserve_buffers};
use crate::connection::Connection;
use crate::leaving::MOST_HELD;
use crate::listener_turn::TurnParts;
use crate::seating::{discard_lists, reserve_lists};
use crate::width::Width;
use crate::worker::Worker;
use base_sequence::NoMemory;
use shard_locks::{Seated, SharedRef};
use shard_record::Naming;
use std::alloc::Global;
use stick_table::Table;

/// For each worker, empty lists with places for what it keeps. It can't be dropped, as connections can't.
pub(crate) struct Rooms<'a, T: Table, J: Naming, R, W: Width> {
    pub(crate) all_buffers: Vec<Buffers<W>>,
    /// Places for each table with a seat.
    pub(crate) rows: Vec<Vec<Seated<'a, T, J, R>>>,
    /// Places for its connections.
    pub(crate) held: Vec<Vec<Option<Connection<'a, J, W>>>>,
    /// Places for the numbers of places that are free again.
    pub(crate) free: Vec<Vec<usize>>,
}

/// Empty lists with places for all that serving keeps. It can't be dropped, as references can't.
pub(crate) struct Reserved<'a, T: Table, J: Naming, R, W: Width> {
    pub(crate) workers: Vec<Worker<'a, T, J, R, W>>,
    /// Room for what the workers share to be told of connections.
    pub(crate) parts: TurnParts,
    pub(crate) rooms: Rooms<'a, T, J, R, W>,
    /// For each table, places for all references that connections can hold.
    pub(crate) refs: Vec<Vec<SharedRef<J>>>,
}

/// What can be dropped, for so many workers with so many connections each, of which so many may be waited for.
fn reserve_plain<W: Width>(
    alloc: Global,
    workers: usize,
    connections: usize,
    waits: usize,
) -> Result<(Vec<Buffers<W>>, TurnParts, Vec<Vec<usize>>), NoMemory>
    ensures all_buffers { IfOk result (λ lists. length lists.0.items ≡ workers) }
    ensures free { IfOk result (λ lists. length lists.2.items ≡ workers) }
{
    let all_buffers = reserve_buffers(alloc, workers, waits)?;
    let parts = TurnParts::reserve(alloc, workers)?;
    let free = reserve_lists(alloc, workers, connections)?;
    Ok((all_buffers, parts, free))
}

/// Room for so many workers and tables, and so many connections of each worker, of which so many may be waited for.
pub(crate) fn reserve<'a, T: Table, J: Naming, R, W: Width>(
    alloc: Global,
    workers: usize,
    tables: usize,
    connections: usize,
    waits: usize,
) -> Result<Reserved<'a, T, J, R, W>, NoMemory>
    requires workers { workers ≤ 64 }
    requires connections { connections ≤ 2 ^ 32 }
    ensures workers { IfOk result (λ room. (vec_len room.workers ≡ 0) × (workers ≤ vec_capacity room.workers)) }
    ensures rows { IfOk result (λ room. (length room.rooms.rows.items ≡ workers) × HaveEach 0 tables room.rooms.rows.items) }
    ensures held { IfOk result (λ room. (length room.rooms.held.items ≡ workers) × HaveEach 0 connections room.rooms.held.items) }
    ensures all_buffers { IfOk result (λ room. length room.rooms.all_buffers.items ≡ workers) }
    ensures free { IfOk result (λ room. length room.rooms.free.items ≡ workers) }
    ensures refs { IfOk result (λ room. (length room.refs.items ≡ tables) × HaveEach 0 (workers * (connections * 3)) room.refs.items) }
{
    let (all_buffers, parts, free) = reserve_plain(alloc, workers, connections, waits)?;
    let rows = reserve_lists(alloc, workers, tables)?;
    let held = reserve_lists(alloc, workers, connections)?;
    let Ok(refs) = reserve_lists(alloc, tables, workers * (connections * MOST_HELD)) else {
        discard_lists(held);
        return Err(NoMemory);
    };
    match Vec::with_capacity(alloc, workers) {
        Ok(workers) => Ok(Reserved {
            workers,
            parts,
            rooms: Rooms {
                all_buffers,
                rows,
                held,
                free,
            },
            refs,
        }),
        Err(_) => {
            discard_lists(held);
            discard_lists(refs);
            Err(NoMemory)
        }
    }
}
