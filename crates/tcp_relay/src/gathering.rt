//! Seats given to workers, and taken back with what those have done; `serve` calls it before the threads and after them.

ghost use Rattle.std.specs.Prelude.{◌≡◌, ◌≤◌, ◌*◌, ◌^◌, length, vec_capacity, vec_len};
ghost use Rattle.tcp_relay.specs.Accepting.{most_of};
ghost use Rattle.tcp_relay.specs.Seating.{AreIn, HaveEach, StoreAs};
ghost use Rattle.tcp_relay.specs.Serving.{AreLeft, AreSeats};

use crate::Served;
use crate::places::Places;
use crate::reserved::Rooms;
use crate::seating::take_row;
use crate::shares::share_of;
use crate::width::Width;
use crate::worker::{Tally, Worker};
use shard_locks::{Shards, SharedRef, SharedSeat};
use shard_record::Naming;
use stick_table::Table;

/// As many workers as there are rows for their seats, each with a seat of each table and its share of the places for so many
/// connections.
pub(crate) fn seat_workers<'a, T: Table, J: Naming, R, W: Width>(
    rt: &'a R,
    tables: &'a [Shards<T, J>],
    seats: &mut Vec<Vec<SharedSeat<J>>>,
    workers: &mut Vec<Worker<'a, T, J, R, W>>,
    rooms: Rooms<'a, T, J, R, W>,
    connections: usize,
)
    requires most { most_of connections (length rooms.rows.items) ≡ W.most }
    requires connections { connections ≤ 2 ^ 32 }
    requires tables { length tables.now ≡ W.tables }
    requires shards { AreIn (λ table. table.shards) W.shards tables.now }
    requires current { StoreAs (λ table. table.spec) W.current tables.now }
    requires seats { AreSeats W.tables (length rooms.rows.items) seats.old }
    requires rows { HaveEach 0 W.tables rooms.rows.items }
    requires held { (length rooms.held.items ≡ length rooms.rows.items) × HaveEach 0 W.most rooms.held.items }
    requires free { length rooms.free.items ≡ length rooms.rows.items }
    requires all_buffers { length rooms.all_buffers.items ≡ length rooms.rows.items }
    requires workers { (vec_len workers.old ≡ 0) × (length rooms.rows.items ≤ vec_capacity workers.old) }
    ensures workers { length workers.new.items ≡ length rooms.entry.rows.items }
    ensures tables { length seats.new.items ≡ W.tables }
    ensures seats { HaveEach 0 (length rooms.entry.rows.items) seats.new.items }
{
    let Rooms {
        mut all_buffers,
        mut rows,
        mut held,
        mut free,
    } = rooms;
    let count = rows.as_slice().len();
    while let Some(places) = held.pop() {
        let Some(row) = rows.pop() else {
            unreachable!();
        };
        let Some(spare) = free.pop() else {
            unreachable!();
        };
        let Some(buffers) = all_buffers.pop() else {
            unreachable!();
        };
        let row = take_row(rt, tables, seats, row);
        let most = share_of(connections, count, rows.as_slice().len());
        let places = Places::new(places, spare, most);
        workers.push_reserved(Worker::new(row, places, buffers));
    }
    held.destroy_empty();
}

/// What workers have done together, with their seats and the references that their connections still hold; and whether one
/// of them couldn't wait for connections. The lists take no memory more.
pub(crate) fn gather<T: Table, J: Naming, R, W: Width>(
    mut workers: Vec<Worker<'_, T, J, R, W>>,
    mut seats: Vec<Vec<SharedSeat<J>>>,
    mut refs: Vec<Vec<SharedRef<J>>>,
) -> (Served<J>, bool)
    requires seats { (length seats.items ≡ W.tables) × HaveEach 0 (length workers.items) seats.items }
    requires refs { (length refs.items ≡ W.tables) × HaveEach 0 (length workers.items * (W.most * 3)) refs.items }
    ensures seats { AreSeats W.tables (length workers.entry.items) result.0.seats }
    ensures refs { AreLeft W.tables (length workers.entry.items) W.most result.0.refs }
{
    let mut all = Tally::new();
    while let Some(worker) = workers.pop() {
        all = all.with(worker.end(&mut seats, &mut refs));
    }
    workers.destroy_empty();
    let served = Served {
        admitted: all.admitted,
        rejected: all.rejected,
        unaccepted: all.unaccepted,
        seats,
        refs,
    };
    (served, all.has_failed)
}
