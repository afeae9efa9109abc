//! Lists of each table's seats, and of the references that come back; `reserved` makes them, and `gathering` and `worker` move
//! seats.
//!
//! Each worker takes one seat of each table, and asks the table by it.

ghost use Rattle.std.specs.Prelude.{◌≡◌, ◌+◌, ◌≤◌, ◌<◌, ℕ, All, IfOk, length, map, slice_index, vec_capacity, vec_len};
ghost use Rattle.tcp_relay.specs.Seating.{HaveEach, HaveFew, HaveRoom, held_in, put_in};

use base_sequence::NoMemory;
use shard_locks::{Seated, Shards, SharedRef, SharedSeat};
use shard_record::Naming;
use std::alloc::Global;
use stick_table::Table;

/// So many empty lists, each with so many places.
pub(crate) fn reserve_lists<T>(
    alloc: Global,
    count: usize,
    places: usize,
) -> Result<Vec<Vec<T>>, NoMemory>
    ensures count { IfOk result (λ lists. length lists.items ≡ count) }
    ensures places { IfOk result (λ lists. HaveEach 0 places lists.items) }
{
    let mut lists = Vec::with_capacity(alloc, count)?;
    for _list in 0..count {
        match Vec::with_capacity(alloc, places) {
            Ok(list) => lists.push_reserved(list),
            Err(_) => {
                discard_lists(lists);
                return Err(NoMemory);
            }
        }
    }
    Ok(lists)
}

/// Frees empty lists, also of what can't be dropped.
pub(crate) fn discard_lists<T>(mut lists: Vec<Vec<T>>)
    requires { All (λ list. vec_len list ≡ 0) lists.items }
{
    while let Some(list) = lists.pop() {
        list.destroy_empty();
    }
    lists.destroy_empty();
}

/// Each table, asked by a seat of its own, in a row.
pub(crate) fn take_row<'a, T: Table, J: Naming, R>(
    rt: &'a R,
    tables: &'a [Shards<T, J>],
    seats: &mut Vec<Vec<SharedSeat<J>>>,
    mut row: Vec<Seated<'a, T, J, R>>,
) -> Vec<Seated<'a, T, J, R>>
    requires some { All (λ list. 1 ≤ vec_len list) seats.old.items }
    requires tables { length tables.now ≡ length seats.old.items }
    requires empty { vec_len row ≡ 0 }
    requires room { length seats.old.items ≤ vec_capacity row }
    ensures row { map (λ one. one.table) result.items ≡ tables.now }
    ensures len { vec_len result ≡ length seats.old.items }
    ensures tables { length seats.new.items ≡ length seats.old.items }
    ensures fewer { (count places : ℕ) → HaveEach (count + 1) places seats.old.items → HaveEach count places seats.new.items }
{
    for place in 0..seats.as_slice().len() {
        let list = &mut seats[place];
        let Some(seat) = list.pop() else {
            unreachable!();
        };
        row.push_reserved(Seated::new(&tables[place], rt, seat));
    }
    row
}

/// Puts the seats of a row back, each to its table.
pub(crate) fn put_row<T: Table, J: Naming, R>(
    seats: &mut Vec<Vec<SharedSeat<J>>>,
    mut row: Vec<Seated<'_, T, J, R>>,
)
    requires room { HaveRoom 1 seats.old.items }
    requires row { vec_len row ≡ length seats.old.items }
    ensures tables { length seats.new.items ≡ length seats.old.items }
    ensures more { (count places : ℕ) → HaveEach count places seats.old.items → HaveEach (count + 1) places seats.new.items }
{
    while let Some(seated) = row.pop() {
        let list = &mut seats[row.as_slice().len()];
        list.push_reserved(seated.into_seat());
    }
}

/// Puts a reference to the others of its table.
pub(crate) fn put_aside<J: Naming>(
    refs: &mut Vec<Vec<SharedRef<J>>>,
    table: u32,
    reference: SharedRef<J>,
)
    requires table { table < length refs.old.items }
    requires room { HaveRoom 1 refs.old.items }
    ensures kept { held_in refs.new.items ≡ put_in table reference (held_in refs.old.items) }
    ensures tables { length refs.new.items ≡ length refs.old.items }
    ensures more { (most places : ℕ) → HaveFew most places refs.old.items → HaveFew (most + 1) places refs.new.items }
    ensures room { (spare : ℕ) → HaveRoom (spare + 1) refs.old.items → HaveRoom spare refs.new.items }
{
    let list = &mut refs[table as usize];
    list.push_reserved(reference);
}
