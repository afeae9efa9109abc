//! The books of a table in shards, taken out of their locks; `Shards` makes it for settling, which gives it back on a fault.

ghost use Rattle.std.specs.Prelude.{◌≡◌, ◌+◌, ◌≤◌, [], length, vec_len, vec_capacity, IfSome};
ghost use Rattle.shard_locks.specs.Shared.{AreKept};

use crate::opening::Locks;
use crossbeam_utils::CachePadded;
use shard_book::{Book, Kept};
use shard_record::{Keeper, Naming, Record};
use std::alloc::Global;
use std::marker::Model;
use std::sync::{Arc, Mutex};
use stick_table::{Spec, Table};

/// The books of a table in shards, out of their locks, and what it needs to become the table again: what settling looks at.
#[derive(Drop)]
pub struct Unlocked<T: Table, J: Naming> {
    pub(crate) spec: Spec,
    pub(crate) specs: Vec<Spec>,
    pub(crate) keep: bool,
    pub(crate) records: Arc<Record<J>, Global>,
    pub(crate) first: u32,
    pub(crate) books: Vec<Book<T>>,
    pub(crate) keepers: Vec<Keeper<J>>,
    /// The memory of the locks: an empty list with a place for each.
    pub(crate) room: Locks<T, J>,
}

impl<T: Table, J: Naming> Model for Unlocked<T, J> {
    ghost use Rattle.std.specs.Prelude.{◌≡◌, ◌≤◌, length, vec_len, vec_capacity};
    ghost use Rattle.shard_locks.specs.ShardsState.{AreShards, UnlockedState, HasRoom};
    ghost use Rattle.shard_locks.specs.Shared.{AreKept, AreNumbered, AreParts};

    ghost Value = { UnlockedState };

    ghost view = { λ table. record { spec = table.spec; specs = table.specs.items; keep = table.keep; first = table.first; books = table.books.items; keepers = table.keepers.items } };

    ghost invariant = { λ table. AreShards table.spec (length table.books.items) table.specs.items × HasRoom (vec_len table.room) (vec_capacity table.room) (length table.books.items)
        × AreNumbered table.first (length table.books.items) J.books × AreKept J.specs table.books.items table.keepers.items
        × AreParts J.specs table.first table.spec (length table.books.items) };
}

impl<T: Table, J: Naming> Unlocked<T, J> {
    /// What each shard was made with.
    pub fn specs(&self) -> &[Spec]
        ensures specs { result.now ≡ self.now.specs }
        ensures count { length self.now.books ≡ length result.now }
    {
        self.specs.as_slice()
    }

    /// Whether the table's seats keep receipts.
    pub fn keeps(&self) -> bool
        ensures { result ≡ self.now.keep }
    {
        self.keep
    }

    /// The book of each shard, in order.
    pub fn books(&self) -> &Vec<Book<T>>
        ensures books { result.now.items ≡ self.now.books }
        ensures few { length result.now.items ≤ 64 }
    {
        &self.books
    }

    /// The books, and what keeps the record of each.
    pub fn into_books(self) -> (Vec<Book<T>>, Vec<Keeper<J>>)
        ensures books { result.0.items ≡ self.books }
        ensures kept { AreKept J.specs result.0.items result.1.items }
    {
        let Unlocked {
            spec: _,
            specs: _,
            keep: _,
            records: _,
            first: _,
            books,
            keepers,
            room: _,
        } = self;
        (books, keepers)
    }
}

/// Empty lists for so many books, and for what keeps their records, where there is memory for them.
pub(crate) fn room_for<T: Table, J: Naming>(
    alloc: Global,
    count: usize,
) -> Option<(Vec<Book<T>>, Vec<Keeper<J>>)>
    ensures empty { IfSome result (λ room. (room.0.items ≡ []) × (room.1.items ≡ [])) }
    ensures books { IfSome result (λ room. vec_len room.0 + count ≤ vec_capacity room.0) }
    ensures keepers { IfSome result (λ room. vec_len room.1 + count ≤ vec_capacity room.1) }
{
    let mut books = Vec::new(alloc);
    let mut keepers = Vec::new(alloc);
    if books.reserve(count).is_err() {
        return None;
    }
    if keepers.reserve(count).is_err() {
        return None;
    }
    Some((books, keepers))
}

/// Takes the books, and what keeps their records, out of their locks, in their order. The emptied list keeps its room.
pub(crate) fn unlock_all<T: Table, J: Naming>(
    mut locks: Locks<T, J>,
    books: &mut Vec<Book<T>>,
    keepers: &mut Vec<Keeper<J>>,
) -> Locks<T, J>
    requires room { vec_len books.old + length locks.items ≤ vec_capacity books.old }
    requires keepers { vec_len keepers.old + length locks.items ≤ vec_capacity keepers.old }
    requires empty { (books.old.items ≡ []) × (keepers.old.items ≡ []) }
    ensures books { length books.new.items ≡ length locks.items }
    ensures kept { AreKept J.specs books.new.items keepers.new.items }
    ensures locks { length result.items ≡ 0 }
    ensures room { length books.new.items ≤ vec_capacity result }
{
    while let Some(lock) = locks.pop() {
        let (book, keeper) = lock.into_inner().into_inner().into_parts();
        books.push_reserved(book);
        keepers.push_reserved(keeper);
    }
    books.reverse();
    keepers.reverse();
    locks
}

/// Puts the books, each beside what keeps its record, into locks, in their order.
pub(crate) fn lock_all<T: Table, J: Naming>(
    mut books: Vec<Book<T>>,
    mut keepers: Vec<Keeper<J>>,
    mut room: Locks<T, J>,
) -> Locks<T, J>
    requires kept { AreKept J.specs books.items keepers.items }
    requires empty { length room.items ≡ 0 }
    requires room { length books.items ≤ vec_capacity room }
    ensures { length result.items ≡ length books.items }
{
    while let Some(book) = books.pop() {
        let keeper = keepers.pop().unwrap();
        let kept = Kept::from_parts(book, keeper);
        room.push_reserved(CachePadded::new(Mutex::new(kept)));
    }
    room.reverse();
    room
}
