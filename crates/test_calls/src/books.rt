//! The books of a table in shards, once its threads have ended.

use base_sequence::NoMemory;
use shard_book::Book;
use shard_locks::Shards;
use shard_record::Naming;
use std::alloc::Global;
use stick_table::Table;

/// The books of a table's shards, in their order, out of their locks.
pub fn books_of<T: Table, J: Naming>(
    alloc: Global,
    table: Shards<T, J>,
) -> Result<Vec<Book<T>>, NoMemory> {
    match table.into_books(alloc) {
        Ok(unlocked) => {
            let (books, _keepers) = unlocked.into_books();
            Ok(books)
        }
        Err(_) => Err(NoMemory),
    }
}
