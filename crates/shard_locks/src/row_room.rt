//! Room for the rows of a listing, made before the lock is held for it; `listing` and `seated` ask for it.

ghost use Rattle.std.specs.Prelude.{◌<◌};

use crate::Shards;
use shard_record::Naming;
use std::sync::Wait;
use stick_table::{RowRoom, Table};

impl<T: Table, J: Naming> Shards<T, J> {
    /// Gives a shard room for the rows of a listing that is asked next. Its memory is taken, and each page of it written, while the
    /// lock is free, so that the listing holds it for less. Where there is no memory for it, the listing takes its own. It is no
    /// event, and changes nothing.
    pub(crate) fn give_room(&self, rt: &impl Wait, shard: u32)
        requires shard { shard < self.now.shards }
    {
        let rows = self.entries(rt, shard);
        let Ok(room) = RowRoom::for_rows(*self.books.allocator(), self.whole(), rows) else {
            return;
        };
        let mut kept = self.books[shard as usize].lock(rt);
        let before = kept.swap_room(room);
        drop(kept);
        // What was there goes when the lock is free, as it may be large.
        drop(before);
    }

    /// How many entries a shard has.
    fn entries(&self, rt: &impl Wait, shard: u32) -> usize
        requires shard { shard < self.now.shards }
    {
        let kept = self.books[shard as usize].lock(rt);
        kept.entries()
    }
}
