//! What is read of a shard under its lock, by no event, and what is done meanwhile; `Seated` calls it, and tests of locks do.

ghost use Rattle.std.specs.Prelude.{◌<◌, IfOk};
ghost use Rattle.stick_model.specs.Legal.{IsLegal};
ghost use Rattle.stick_model.specs.Limits.{IsTableSpec};

use crate::Shards;
use base_sequence::NoMemory;
use shard_book::Occupancy;
use shard_record::Naming;
use std::sync::Wait;
use stick_table::{PlainTable, Table};

impl<T: Table, J: Naming> Shards<T, J> {
    /// What of a shard is occupied, as `Kept::occupancy` tells it under the shard's lock.
    pub fn occupancy(&self, rt: &impl Wait, shard: u32) -> Occupancy
        requires shard { shard < self.now.shards }
    {
        let kept = self.books[shard as usize].lock(rt);
        kept.occupancy()
    }

    /// A plain copy of what a shard is, made while its lock is held: of 100,000 entries that takes some ms. It is no event, and
    /// changes nothing.
    pub fn copied(&self, rt: &impl Wait, shard: u32) -> Result<PlainTable, NoMemory>
        requires shard { shard < self.now.shards }
        ensures limits { IfOk result (λ table. IsTableSpec table.now.spec) }
        ensures legal { IfOk result (λ table. IsLegal table.now) }
    {
        let held = self.books[shard as usize].lock(rt);
        held.book().copied()
    }

    /// Does some work while a shard's lock is held. Nothing of the shard changes.
    pub fn hold<R: Wait, F: FnOnce()>(&self, rt: &R, shard: u32, work: F)
        requires shard { shard < self.now.shards }
        requires work { F.pre work }
        ensures work { F.post work tt }
    {
        let kept = self.books[shard as usize].lock(rt);
        work();
        drop(kept);
    }
}
