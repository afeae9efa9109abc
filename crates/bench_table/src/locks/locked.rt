//! A caller of a table that threads share: each call takes the lock of its shard.

use crate::locks::calls::{Calls, KEYS};
use base_sequence::NoMemory;
use shard_locks::{Shards, SharedRef, SharedSeat, Tracking};
use shard_record::Naming;
use std::alloc::Global;
use std::sync::Wait;
use stick_key::StickKey;
use stick_table::Table;
use test_calls::{Purse, key};

/// A caller of a table that threads share, and the references that it holds.
#[derive(Drop)]
pub struct LockedCaller<'a, T: Table, J: Naming, R> {
    alloc: Global,
    rt: &'a R,
    table: &'a Shards<T, J>,
    seat: SharedSeat<J>,
    purse: Purse<J>,
}

/// The reference of a reply.
fn reference_of<J: Naming>(tracking: Tracking<SharedRef<J>>) -> Option<SharedRef<J>> {
    match tracking {
        Tracking::Tracked(reference, _) => Some(reference),
        Tracking::Full => None,
        Tracking::NoRefs => None,
    }
}

/// Tracks a key.
fn track_key<T: Table, J: Naming>(
    rt: &impl Wait,
    table: &Shards<T, J>,
    seat: &mut SharedSeat<J>,
    key: StickKey,
) -> Option<SharedRef<J>> {
    match table.track(rt, seat, 0, key) {
        Ok(tracking) => reference_of(tracking),
        Err(_) => None,
    }
}

/// Gives a reference back; answers whether it was taken.
fn give_back<T: Table, J: Naming>(
    rt: &impl Wait,
    table: &Shards<T, J>,
    seat: &mut SharedSeat<J>,
    reference: SharedRef<J>,
) -> bool {
    match table.release(rt, seat, reference, 0) {
        Ok(()) => true,
        Err((reference, _)) => {
            reference.abandon();
            false
        }
    }
}

impl<'a, T: Table, J: Naming, R> LockedCaller<'a, T, J, R> {
    /// The caller of a seat, which holds nothing yet.
    pub fn new(
        alloc: Global,
        rt: &'a R,
        table: &'a Shards<T, J>,
        seat: SharedSeat<J>,
    ) -> LockedCaller<'a, T, J, R> {
        LockedCaller {
            alloc,
            rt,
            table,
            seat,
            purse: Purse::new(alloc),
        }
    }
}

impl<'a, T: Table, J: Naming, R: Wait> LockedCaller<'a, T, J, R> {
    /// Tracks the key of a place; answers the reference, where it isn't refused.
    fn track(&mut self, place: u32) -> Option<SharedRef<J>> {
        let number = self
            .seat
            .seat()
            .number()
            .wrapping_mul(KEYS)
            .wrapping_add(place);
        let key = key(self.alloc, number).ok()?;
        track_key(self.rt, self.table, &mut self.seat, key)
    }
}

impl<'a, T: Table, J: Naming, R: Wait> Calls for LockedCaller<'a, T, J, R> {
    fn hold(&mut self, place: u32) -> bool {
        match self.track(place) {
            Some(reference) => {
                self.purse.put(reference);
                true
            }
            None => false,
        }
    }

    fn look(&mut self, place: u32) -> bool {
        match self.purse.at(place as usize) {
            Some(reference) => self
                .table
                .look(self.rt, &mut self.seat, reference, 0)
                .is_ok(),
            None => false,
        }
    }

    fn pass(&mut self, place: u32) -> bool {
        match self.track(place) {
            Some(reference) => give_back(self.rt, self.table, &mut self.seat, reference),
            None => false,
        }
    }

    fn begin_again(&mut self) -> Result<(), NoMemory> {
        for shard in 0..self.table.shards() {
            self.table.roll(self.rt, shard, 0)?;
        }
        Ok(())
    }
}
