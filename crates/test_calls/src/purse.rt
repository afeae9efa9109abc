//! The references that a caller of a table in shards holds, so that they can be dropped.

use crate::random_numbers::Random;
use base_sequence::NoMemory;
use shard_locks::SharedRef;
use shard_record::Naming;
use std::alloc::Global;
use stick_table::Ticket;

/// A reference as its shard and its ticket.
#[derive(Clone, Copy)]
pub struct Held {
    pub shard: u32,
    pub ticket: Ticket,
}

/// A reference that was never told.
const NONE: Held = Held {
    shard: 0,
    ticket: Ticket { number: 0, slot: 0 },
};

/// References. Where it is dropped, they are given up.
pub struct Purse<J: Naming> {
    refs: Vec<SharedRef<J>>,
}

impl<J: Naming> Drop for Purse<J> {
    fn drop(self) {
        let Purse { refs } = self;
        abandon_all(refs);
    }
}

impl<J: Naming> Purse<J> {
    /// No reference.
    pub fn new(alloc: Global) -> Purse<J> {
        Purse {
            refs: Vec::new(alloc),
        }
    }

    /// Takes memory for one reference more, so that `put` finds it.
    pub fn reserve(&mut self) -> Result<(), NoMemory> {
        self.refs.reserve(1)?;
        Ok(())
    }

    /// One reference more. It is given up where there is no memory for it.
    pub fn put(&mut self, reference: SharedRef<J>) {
        if let Err(refused) = self.refs.push(reference) {
            refused.value.abandon();
        }
    }

    /// References more.
    pub fn put_all(&mut self, mut references: Vec<SharedRef<J>>) {
        while let Some(reference) = references.pop() {
            self.put(reference);
        }
        references.destroy_empty();
    }

    /// How many there are.
    pub fn count(&self) -> usize {
        self.refs.as_slice().len()
    }

    /// The reference of a place, if it is there.
    pub fn at(&self, place: usize) -> Option<&SharedRef<J>> {
        self.refs.get(place)
    }

    /// The reference of a place by its shard and its ticket, or one that was never told.
    pub fn held_at(&self, place: usize) -> Held {
        match self.refs.get(place) {
            Some(reference) => Held {
                shard: reference.shard(),
                ticket: reference.ticket(),
            },
            None => NONE,
        }
    }

    /// A reference drawn at random, or one that was never told.
    pub fn any(&self, random: &mut Random) -> Held {
        let count = self.count().clamp(1, 1_000) as u32;
        self.held_at(random.below(count) as usize)
    }

    /// A reference by its shard and its ticket, if it is there.
    pub fn find(&self, held: Held) -> Option<&SharedRef<J>> {
        let place = self.place(held)?;
        self.refs.get(place)
    }

    /// The same, taken out.
    pub fn take(&mut self, held: Held) -> Option<SharedRef<J>> {
        let place = self.place(held)?;
        if place < self.refs.as_slice().len() {
            Some(self.refs.swap_remove(place))
        } else {
            None
        }
    }

    /// All of them.
    pub fn into_refs(self) -> Vec<SharedRef<J>> {
        let Purse { refs } = self;
        refs
    }

    fn place(&self, held: Held) -> Option<usize> {
        let refs = self.refs.as_slice();
        for place in 0..refs.len() {
            if refs[place].shard() == held.shard && refs[place].ticket() == held.ticket {
                return Some(place);
            }
        }
        None
    }
}

/// Gives references up.
pub fn abandon_all<J: Naming>(mut references: Vec<SharedRef<J>>) {
    while let Some(reference) = references.pop() {
        reference.abandon();
    }
    references.destroy_empty();
}
