//! A pool in which every slot has a value.
ghost use Rattle.std.specs.Prelude.{◌≤◌};

use crate::random::{Random, SLOTS};
use entry_pool::{Handle, Pool};
use std::alloc::{AllocError, Global};

/// A pool in which every slot has a value of 64 bytes, and the handles of all.
#[derive(Drop)]
pub struct FullPool {
    pool: Pool<[u64; 8]>,
    handles: Vec<Handle>,
    generation: u64,
    ghost behind: { pool.newest ≤ generation },
}

impl FullPool {
    fn empty(alloc: Global) -> Result<FullPool, AllocError> {
        Ok(FullPool {
            pool: Pool::new(alloc, SLOTS)?,
            handles: Vec::new(alloc),
            generation: 0,
        })
    }

    /// A pool with a value in every slot.
    pub fn new(alloc: Global) -> Result<FullPool, AllocError> {
        let mut full = FullPool::empty(alloc)?;
        for _slot in 0..SLOTS {
            full.add()?;
        }
        Ok(full)
    }

    /// Puts a value into a slot that has none.
    fn insert(&mut self) -> Option<Handle> {
        let generation = self.generation.checked_add(1)?;
        self.generation = generation;
        self.pool.insert([generation; 8], generation).ok()
    }

    /// Puts a value into a slot that has none, and keeps its handle.
    fn add(&mut self) -> Result<(), AllocError> {
        if let Some(handle) = self.insert() {
            self.handles.push(handle)?;
        }
        Ok(())
    }

    /// Takes a value out and puts another in.
    fn replace(&mut self, place: u32) -> u64 {
        let Some(handle) = self.handles.get(place as usize).copied() else {
            return 0;
        };
        let Some(value) = self.pool.remove(handle) else {
            return 0;
        };
        if let Some(handle) = self.insert()
            && let Some(kept) = self.handles.get_mut(place as usize)
        {
            *kept = handle;
        }
        value[0]
    }

    /// Reads a value.
    fn read(&self, place: u32) -> u64 {
        let Some(handle) = self.handles.get(place as usize).copied() else {
            return 0;
        };
        match self.pool.get(handle) {
            Some(value) => value[0],
            None => 0,
        }
    }

    /// Replaces so many values.
    pub fn replace_many(&mut self, random: &mut Random, count: u32) -> u64 {
        let mut sum: u64 = 0;
        for _round in 0..count {
            sum = sum.wrapping_add(self.replace(random.slot()));
        }
        sum
    }

    /// Reads so many values.
    pub fn read_many(&self, random: &mut Random, count: u32) -> u64 {
        let mut sum: u64 = 0;
        for _round in 0..count {
            sum = sum.wrapping_add(self.read(random.slot()));
        }
        sum
    }
}
