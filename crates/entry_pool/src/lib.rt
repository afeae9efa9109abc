//! Slots for values in one block of raw memory, named by handles that never find a later value; `stick_pooled` keeps its entries
//! there.
//!
//! `key_index` and `expiry_order` share its handles and slot numbers.
#![tactic(auto)]

ghost use Rattle.std.specs.Prelude.{◌≡◌, ℕ, ◌<◌, ◌≤◌, ◌^◌, ◌↔◌, length, replicate, get_or, slice_set, Some, None, IsSome, IsErr, IfOk, IfErr, IfNone, option_copied};
ghost use Rattle.std.specs.Option.{option_copied_mut};
ghost use Rattle.std.specs.Borrow.{Lends, sem};
ghost use Rattle.entry_pool.specs.Contents.{empty, entry_at, find, live_count, IsFull, IsGone, IsPool, with_inserted, with_value, without, handle_at as specified_handle};
ghost use Rattle.entry_pool.specs.Slots.{IsTold, AreAllFree};

mod block;
pub mod laws;
mod slot_handle;

use base_sequence::NoMemory;
use block::Block;
pub use slot_handle::{Handle, NONE};
use std::alloc::Global;
use std::marker::Model;
use std::snapshot::Snapshot;

/// The link of a slot that has a value.
const FULL: u32 = u32::MAX - 1;

/// A value, with the generation of its handle.
#[derive(Drop)]
struct Live<T> {
    generation: u64,
    value: T,
}

impl<T> Live<T> {
    ghost use Rattle.entry_pool.specs.contracts.Live.{the_row};
    ghost use Rattle.entry_pool.specs.Slots.{refilled};

    fn value_mut(&mut self) -> &mut T
        ensures* lends { sem 𝓛 (Lends (the_row T.row) T.row self.entry result (refilled self.entry.now)) }
        ensures value { result.now ≡ self.old.value }
    {
        &mut self.value
    }
}

/// Values in the slots of one block. Contracts see a finite map from handles to values, the capacity, and the greatest
/// generation used. Only `new` takes memory. No value is dropped twice. That the pool's end drops those that are left in it,
/// no contract says: a test counts them.
pub struct Pool<T> {
    // The place of a slot with no value is raw memory, which no call reads or writes.
    block: Block<Live<T>>,
    // For each slot: that it has a value, or the next free slot.
    links: Vec<u32>,
    capacity: u32,
    first_free: u32,
    count: u32,
    // Clauses alone read it.
    newest: Snapshot<u64>,
    alloc: Global,
}

impl<T> Model for Pool<T> {
    ghost use Rattle.std.specs.Prelude.{◌≡◌, map};
    ghost use Rattle.entry_pool.specs.Contents.{Contents, contents, contents_code};

    ghost Value = { Contents T };

    ghost coded = { contents_code T.code };

    ghost use Rattle.entry_pool.specs.Slots.{shown, IsSound};

    ghost view = { λ p. contents p.capacity p.newest.value (map shown p.block.items) };

    ghost invariant = { λ p. (p.block.capacity ≡ p.capacity) × (p.block.alloc ≡ p.alloc) × IsSound p.block.items p.links.items p.capacity p.first_free p.count p.newest.value };
}

// The links of so many free slots: each names the next, and the last names none.
fn free_links(alloc: Global, capacity: u32) -> Result<Vec<u32>, NoMemory>
    requires { 0 < capacity }
    ensures { IfOk result (λ links. AreAllFree links.items capacity) }
{
    let mut links = Vec::with_capacity(alloc, capacity as usize)?;
    for next in 1..capacity {
        links.push_reserved(next);
    }
    links.push_reserved(NONE);
    Ok(links)
}

impl<T> Pool<T> {
    ghost use Rattle.entry_pool.specs.PoolLends.{lends_found};

    /// An empty pool for `capacity` values, 1 to 2^30. It takes the memory of them all.
    pub fn new(alloc: Global, capacity: u32) -> Result<Self, NoMemory>
        requires positive { 0 < capacity }
        requires within { capacity ≤ 2 ^ 30 }
        ensures { IfOk result (λ pool. pool ≡ empty capacity) }
    {
        if !Block::<Live<T>>::can_hold(capacity as usize) {
            return Err(NoMemory);
        }
        let links = free_links(alloc, capacity)?;
        let block = Block::allocate(&alloc, capacity as usize)?;
        Ok(Pool {
            block,
            links,
            capacity,
            first_free: 0,
            count: 0,
            newest: Snapshot::of(&0),
            alloc,
        })
    }

    /// How many values fit.
    pub fn capacity(&self) -> u32
        ensures { result ≡ self.now.capacity }
    {
        self.capacity
    }

    /// How many values are live. It also tells that no generation is above the greatest that was used.
    pub fn len(&self) -> u32
        ensures count { result ≡ live_count self.now }
        ensures pool { IsPool self.now }
    {
        self.count
    }

    /// Puts a value into a slot that has none, under a generation greater than all before it. Where every slot has one,
    /// the value comes back and nothing has changed.
    pub fn insert(&mut self, value: T, generation: u64) -> Result<Handle, T>
        requires { self.old.newest < generation }
        ensures refused { IsErr result ↔ IsFull self.old }
        ensures returned { IfErr result (λ back. (back ≡ value) × (self.new ≡ self.old)) }
        ensures generation { IfOk result (λ handle. handle.generation ≡ generation) }
        ensures free { IfOk result (λ handle. (handle.slot < self.old.capacity) × (entry_at self.old handle.slot ≡ None)) }
        ensures inserted { IfOk result (λ handle. self.new ≡ with_inserted self.old handle value) }
    {
        let slot = self.first_free;
        if slot == NONE {
            return Err(value);
        }
        let at = slot as usize;
        self.first_free = self.links[at];
        self.links[at] = FULL;
        self.block.write(at, Live { generation, value });
        self.newest = Snapshot::of(&generation);
        self.count += 1;
        Ok(Handle { slot, generation })
    }

    /// The value that the handle names, if it is live.
    pub fn get(&self, handle: Handle) -> Option<&T>
        ensures { option_copied result ≡ find self.now handle }
    {
        let at = handle.slot as usize;
        if handle.slot >= self.capacity {
            return None;
        }
        if self.links[at] != FULL {
            return None;
        }
        let live = self.block.get(at);
        if live.generation != handle.generation {
            return None;
        }
        Some(&live.value)
    }

    /// The value that the handle names, which is known to be live. It reads nothing beside the value, so that it costs one
    /// wait for memory, where `get` has two.
    pub fn value(&self, handle: Handle) -> &T
        requires { IsSome (find self.now handle) }
        ensures { find self.now handle ≡ Some result.now }
    {
        &self.block.get(handle.slot as usize).value
    }

    /// Puts a value in the place of the one that the handle names, which is known to be live, and gives that one back.
    /// It touches nothing beside the value.
    pub fn replace(&mut self, handle: Handle, value: T) -> T
        requires { IsSome (find self.old handle) }
        ensures before { find self.old handle ≡ Some result }
        ensures replaced { self.new ≡ with_value self.old handle value }
    {
        let at = handle.slot as usize;
        let live = self.block.take(at);
        let Live {
            generation,
            value: before,
        } = live;
        self.block.write(at, Live { generation, value });
        before
    }

    /// The handle of the slot's value, for a walk over the slots: none where the slot has none, or isn't below the
    /// capacity.
    pub fn handle_at(&self, slot: u32) -> Option<Handle>
        ensures { result ≡ specified_handle self.now slot }
    {
        let at = slot as usize;
        if slot >= self.capacity {
            return None;
        }
        if self.links[at] != FULL {
            return None;
        }
        Some(Handle {
            slot,
            generation: self.block.get(at).generation,
        })
    }

    /// The value that the handle names, to write to.
    pub fn get_mut(&mut self, handle: Handle) -> Option<&mut T>
        ensures* writes_back { sem 𝓛 (lends_found T.row self.entry handle result) }
        ensures value { option_copied_mut result ≡ find self.old handle }
    {
        if self.get(handle).is_none() {
            return None;
        }
        let slot = handle.slot as usize;
        Some(self.block.get_mut(slot).value_mut())
    }

    /// Takes the value that the handle names out of its slot. From then on the handle names nothing.
    pub fn remove(&mut self, handle: Handle) -> Option<T>
        ensures value { result ≡ find self.old handle }
        ensures removed { IsSome result → self.new ≡ without self.old handle }
        ensures gone { IsSome result → IsGone self.new handle }
        ensures absent { IfNone result (self.new ≡ self.old) }
    {
        if self.get(handle).is_none() {
            return None;
        }
        let at = handle.slot as usize;
        let Live {
            generation: _,
            value,
        } = self.block.take(at);
        self.links[at] = self.first_free;
        self.first_free = handle.slot;
        self.count -= 1;
        Some(value)
    }
}

// Drops the value of a slot that has one.
fn drop_place<T: Drop>(block: &mut Block<Live<T>>, at: usize, link: u32)
    requires { IsTold link (get_or block.old.items at None) }
    ensures same_block { (block.new.capacity ≡ block.old.capacity) × (block.new.alloc ≡ block.old.alloc) }
    ensures emptied { block.new.items ≡ slice_set block.old.items at None }
{
    if link == FULL {
        drop(block.take(at));
    }
}

// Drops the values of all slots.
fn drop_places<T: Drop>(block: &mut Block<Live<T>>, links: &[u32])
    requires sized { length links.now ≡ length block.old.items }
    requires told { (at : ℕ) → at < length links.now → IsTold (get_or links.now at 0) (get_or block.old.items at None) }
    ensures same_block { (block.new.capacity ≡ block.old.capacity) × (block.new.alloc ≡ block.old.alloc) }
    ensures empty { block.new.items ≡ replicate (length links.now) None }
{
    for at in 0..links.len() {
        drop_place(block, at, links[at]);
    }
}

impl<T: Drop> Drop for Pool<T> {
    fn drop(self) {
        let Pool {
            mut block,
            links,
            capacity: _,
            first_free: _,
            count: _,
            newest: _,
            alloc,
        } = self;
        drop_places(&mut block, links.as_slice());
        block.free(&alloc);
    }
}
