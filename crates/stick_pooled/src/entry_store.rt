//! The entries of a table: pool, index, order and rows as one map from keys, with one queue; all parts of `StickTable` use it.

ghost use Rattle.std.specs.Prelude.{◌≡◌, ◌<◌, ◌≢◌, IsSome};
ghost use Rattle.std.specs.List.{Contains};
ghost use Rattle.stick_pooled.specs.Stock.{entered};
ghost use Rattle.entry_pool.specs.Contents.{find as find_in_pool, with_value as with_pool_value};
ghost use Rattle.expiry_order.specs.Queue.{queue as order_of, slot_after, without};

use crate::entry::{Entry, Kept, Point};
use crate::entry_images::{copy_image, keep_image};
use crate::slot_images::Images;
use crate::value_rows::Rows;
use base_sequence::NoMemory;
use entry_pool::{Handle, Pool};
use expiry_order::Order;
use key_index::Index;
use std::alloc::Global;
use std::marker::Model;
use stick_key::StickKey;
use stored_data::{Act, Field, StoredSet, Values};

/// The entries of a table by their keys, and the slots of those that no reference holds, in a queue. Contracts see what
/// each slot has, the queue, and the base: what each slot had when `set_base` was called last. Only `open`, `set_base` and
/// what copies data take memory.
#[derive(Drop)]
pub struct Store {
    entries: Pool<Entry>,
    index: Index,
    order: Order,
    rows: Rows,
    /// What the slots that have changed since had at the base.
    images: Images,
    /// How many entries went to make room for others, modulo 2^64. Contracts don't see it.
    purged: u64,
}

impl Model for Store {
    ghost use Rattle.stick_pooled.specs.Stock.{Stock, IsStock};

    ghost Value = { Stock };

    ghost use Rattle.stick_pooled.specs.Parts.{slots_in, base_shown, shown, AreParts, IsAlbumOf};

    ghost view = { λ s. shown s.entries s.index s.order s.rows (base_shown s.entries s.index s.rows s.images) };

    ghost invariant = { λ s. AreParts s.entries s.index s.order s.rows × (IsStock (shown s.entries s.index s.order s.rows (base_shown s.entries s.index s.rows s.images))
        × IsAlbumOf s.rows.columns (slots_in s.entries.slots s.index.slots s.rows.rows) s.images) };
}

// Writes the entry that a handle finds.
fn write(entries: &mut Pool<Entry>, handle: Handle, entry: Entry)
    requires { IsSome (find_in_pool entries.old handle) }
    ensures { entries.new ≡ with_pool_value entries.old handle entry }
{
    let _before = entries.replace(handle, entry);
}

// Takes a slot out of the queue, where no reference holds its entry.
fn leave(order: &mut Order, slot: u32, refs: u32)
    requires inside { refs ≡ 0 → Contains order.old.slots slot }
    requires outside { refs ≢ 0 → ¬ (Contains order.old.slots slot) }
    ensures { order.new ≡ order_of order.old.capacity (without order.old.slots slot) }
{
    if refs == 0 {
        order.remove(slot);
    }
}

// Puts a slot at the back of the queue, where no reference holds its entry.
fn enter(order: &mut Order, slot: u32, refs: u32)
    requires below { slot < order.old.capacity }
    requires outside { ¬ (Contains order.old.slots slot) }
    ensures { order.new ≡ order_of order.old.capacity (entered order.old.slots slot refs) }
{
    if refs == 0 {
        order.push_back(slot);
    }
}

impl Store {
    ghost use Rattle.std.specs.Prelude.{◌≡◌, ◌<◌, ◌≤◌, ◌^◌, IsSome, IfOk, IfSome, IfNone, OnOk, OnErr, Some, None, length, get_or, slice_get};
    ghost use Rattle.std.specs.Option.{option_map};
    ghost use Rattle.std.specs.List.{Contains};
    ghost use Rattle.stored_data.specs.Acts.{acted, answer, value_at, with_value, zero_of};
    ghost use Rattle.stored_data.specs.Words.{fields_in, width};
    ghost use Rattle.stick_pooled.specs.Stock.{Held, IsStock, IsAt, IsAbsent, empty, held_at, held_count, kept_at, kept_of, kept_slots, with_base, with_inserted, without_slot, with_entry, with_values};

    /// A store of `size` slots, 1 to 2^30, for data of these columns. It takes the memory of them all. The seed changes
    /// nothing that contracts see.
    pub fn open(alloc: Global, size: u32, columns: StoredSet, seed: u64) -> Result<Store, NoMemory>
        requires positive { 0 < size }
        requires within { size ≤ 2 ^ 30 }
        ensures { IfOk result (λ store. store ≡ empty size columns) }
    {
        let rows = Rows::new(alloc, size, columns)?;
        let images = Images::new(alloc, size, rows.width())?;
        Ok(Store {
            entries: Pool::new(alloc, size)?,
            index: Index::new(alloc, size, seed)?,
            order: Order::new(alloc, size)?,
            rows,
            images,
            purged: 0,
        })
    }

    /// How many entries there are.
    pub fn len(&self) -> u32
        ensures { result ≡ held_count self.now }
    {
        self.entries.len()
    }

    /// The handle of a key's entry, or none. It also tells what every store keeps.
    pub fn find(&self, key: &StickKey) -> Option<Handle>
        ensures found { IfSome result (λ handle. IsAt self.now key.now handle) }
        ensures absent { IfNone result (IsAbsent self.now key.now) }
        ensures stock { IsStock self.now }
    {
        self.index.get(key)
    }

    /// The first slot of the queue.
    pub fn front(&self) -> Option<u32>
        ensures first { result ≡ slice_get self.now.queue 0 }
        ensures stock { IsStock self.now }
    {
        self.order.front()
    }

    /// The slot after this one in the queue, or `None` where it is the last.
    pub fn after(&self, slot: u32) -> Option<u32>
        requires { Contains self.now.queue slot }
        ensures { result ≡ slot_after self.now.queue slot }
    {
        self.order.after(slot)
    }

    /// The handle of a slot's entry, for a walk over the slots.
    pub fn handle_at(&self, slot: u32) -> Option<Handle>
        ensures { result ≡ option_map (λ (held : Held). record { slot = slot; generation = held.generation }) (held_at self.now slot) }
    {
        self.entries.handle_at(slot)
    }

    /// The entry of a slot that has one.
    pub fn entry(&self, slot: u32) -> Entry
        requires { IsSome (held_at self.now slot) }
        ensures { option_map (λ (held : Held). held.entry) (held_at self.now slot) ≡ Some result }
    {
        *self.entries.value(self.index.handle_of(slot))
    }

    /// The key of a slot that has an entry.
    pub fn key(&self, slot: u32) -> &StickKey
        requires { IsSome (held_at self.now slot) }
        ensures { option_map (λ (held : Held). held.key) (held_at self.now slot) ≡ Some result.now }
    {
        self.index.key_of(slot)
    }

    /// What a field of a slot's entry shows at a moment in ms.
    pub fn get(&self, slot: u32, field: Field, now: u64) -> Option<u64>
        requires { IsSome (held_at self.now slot) }
        ensures { (held : Held) → held_at self.now slot ≡ Some held → result ≡ value_at held.values field now }
    {
        self.rows.get(slot, field, now)
    }

    /// The words of the data of a slot's entry.
    pub fn words(&self, slot: u32) -> &[u64]
        requires { IsSome (held_at self.now slot) }
        ensures data { (held : Held) → held_at self.now slot ≡ Some held → fields_in self.now.columns result.now ≡ held.values }
        ensures sized { length result.now ≡ width self.now.columns }
    {
        self.rows.row(slot)
    }

    /// A copy of the data of a slot's entry, where there is memory.
    pub fn values(&self, slot: u32) -> Result<Values, NoMemory>
        requires { IsSome (held_at self.now slot) }
        ensures { IfOk result (λ values. (held : Held) → held_at self.now slot ≡ Some held → values ≡ held.values) }
    {
        self.rows.values(slot)
    }

    /// Gives a key that has no entry one in a slot that has none, with nothing counted, under a generation greater than
    /// all before it. Where no reference holds it, its slot comes to the back of the queue.
    pub fn insert(&mut self, key: StickKey, entry: Entry, generation: u64) -> Handle
        requires newer { self.old.newest < generation }
        requires absent { IsAbsent self.old key }
        requires room { held_count self.old < length self.old.slots }
        ensures generation { result.generation ≡ generation }
        ensures below { result.slot < length self.old.slots }
        ensures free { held_at self.old result.slot ≡ None }
        ensures inserted { self.new ≡ with_inserted self.old result.slot (record { key = key; generation = generation; entry = entry; values = zero_of self.old.columns }) }
    {
        match self.entries.insert(entry, generation) {
            Ok(handle) => {
                self.images.keep_empty(handle.slot);
                self.index.insert(key, handle);
                self.rows.clear(handle.slot);
                enter(&mut self.order, handle.slot, entry.refs);
                handle
            }
            Err(_entry) => unreachable!(),
        }
    }

    /// Takes out the entry of a slot of the queue.
    pub fn remove(&mut self, slot: u32)
        requires { Contains self.old.queue slot }
        ensures { self.new ≡ without_slot self.old slot }
    {
        let handle = self.index.handle_of(slot);
        keep_image(
            &mut self.images,
            &self.entries,
            &self.index,
            &self.rows,
            slot,
        );
        self.order.remove(slot);
        let _gone = self.entries.remove(handle);
        self.images.keep_key(slot, self.index.remove_slot(slot));
    }

    /// One entry more went to make room for another.
    pub fn note_purged(&mut self)
        ensures { self.new ≡ self.old }
    {
        self.purged = self.purged.wrapping_add(1);
    }

    /// How many entries `note_purged` has counted, modulo 2^64.
    pub fn purged(&self) -> u64 {
        self.purged
    }

    /// Writes the entry of a slot that has one, and moves its slot to the back of the queue, or, where a reference holds
    /// it, out of the queue.
    ///
    /// It is put into its callers, so that the entry stays in registers: read from memory just behind the writes of its parts, it waits
    /// until these are through.
    #[inline(always)]
    pub fn refresh(&mut self, slot: u32, entry: Entry)
        requires { IsSome (held_at self.old slot) }
        ensures { self.new ≡ with_entry self.old slot entry }
    {
        let before = self.entry(slot);
        let handle = self.index.handle_of(slot);
        keep_image(
            &mut self.images,
            &self.entries,
            &self.index,
            &self.rows,
            slot,
        );
        leave(&mut self.order, slot, before.refs);
        write(&mut self.entries, handle, entry);
        enter(&mut self.order, slot, entry.refs);
    }

    /// Does an act to the data of a slot's entry at a moment in ms, and answers what `Values::act` does.
    pub fn act(&mut self, slot: u32, now: u64, act: Act) -> Option<u64>
        requires { IsSome (held_at self.old slot) }
        ensures acted { self.new ≡ with_values self.old slot (λ values. acted values now act) }
        ensures answer { (held : Held) → held_at self.old slot ≡ Some held → result ≡ answer held.values now act }
    {
        keep_image(
            &mut self.images,
            &self.entries,
            &self.index,
            &self.rows,
            slot,
        );
        self.rows.act(slot, now, act)
    }

    /// Puts a value into a field of a slot's entry, as `Values::put`.
    #[inline(always)]
    pub fn put(&mut self, slot: u32, field: Field, value: u64)
        requires { IsSome (held_at self.old slot) }
        ensures { self.new ≡ with_values self.old slot (λ values. with_value values field value) }
    {
        keep_image(
            &mut self.images,
            &self.entries,
            &self.index,
            &self.rows,
            slot,
        );
        self.rows.put(slot, field, value);
    }

    /// Makes what the slots have now the base. Where a growth is refused, nothing changes.
    pub fn set_base(&mut self, alloc: Global) -> Result<(), NoMemory>
        requires { length self.old.slots ≤ 2 ^ 30 }
        ensures ok { OnOk result (self.new ≡ with_base self.old) }
        ensures err { OnErr result (self.new ≡ self.old) }
    {
        let size = self.entries.capacity();
        self.images.renew(alloc, size)?;
        Ok(())
    }

    /// A slot's entry as it would be kept for a base, where there is memory.
    pub fn current(&self, slot: u32) -> Result<Option<Kept>, NoMemory>
        ensures { IfOk result (λ kept. kept ≡ option_map kept_of (held_at self.now slot)) }
    {
        if self.handle_at(slot).is_none() {
            return Ok(None);
        }
        let key = self.key(slot).copy()?;
        let entry = self.entry(slot);
        let values = self.values(slot)?;
        Ok(Some(Kept {
            key,
            stamp: entry.stamp,
            moment: entry.moment,
            values,
        }))
    }

    /// What a slot had at the base, where there is memory.
    pub fn kept(&self, slot: u32) -> Result<Option<Kept>, NoMemory>
        requires { slot < length self.now.slots }
        ensures { IfOk result (λ kept. kept ≡ kept_at self.now slot) }
    {
        if self.images.has_empty(slot) {
            return Ok(None);
        }
        if !self.images.has(slot) {
            return self.current(slot);
        }
        let kept = copy_image(&self.images, &self.index, &self.rows, slot)?;
        Ok(Some(kept))
    }

    /// What a slot has, or had at the base, where there is memory.
    pub fn slot_at(&self, point: Point, slot: u32) -> Result<Option<Kept>, NoMemory>
        requires { slot < length self.now.slots }
        ensures { IfOk result (λ kept. kept ≡ get_or (kept_slots point self.now) slot None) }
    {
        match point {
            Point::Now => self.current(slot),
            Point::Base => self.kept(slot),
        }
    }
}
