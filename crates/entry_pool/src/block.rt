//! One block of raw memory, taken once; `Pool` calls it. All functions with a pointer stand here.
ghost use Rattle.std.specs.Prelude.{List, ◌≡◌, ◌+◌, ◌<◌, ◌^◌, IsTrue, length, replicate, get_or, slice_set, Option, Some, None, IsSome, IfOk};
ghost use Rattle.std.specs.declared.alloc.Global.{Global};
ghost use Rattle.std.specs.Borrow.{Lends, sem};
ghost use Rattle.std.specs.Vec.Ownership.{FitsInBlock};

use std::alloc::{AllocError, Allocator, Global};
use std::marker::{Model, Send};
use std::mem::{align_of, size_of};

/// The bytes that a block has at most.
const LARGEST: usize = isize::MAX as usize;

/// A block of `capacity` places, each with a value or with nothing. One with nothing is raw memory, whatever it had.
pub(crate) struct Block<T> {
    start: *mut T,
    capacity: usize,
    ghost alloc: { Global },
    ghost items: { List (Option T) },
}

impl<T> Model for Block<T> {
    ghost use Rattle.std.specs.Prelude.{List, Option};
    ghost use Rattle.entry_pool.specs.Owned.{block_owns, block_lends};

    ghost also_owns = { λ b. block_owns (⟦<Global as Allocator>⟧.dealloc_token b.alloc) T.row b.start b.capacity b.items };

    ghost also_shares = { λ b p. block_lends T.row b.start b.capacity b.items };
}

// SAFETY: a block owns its values and the right to free its memory, and neither belongs to a thread.
unsafe impl<T: Send> Send for Block<T> {}

impl<T> Block<T> {
    ghost use Rattle.entry_pool.specs.Blocks.{with_items, lends_item};

    /// Whether a block can have so many places: it has at most `isize::MAX` bytes.
    pub(crate) fn can_hold(count: usize) -> bool
        requires { (0 < count) × (count < 2 ^ 63) }
        ensures { IsTrue result → FitsInBlock T.row count }
    {
        size_of::<T>() <= LARGEST / count
    }

    /// A block in which nothing has been written.
    pub(crate) fn allocate(alloc: &Global, capacity: usize) -> Result<Self, AllocError>
        requires { FitsInBlock T.row capacity }
        ensures { IfOk result (λ block. (block.capacity ≡ capacity) × (block.alloc ≡ alloc.now) × (block.items ≡ replicate capacity None)) }
    {
        match alloc.allocate(capacity * size_of::<T>(), align_of::<T>()) {
            Ok(start) => Ok(Block {
                start: start as *mut T,
                capacity,
            }),
            Err(error) => Err(error),
        }
    }

    /// Gives the memory back. No value is left in it.
    pub(crate) fn free(self, alloc: &Global)
        requires { (self.alloc ≡ alloc.now) × (self.items ≡ replicate self.capacity None) }
    {
        let Block { start, capacity } = self;
        unsafe { alloc.deallocate(start as *mut u8, capacity * size_of::<T>(), align_of::<T>()) }
    }

    /// Writes a place that has nothing.
    pub(crate) fn write(&mut self, at: usize, value: T)
        requires { (at < length self.old.items) × (get_or self.old.items at None ≡ None) }
        ensures { self.new ≡ with_items self.old (slice_set self.old.items at (Some value)) }
    {
        unsafe { self.start.add(at).write(value) }
    }

    /// Takes the value out of a place, which has nothing from then on.
    pub(crate) fn take(&mut self, at: usize) -> T
        requires { IsSome (get_or self.old.items at None) }
        ensures { (get_or self.old.items at None ≡ Some result) × (self.new ≡ with_items self.old (slice_set self.old.items at None)) }
    {
        unsafe { self.start.add(at).read() }
    }

    /// The value of a place.
    pub(crate) fn get(&self, at: usize) -> &T
        requires { IsSome (get_or self.now.items at None) }
        ensures { get_or self.now.items at None ≡ Some result.now }
    {
        unsafe { &*self.start.add(at) }
    }

    /// The value of a place, to write to.
    pub(crate) fn get_mut(&mut self, at: usize) -> &mut T
        requires { IsSome (get_or self.old.items at None) }
        ensures* writes_back { sem 𝓛 (lends_item T.row self.entry at result) }
        ensures value { get_or self.old.items at None ≡ Some result.now }
    {
        unsafe { &mut *self.start.add(at) }
    }
}
