//! The order in which entries expire: distinct slots, linked by their numbers; `stick_pooled` queues the entries without
//! references by it.
//!
//! A slot joins at the back and leaves anywhere in a constant number of steps.
#![tactic(auto)]

ghost use Rattle.std.specs.Prelude.{◌≡◌, ◌≢◌, ◌==◌, if◌then◌else◌, vec_len, ◌^◌, ◌<◌, ◌≤◌, ◌∷◌, ◌++◌, [], IfOk, slice_get};
ghost use Rattle.std.specs.List.{Contains};
ghost use Rattle.expiry_order.specs.Queue.{IsQueue, queue, slot_after, without};
ghost use Rattle.expiry_order.specs.Links.{with_next, with_previous, slot_or_none};

use base_sequence::NoMemory;
use entry_pool::NONE;
use std::alloc::Global;
use std::marker::Model;

/// The neighbours of a slot in the list.
#[derive(Clone, Copy)]
struct Link {
    next: u32,
    previous: u32,
}

/// A list of distinct slots, each below the capacity, from the front to the back.
/// Contracts see the capacity and the list. Only `new` takes memory: 8 bytes a slot.
#[derive(Drop)]
pub struct Order {
    links: Vec<Link>,
    front: u32,
    back: u32,
}

impl Model for Order {
    ghost use Rattle.std.specs.Prelude.{◌≡◌, ◌≢◌, ◌==◌, if◌then◌else◌, vec_len, ◌^◌, ◌≤◌, length, nat_eq};
    ghost use Rattle.std.specs.List.{IsDistinct};
    ghost use Rattle.expiry_order.specs.Queue.{Queue, queue, queue_code};

    ghost Value = { Queue };

    ghost coded = { queue_code };

    ghost use Rattle.expiry_order.specs.Links.{slots_from, IsLinked};
    ghost use Rattle.entry_pool.specs.declared.slot_handle.TheConstants.{NONE};

    ghost view = { λ o. queue (length o.links.items) (slots_from o.links.items o.front) };

    ghost invariant = { λ o. (length o.links.items ≤ 2 ^ 30)
        × IsLinked o.links.items NONE o.front o.back NONE (slots_from o.links.items o.front)
        × IsDistinct nat_eq (slots_from o.links.items o.front) };
}

fn some_slot(slot: u32) -> Option<u32>
    ensures { result ≡ slot_or_none slot }
{
    if slot == NONE { None } else { Some(slot) }
}

// Names the next of a slot, or the front where there is no slot.
fn set_next(links: &mut Vec<Link>, front: &mut u32, slot: u32, next: u32)
    requires { slot ≢ NONE → slot < vec_len links.old }
    ensures links { links.new.items ≡ with_next links.old.items slot next }
    ensures front { front.new ≡ (if slot == NONE then next else front.old) }
{
    if slot == NONE {
        *front = next;
    } else {
        links[slot as usize].next = next;
    }
}

// Names the previous of a slot, or the back where there is no slot.
fn set_previous(links: &mut Vec<Link>, back: &mut u32, slot: u32, previous: u32)
    requires { slot ≢ NONE → slot < vec_len links.old }
    ensures links { links.new.items ≡ with_previous links.old.items slot previous }
    ensures back { back.new ≡ (if slot == NONE then previous else back.old) }
{
    if slot == NONE {
        *back = previous;
    } else {
        links[slot as usize].previous = previous;
    }
}

impl Order {
    /// An empty list for the slots below `capacity`, which is 1 to 2^30. It takes the memory of all its links.
    pub fn new(alloc: Global, capacity: u32) -> Result<Self, NoMemory>
        requires positive { 0 < capacity }
        requires within { capacity ≤ 2 ^ 30 }
        ensures { IfOk result (λ order. order ≡ queue capacity []) }
    {
        let alone = Link {
            next: NONE,
            previous: NONE,
        };
        Ok(Order {
            links: Vec::from_elem(alloc, alone, capacity as usize)?,
            front: NONE,
            back: NONE,
        })
    }

    /// The first slot, or `None` where the list is empty. It also tells that the slots are distinct and below the capacity.
    pub fn front(&self) -> Option<u32>
        ensures first { result ≡ slice_get self.now.slots 0 }
        ensures queue { IsQueue self.now }
    {
        some_slot(self.front)
    }

    /// The slot after this one, or `None` where this is the last.
    pub fn after(&self, slot: u32) -> Option<u32>
        requires { Contains self.now.slots slot }
        ensures { result ≡ slot_after self.now.slots slot }
    {
        some_slot(self.links[slot as usize].next)
    }

    /// Puts a slot that is not in the list at the back.
    pub fn push_back(&mut self, slot: u32)
        requires below { slot < self.old.capacity }
        requires absent { ¬ (Contains self.old.slots slot) }
        ensures { self.new ≡ queue self.old.capacity (self.old.slots ++ slot ∷ []) }
    {
        self.links[slot as usize] = Link {
            next: NONE,
            previous: self.back,
        };
        set_next(&mut self.links, &mut self.front, self.back, slot);
        self.back = slot;
    }

    /// Takes a slot out. The others keep their order.
    pub fn remove(&mut self, slot: u32)
        requires { Contains self.old.slots slot }
        ensures { self.new ≡ queue self.old.capacity (without self.old.slots slot) }
    {
        let Link { next, previous } = self.links[slot as usize];
        set_next(&mut self.links, &mut self.front, previous, next);
        set_previous(&mut self.links, &mut self.back, next, previous);
    }
}
