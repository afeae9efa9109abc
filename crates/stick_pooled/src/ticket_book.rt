//! The references that are out: each has a ticket, and names the slot of its entry; `StickTable` keeps one book.

use crate::numbers::by_number;
use base_sequence::NoMemory;
use entry_pool::{Handle, Pool};
use std::alloc::Global;
use std::marker::Model;
use stick_model::Ticket;

/// The tickets that are out, each with the slot of its entry. Contracts see them as a list, the oldest first. Only `new`
/// takes memory.
#[derive(Drop)]
pub struct TicketBook {
    places: Pool<u32>,
}

impl Model for TicketBook {
    ghost use Rattle.stick_pooled.specs.Tickets.{Tickets};

    ghost Value = { Tickets };

    ghost use Rattle.stick_pooled.specs.Places.{shown, IsSound};

    ghost view = { λ b. shown b.places };

    ghost invariant = { λ b. IsSound b.places };
}

impl TicketBook {
    ghost use Rattle.std.specs.Prelude.{◌≡◌, ◌<◌, ◌≤◌, ◌^◌, IfOk, IsSome, Some, length, true};
    ghost use Rattle.stick_pooled.specs.Tickets.{entry_of, is_unused, no_tickets, with_ticket, without_ticket};

    /// A book for `capacity` tickets, 1 to 2^30, with none out. It takes the memory of them all.
    pub fn new(alloc: Global, capacity: u32) -> Result<TicketBook, NoMemory>
        requires positive { 0 < capacity }
        requires within { capacity ≤ 2 ^ 30 }
        ensures { IfOk result (λ book. book ≡ no_tickets capacity) }
    {
        Ok(TicketBook {
            places: Pool::new(alloc, capacity)?,
        })
    }

    /// How many tickets are out.
    pub fn len(&self) -> u32
        ensures { result ≡ length self.now.tickets }
    {
        self.places.len()
    }

    /// The slot of the entry of a ticket, where it is out.
    pub fn find(&self, ticket: Ticket) -> Option<u32>
        ensures { result ≡ entry_of ticket self.now }
    {
        let handle = Handle {
            slot: ticket.slot,
            generation: ticket.number,
        };
        self.places.get(handle).copied()
    }

    /// The slot of the entry of a ticket that is known to be out. It reads one place of memory, where `find` reads two.
    pub fn entry(&self, ticket: Ticket) -> u32
        requires { IsSome (entry_of ticket self.now) }
        ensures { entry_of ticket self.now ≡ Some result }
    {
        let handle = Handle {
            slot: ticket.slot,
            generation: ticket.number,
        };
        *self.places.value(handle)
    }

    /// Makes a ticket of a number greater than all before it, for the entry of a slot.
    pub fn insert(&mut self, number: u64, entry: u32) -> Ticket
        requires newer { self.old.newest < number }
        requires room { length self.old.tickets < self.old.capacity }
        ensures number { result.number ≡ number }
        ensures below { result.slot < self.old.capacity }
        ensures unused { is_unused result.slot self.old ≡ true }
        ensures inserted { self.new ≡ with_ticket self.old result entry }
    {
        match self.places.insert(entry, number) {
            Ok(handle) => Ticket {
                number,
                slot: handle.slot,
            },
            Err(_entry) => unreachable!(),
        }
    }

    /// Takes a ticket back, and answers the slot of its entry. Where it isn't out, nothing changes.
    pub fn remove(&mut self, ticket: Ticket) -> Option<u32>
        ensures value { result ≡ entry_of ticket self.old }
        ensures removed { self.new ≡ without_ticket self.old ticket }
    {
        let handle = Handle {
            slot: ticket.slot,
            generation: ticket.number,
        };
        self.places.remove(handle)
    }

    /// The tickets that are out, each with the slot of its entry, the oldest first.
    pub fn to_vec(&self, alloc: Global) -> Result<Vec<(Ticket, u32)>, NoMemory>
        ensures { IfOk result (λ tickets. tickets.items ≡ self.now.tickets) }
    {
        let mut tickets = Vec::with_capacity(alloc, self.len() as usize)?;
        for (number, (slot, entry)) in by_number(alloc, &self.places)? {
            tickets.push((Ticket { number, slot }, entry))?;
        }
        Ok(tickets)
    }
}
