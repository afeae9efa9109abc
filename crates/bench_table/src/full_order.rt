//! An order that has every slot.
ghost use Rattle.std.specs.Prelude.{◌≡◌, ◌<◌, ℕ, IsTrue, nat_eq};
ghost use Rattle.std.specs.List.{list_any};
ghost use Rattle.bench_table.specs.declared.random.TheConstants.{SLOTS};

use crate::random::{Random, SLOTS};
use expiry_order::Order;
use std::alloc::{AllocError, Global};

/// An order that has every slot.
#[derive(Drop)]
pub struct FullOrder {
    order: Order,
    ghost sized: { order.capacity ≡ SLOTS },
    ghost full: { (slot : ℕ) → slot < SLOTS → IsTrue (list_any (nat_eq slot) order.slots) },
}

impl FullOrder {
    /// An order that has every slot.
    pub fn new(alloc: Global) -> Result<FullOrder, AllocError> {
        let mut order = Order::new(alloc, SLOTS)?;
        for slot in 0..SLOTS {
            order.push_back(slot);
        }
        Ok(FullOrder { order })
    }

    /// Moves a slot to the back.
    fn refresh(&mut self, slot: u32) -> u64
        requires { slot < SLOTS }
    {
        self.order.remove(slot);
        self.order.push_back(slot);
        u64::from(slot)
    }

    /// Goes so many slots on, from the front to the back and again.
    pub fn walk(&self, count: u32) -> u64 {
        let mut sum: u64 = 0;
        let mut at = self.order.front();
        for _step in 0..count {
            at = match at {
                Some(slot) if slot < SLOTS => {
                    sum = sum.wrapping_add(u64::from(slot));
                    self.order.after(slot)
                }
                _ => self.order.front(),
            };
        }
        sum
    }

    /// Moves so many slots to the back.
    pub fn refresh_many(&mut self, random: &mut Random, count: u32) -> u64 {
        let mut sum: u64 = 0;
        for _round in 0..count {
            sum = sum.wrapping_add(self.refresh(random.slot()));
        }
        sum
    }
}
