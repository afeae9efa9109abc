//! An index in which every slot has a key.
ghost use Rattle.std.specs.Prelude.{◌≡◌, ◌<◌, ◌≤◌, ℕ, IsSome, None};
ghost use Rattle.key_index.specs.Keys.{capacity_of, entry_at};
ghost use Rattle.bench_table.specs.declared.random.TheConstants.{SLOTS};

use crate::converting::key_of;
use crate::random::{Random, SLOTS};
use key_index::{Handle, Index};
use std::alloc::{AllocError, Global};
use stick_key::{KeyType, Sample, StickKey};

/// The key of an address that has this number, of IPv4 or of IPv6.
fn key(alloc: Global, number: u32, wide: bool) -> Result<StickKey, AllocError> {
    let [a, b, c, d] = number.to_be_bytes();
    let (sample, kind) = if wide {
        (
            Sample::V6([0x20, 1, 0x0d, 0xb8, 0, 0, 0, 0, 0, 0, 0, 0, a, b, c, d]),
            KeyType::Ipv6,
        )
    } else {
        (Sample::V4([a, b, c, d]), KeyType::Ip)
    };
    key_of(alloc, &sample, kind)
}

/// Keys of so many addresses from this one on.
pub fn keys_from(alloc: Global, first: u32, wide: bool) -> Result<Vec<StickKey>, AllocError> {
    let mut keys = Vec::new(alloc);
    for number in 0..SLOTS {
        keys.push(key(alloc, first.wrapping_add(number), wide)?)?;
    }
    Ok(keys)
}

/// An index in which every slot has a key.
#[derive(Drop)]
pub struct FullIndex {
    index: Index,
    ghost sized: { capacity_of index ≡ SLOTS },
    ghost full: { (slot : ℕ) → slot < SLOTS → IsSome (entry_at index slot) },
}

impl FullIndex {
    /// An index with a key in every slot: of 16 bytes where it is wide, else of 4.
    pub fn new(alloc: Global, wide: bool) -> Result<FullIndex, AllocError> {
        let mut index = Index::new(alloc, SLOTS, 7)?;
        for slot in 0..SLOTS {
            let key = key(alloc, slot, wide)?;
            match index.get(&key) {
                None => index.insert(
                    key,
                    Handle {
                        slot,
                        generation: 2,
                    },
                ),
                Some(_) => return Err(AllocError),
            }
        }
        Ok(FullIndex { index })
    }

    /// Looks one of these keys up.
    fn find(&self, keys: &[StickKey], place: u32) -> u64 {
        let Some(key) = keys.get(place as usize) else {
            return 0;
        };
        match self.index.get(key) {
            Some(handle) => handle.generation,
            None => 1,
        }
    }

    /// Takes the key of a slot out and puts it back.
    fn put_back(&mut self, slot: u32) -> u64
        requires { slot < SLOTS }
    {
        let key = self.index.remove_slot(slot);
        self.index.insert(
            key,
            Handle {
                slot,
                generation: 2,
            },
        );
        1
    }

    /// Looks so many of these keys up.
    pub fn find_many(&self, keys: &[StickKey], random: &mut Random, count: u32) -> u64 {
        let mut sum: u64 = 0;
        for _round in 0..count {
            sum = sum.wrapping_add(self.find(keys, random.slot()));
        }
        sum
    }

    /// Takes so many keys out and puts them back.
    pub fn put_back_many(&mut self, random: &mut Random, count: u32) -> u64 {
        let mut sum: u64 = 0;
        for _round in 0..count {
            sum = sum.wrapping_add(self.put_back(random.slot()));
        }
        sum
    }
}
