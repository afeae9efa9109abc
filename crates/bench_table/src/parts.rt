//! Times the parts of the pooled table, with every slot in use; `benches/parts.rs` makes the same calls in Rust.

use crate::full_index::{FullIndex, keys_from};
use crate::full_order::FullOrder;
use crate::full_pool::FullPool;
use crate::random::{Random, SLOTS};
use std::alloc::{AllocError, Global};
use std::io;
use std::io::Print;
use std::rt::Clock;
use std::time::{Duration, Instant};
use stick_key::StickKey;

/// An index, the keys that it has, and others.
#[derive(Drop)]
struct Keyed {
    index: FullIndex,
    keys: Vec<StickKey>,
    others: Vec<StickKey>,
}

impl Keyed {
    fn new(alloc: Global, wide: bool) -> Result<Keyed, AllocError> {
        Ok(Keyed {
            index: FullIndex::new(alloc, wide)?,
            keys: keys_from(alloc, 0, wide)?,
            others: keys_from(alloc, SLOTS, wide)?,
        })
    }
}

/// The parts, filled.
#[derive(Drop)]
struct Parts {
    pool: FullPool,
    narrow: Keyed,
    wide: Keyed,
    order: FullOrder,
}

/// What is timed.
#[derive(Clone, Copy)]
enum Work {
    Replace,
    Read,
    Find,
    Miss,
    PutBack,
    FindWide,
    MissWide,
    PutBackWide,
    Refresh,
    Walk,
}

impl Parts {
    fn new(alloc: Global) -> Result<Parts, AllocError> {
        Ok(Parts {
            pool: FullPool::new(alloc)?,
            narrow: Keyed::new(alloc, false)?,
            wide: Keyed::new(alloc, true)?,
            order: FullOrder::new(alloc)?,
        })
    }

    /// So many rounds of a work, and what they made.
    fn run(&mut self, work: Work, random: &mut Random, count: u32) -> u64 {
        match work {
            Work::Replace => self.pool.replace_many(random, count),
            Work::Read => self.pool.read_many(random, count),
            Work::Find => self
                .narrow
                .index
                .find_many(&self.narrow.keys, random, count),
            Work::Miss => self
                .narrow
                .index
                .find_many(&self.narrow.others, random, count),
            Work::PutBack => self.narrow.index.put_back_many(random, count),
            Work::FindWide => self.wide.index.find_many(&self.wide.keys, random, count),
            Work::MissWide => self.wide.index.find_many(&self.wide.others, random, count),
            Work::PutBackWide => self.wide.index.put_back_many(random, count),
            Work::Refresh => self.order.refresh_many(random, count),
            Work::Walk => self.order.walk(count),
        }
    }
}

/// Prints the least time of five runs, in tenths of a nanosecond for each round, and what all made.
fn print_time<R: Clock + Print>(
    rt: &R,
    parts: &mut Parts,
    name: &str,
    work: Work,
    count: u32,
) -> io::Result<()> {
    let mut random = Random { state: 1 };
    let mut least = u128::MAX;
    let mut made: u64 = 0;
    for _run in 0..5usize {
        let start = Instant::now(rt)?;
        made = made.wrapping_add(parts.run(work, &mut random, count));
        let time: Duration = start.elapsed(rt)?;
        least = least.min(time.as_nanos());
    }
    let tenths = least.saturating_mul(10) / u128::from(count.max(1));
    println!(rt; "{name}: {}.{} ns ({made})", tenths / 10, tenths % 10)
}

static WORKS: [(&str, Work); 10] = [
    ("pool: remove, insert", Work::Replace),
    ("pool: get", Work::Read),
    ("index, keys of 4 bytes: get", Work::Find),
    ("index, keys of 4 bytes: get an absent one", Work::Miss),
    ("index, keys of 4 bytes: remove_slot, insert", Work::PutBack),
    ("index, keys of 16 bytes: get", Work::FindWide),
    ("index, keys of 16 bytes: get an absent one", Work::MissWide),
    (
        "index, keys of 16 bytes: remove_slot, insert",
        Work::PutBackWide,
    ),
    ("order: remove, push_back", Work::Refresh),
    ("order: after", Work::Walk),
];

/// Prints the times of so many rounds of each part.
pub fn print_part_times<R: Clock + Print>(rt: &R, alloc: Global, count: u32) -> io::Result<()> {
    let mut parts = Parts::new(alloc)?;
    for (name, work) in WORKS.iter() {
        print_time(rt, &mut parts, name, *work, count)?;
    }
    Ok(())
}
