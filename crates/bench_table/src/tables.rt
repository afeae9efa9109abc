//! Times the events of a table that is full.

ghost use Rattle.std.specs.Prelude.{◌≤◌, ◌^◌};

use crate::full_table::{FullTable, Work};
use std::alloc::Global;
use std::io;
use std::io::Print;
use std::rt::Clock;
use std::time::{Duration, Instant};
use stick_table::Table;
use test_calls::Random;

/// Prints the least time of five runs, in tenths of a nanosecond for each round, and how many events were refused.
fn print_time<T: Table, R: Clock + Print>(
    rt: &R,
    full: &mut FullTable<T>,
    name: &str,
    work: Work,
    count: u32,
) -> io::Result<()> {
    let mut random = Random::new(1);
    let mut least = u128::MAX;
    let mut refused: u64 = 0;
    for _run in 0..5usize {
        let start = Instant::now(rt)?;
        refused = refused.saturating_add(full.run(work, &mut random, count)?);
        let time: Duration = start.elapsed(rt)?;
        least = least.min(time.as_nanos());
    }
    let tenths = least.saturating_mul(10) / u128::from(count.max(1));
    println!(rt;
        "{name}: {}.{} ns ({refused} refused)",
        tenths / 10,
        tenths % 10
    )
}

static WORKS: [(&str, Work); 6] = [
    ("get", Work::Get),
    ("put on an entry", Work::Put),
    ("track, release", Work::Track),
    ("track, count, look, release", Work::Connect),
    ("expire", Work::Expire),
    ("put on a new key, the oldest purged", Work::Renew),
];

/// Prints the times of so many rounds on a table of this size, which removes so many entries at once where it is full. New
/// keys come last: until then each place is taken.
pub fn print_table_times<T: Table, R: Clock + Print>(
    rt: &R,
    alloc: Global,
    size: u32,
    count: u32,
    purge: u32,
) -> io::Result<()>
    requires size { (1 ≤ size) × (size ≤ 2 ^ 30) }
    requires purge { (1 ≤ purge) × (purge ≤ 1024) }
{
    let mut full = FullTable::<T>::new(alloc, size, purge)?;
    for (name, work) in WORKS.iter() {
        print_time(rt, &mut full, name, *work, count)?;
    }
    Ok(())
}
