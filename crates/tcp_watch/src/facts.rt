//! What is told of the program's tables; `Teller` asks for it.

ghost use Rattle.std.specs.Prelude.{◌≡◌, ◌<◌, ◌^◌, ◌≤◌, length, IfOk};

use base_clock::Clock;
use base_sequence::NoMemory;
use shard_book::{Keeper, Named};
use std::alloc::Global;
use std::str;
use table_cli::count_entries;
use table_texts::Message;
use tcp_stats::TableFacts;

/// How many entries each table has, in their order. Each shard is asked in turn, under its own lock.
pub fn count_each<K: Keeper, C: Clock>(
    alloc: Global,
    tables: &mut [Named<K>],
    clock: &mut C,
) -> Result<Vec<u64>, Message>
    ensures each { IfOk result (λ used. length used.items ≡ length tables.new) }
    ensures tables { length tables.new ≡ length tables.old }
{
    let mut used = Vec::new(alloc);
    for place in 0..tables.len() {
        let count = match count_entries(&mut tables[place].keeper, clock.now()) {
            Ok(count) => count,
            Err(message) => return Err(message),
        };
        if used.push(count).is_err() {
            return Err(Message::OutOfMemory);
        }
    }
    Ok(used)
}

/// The facts of a table that has so many entries. The lock of each shard is taken in turn, for as long as two numbers are read.
fn table_facts<'a, K: Keeper>(named: &'a Named<K>, used: u64) -> TableFacts<'a> {
    let mut references = 0u64;
    let mut purged = 0u64;
    for shard in 0..named.keeper.shards() {
        let one = named.keeper.occupancy(shard);
        references = references.saturating_add(u64::from(one.references));
        purged = purged.wrapping_add(one.purged);
    }
    TableFacts {
        name: str::from_utf8(named.name.as_slice()).unwrap_or("?"),
        size: u64::from(named.keeper.size()),
        used,
        references,
        purged,
    }
}

/// The facts of each table, which has so many entries, in their order.
pub fn facts_of<'a, K: Keeper>(
    alloc: Global,
    tables: &'a [Named<K>],
    used: &[u64],
) -> Result<Vec<TableFacts<'a>>, NoMemory> {
    let mut facts = Vec::new(alloc);
    for (named, used) in tables.iter().zip(used) {
        facts.push(table_facts(named, *used))?;
    }
    Ok(facts)
}
