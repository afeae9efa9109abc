//! How a table spreads keys over chains, which no contract says: by its seed.

ghost use Rattle.stick_model.specs.Limits.{IsTableSpec};

use crate::calls::{open, step};
use base_sequence::{NoMemory, Sequence};
use core::hash::keyed_hasher;
use std::alloc::Global;
use std::hash::Hasher;
use std::test::Fail;
use std::time::{Duration, Instant};
use stick_key::{KeyType, Sample, StickKey, convert};
use stick_pooled::StickTable;
use stick_table::{Event, Reply, Spec};
use stored_data::StoredSet;

/// The places of a table whose index has 1,024 chains, and so many keys.
const PLACES: u32 = 512;

/// The key of an IPv4 address.
fn key_of(alloc: Global, address: u32) -> Result<StickKey, NoMemory> {
    match convert(alloc, &Sample::V4(address.to_be_bytes()), KeyType::Ip) {
        Ok(Some(key)) => Ok(key),
        _ => Err(NoMemory),
    }
}

/// Keys that have one chain where the seed is 0: the low ten bits of their hash are the same.
fn keys_of_one_chain(alloc: Global) -> Result<Vec<StickKey>, NoMemory> {
    let mut keys = Vec::new(alloc);
    for address in 0..2_000_000u32 {
        let mut hasher = keyed_hasher(0, 0);
        hasher.write(&address.to_be_bytes());
        if hasher.finish() % 1_024 == 0 {
            keys.push(key_of(alloc, address)?)?;
        }
        if keys.len() == PLACES as usize {
            break;
        }
    }
    Ok(keys)
}

/// What a table of addresses is made with, by a seed.
fn spec(alloc: Global, seed: u64) -> Spec
    ensures { IsTableSpec result }
{
    Spec {
        kind: KeyType::Ip,
        size: PLACES,
        expire: None,
        nopurge: false,
        purge: 1,
        columns: StoredSet::new(alloc),
        max_refs: 1,
        life: 1_000_000,
        seed,
    }
}

/// Puts a key's entry into a table, and tells whether it did.
fn is_put(alloc: Global, table: &mut StickTable, key: &StickKey) -> bool {
    match key.copy() {
        Ok(key) => step(table, &Event::Put(0, key, Sequence::new(alloc))).is_ok(),
        Err(_) => false,
    }
}

/// Whether a table finds a key.
fn is_found(table: &mut StickTable, key: &StickKey) -> bool {
    match key.copy() {
        Ok(key) => matches!(step(table, &Event::Get(0, key)), Ok(Reply::Row(_))),
        Err(_) => false,
    }
}

/// How many of these keys a table finds, each asked twenty times.
fn count(table: &mut StickTable, keys: &[StickKey]) -> u32 {
    let mut found = 0u32;
    for _ in 0..20usize {
        for key in keys {
            found = found.saturating_add(u32::from(is_found(table, key)));
        }
    }
    found
}

/// The table of these keys by a seed.
fn fill(alloc: Global, keys: &[StickKey], seed: u64) -> Result<StickTable, NoMemory> {
    let mut table: StickTable = open(alloc, spec(alloc, seed))?;
    for key in keys {
        if !is_put(alloc, &mut table, key) {
            return Err(NoMemory);
        }
    }
    Ok(table)
}

/// The shortest of five times in which the table of these keys by a seed finds them.
fn time_by(rt: &HostRuntime, keys: &[StickKey], seed: u64) -> Result<Duration, Fail> {
    let mut table = fill(rt.alloc(), keys, seed)?;
    let mut shortest = Duration::MAX;
    for _ in 0..5usize {
        let start = Instant::now(rt)?;
        let found = count(&mut table, keys);
        let passed = start.elapsed(rt)?;
        if found != 20 * PLACES {
            return Err(Fail::from("a key is missing"));
        }
        shortest = shortest.min(passed);
    }
    Ok(shortest)
}

/// Keys of one chain by one seed have many by another. In one chain a key is found after 256 others; by themselves, at
/// once.
#[test]
fn a_seed_spreads_keys(rt: HostRuntime) -> Result<(), Fail> {
    let keys = keys_of_one_chain(rt.alloc())?;
    assert_eq!(rt; keys.len(), PLACES as usize);
    let chained = time_by(&rt, &keys, 0)?;
    let spread = time_by(&rt, &keys, 2_026)?;
    let is_shorter = spread.as_nanos() / 2 < chained.as_nanos() / 3;
    assert!(rt; is_shorter, "{spread:?} and {chained:?}");
    Ok(())
}
