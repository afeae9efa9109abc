//! The greatest of many numbers.

ghost use Rattle.std.specs.Prelude.{◌≡◌, ◌≤◌, IfOk, OnOk, length};
ghost use Rattle.stickd_ctl.specs.Ranking as spec;
ghost use Rattle.stickd_ctl.specs.Ranking.{ahead, with_one};

use base_sequence::NoMemory;
use std::alloc::Global;

/// A number, and where it stands among all of them.
#[derive(Clone, Copy, Drop)]
pub struct Ranked {
    pub value: u64,
    pub place: usize,
}

/// How many at the head are at least as great.
fn count_ahead(ranked: &[Ranked], value: u64) -> usize
    ensures count { result ≡ ahead value ranked.now }
    ensures within { result ≤ length ranked.now }
{
    for (place, other) in ranked.iter().enumerate() {
        if other.value < value {
            return place;
        }
    }
    ranked.len()
}

/// Puts one behind those at the head that are at least as great, and keeps so many.
fn put(ranked: &mut Vec<Ranked>, one: Ranked, most: usize) -> Result<(), NoMemory>
    ensures { OnOk result (ranked.new.items ≡ with_one most one ranked.old.items) }
{
    let place = count_ahead(ranked.as_slice(), one.value);
    ranked.insert(place, one)?;
    ranked.truncate(most);
    Ok(())
}

/// The greatest of these numbers, in falling order, at most so many; those that are as great as each other stand in their
/// order among all.
pub fn greatest(alloc: Global, values: &[u64], most: usize) -> Result<Vec<Ranked>, NoMemory>
    ensures { IfOk result (λ ranked. ranked.items ≡ spec.greatest most values.now) }
{
    let mut ranked = Vec::new(alloc);
    for (place, value) in values.iter().enumerate() {
        let one = Ranked {
            value: *value,
            place,
        };
        put(&mut ranked, one, most)?;
    }
    Ok(ranked)
}
