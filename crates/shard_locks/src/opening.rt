//! The books and seats with which a table in shards begins; `Shards::new` calls it.

ghost use Rattle.std.specs.Prelude.{◌≡◌, ◌+◌, ◌≤◌, length, map, IfOk, OnOk};
ghost use Rattle.std.specs.List.{range_with_len};
ghost use Rattle.stick_model.specs.Limits.{IsTableSpec};
ghost use Rattle.shard_book.specs.Keeping.{part_of};
ghost use Rattle.shard_locks.specs.Shared.{AreParts, seats_of};
ghost use Rattle.shard_locks.specs.ShardsState.{fresh_seats};

use crate::SharedSeat;
use base_sequence::NoMemory;
use crossbeam_utils::CachePadded;
use shard_book::{Book, Kept, Seat};
use shard_record::{Dealer, Naming};
use std::alloc::Global;
use std::sync::Mutex;
use stick_key::size_of_shard;
use stick_table::{Spec, Table};

/// The books of a table's shards, each beside what keeps its record, under a lock, in memory that no other's lock lies in.
pub(crate) type Locks<T, J> = Vec<CachePadded<Mutex<Kept<T, J>>>>;

/// What a shard of a table is made with: all as the table, and the shard's part of its size.
fn spec_of_shard(spec: &Spec, shards: u32, shard: u32) -> Result<Spec, NoMemory>
    requires { 1 ≤ shards }
    ensures { IfOk result (λ part. part ≡ part_of spec.now shards shard) }
{
    let mut part = spec.copy()?;
    part.size = size_of_shard(spec.size, shards, shard);
    Ok(part)
}

/// What each shard of a table is made with.
pub(crate) fn specs_of_shards(
    alloc: Global,
    spec: &Spec,
    shards: u32,
) -> Result<Vec<Spec>, NoMemory>
    requires { 1 ≤ shards }
    ensures { IfOk result (λ specs. specs.items ≡ map (part_of spec.now shards) (range_with_len 0 shards)) }
{
    let mut specs = Vec::new(alloc);
    for shard in 0..shards {
        specs.push(spec_of_shard(spec, shards, shard)?)?;
    }
    Ok(specs)
}

/// The books of a table's empty shards, each beside what keeps its record, under their locks. Each is made as the record says.
pub(crate) fn open_locks<T: Table, J: Naming>(
    alloc: Global,
    dealer: &mut Dealer<J>,
    spec: &Spec,
    shards: u32,
) -> Result<Locks<T, J>, NoMemory>
    requires spec { IsTableSpec spec.now }
    requires some { 1 ≤ shards }
    requires places { shards ≤ spec.now.size }
    requires left { dealer.old.kept + shards ≤ dealer.old.books }
    requires parts { AreParts J.specs dealer.old.kept spec.now shards }
    ensures locks { IfOk result (λ locks. length locks.items ≡ shards) }
    ensures dealt { OnOk result (dealer.new ≡ record dealer.old { kept = dealer.old.kept + shards }) }
{
    let mut locks = Vec::new(alloc);
    for shard in 0..shards {
        let part = spec_of_shard(spec, shards, shard)?;
        let book = Book::open(alloc, part)?;
        let kept = Kept::new(book, dealer.keeper());
        locks.push(CachePadded::new(Mutex::new(kept)))?;
    }
    Ok(locks)
}

/// Seats with the numbers from 0 on, that have asked and seen nothing yet.
pub(crate) fn open_seats<J: Naming>(
    alloc: Global,
    dealer: &mut Dealer<J>,
    seats: u32,
    keeps: bool,
) -> Result<Vec<SharedSeat<J>>, NoMemory>
    requires left { dealer.old.seated + seats ≤ dealer.old.seats }
    ensures seats { IfOk result (λ made. seats_of made.items ≡ fresh_seats seats keeps) }
    ensures dealt { OnOk result (dealer.new ≡ record dealer.old { seated = dealer.old.seated + seats }) }
{
    let mut made = Vec::new(alloc);
    for number in 0..seats {
        let seat = Seat::new(alloc, number, keeps);
        made.push(SharedSeat::new(seat, dealer.seat()))?;
    }
    Ok(made)
}
