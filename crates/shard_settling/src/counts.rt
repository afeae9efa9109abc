//! The calls and the references of a shard, against those that are shown; `check` calls it.

ghost use Rattle.std.specs.Prelude.{◌≡◌, ◌≢◌, ◌≤◌, ◌<◌, ◌↔◌, IsTrue, [], None, IfOk, IfSome, IsPermutation};
ghost use Rattle.shard_locks.specs.Shared.{seats_of};
ghost use Rattle.shard_settling.specs.Settled.{AreOfShards, CallNoOther, calls_made, made_by, shown};

use crate::tickets::are_same;
use base_sequence::NoMemory;
use shard_locks::{SharedRef, SharedSeat};
use shard_record::Naming;
use std::alloc::Global;
use stick_table::Ticket;

/// Whether a count is that of the seats' calls of a shard.
pub(crate) fn adds_up<J: Naming>(count: u64, seats: &[SharedSeat<J>], shard: u32) -> bool
    requires { shard < 64 }
    ensures { IsTrue result ↔ (count ≡ calls_made (seats_of seats.now) shard) }
{
    is_sum(count, seats, shard)
}

/// The same, seat by seat as threads share them.
fn is_sum<J: Naming>(count: u64, seats: &[SharedSeat<J>], shard: u32) -> bool
    requires { shard < 64 }
    ensures { IsTrue result ↔ (count ≡ made_by seats.now shard) }
{
    let mut left = count;
    for seat in seats {
        let calls = seat.seat().calls(shard);
        if left < calls {
            return false;
        }
        left -= calls;
    }
    left == 0
}

/// The tickets of the references to a shard.
fn shown_tickets<J: Naming>(
    alloc: Global,
    refs: &[SharedRef<J>],
    shard: u32,
) -> Result<Vec<Ticket>, NoMemory>
    ensures { IfOk result (λ tickets. tickets.items ≡ shown shard refs.now) }
{
    let mut tickets = Vec::new(alloc);
    for reference in refs {
        if reference.shard() == shard {
            tickets.push(reference.ticket())?;
        }
    }
    Ok(tickets)
}

/// Whether tickets are those of the references to a shard, each once. Copies are sorted: the references may be many.
pub(crate) fn are_shown<J: Naming>(
    alloc: Global,
    tickets: &[Ticket],
    refs: &[SharedRef<J>],
    shard: u32,
) -> Result<bool, NoMemory>
    ensures { IfOk result (λ are. IsTrue are ↔ IsPermutation tickets.now (shown shard refs.now)) }
{
    let found = Vec::from_slice(alloc, tickets)?;
    let shown = shown_tickets(alloc, refs, shard)?;
    Ok(are_same(found, shown))
}

/// A shard, not among so many first ones, that the seats have called.
pub(crate) fn strange_calls<J: Naming>(shards: u32, seats: &[SharedSeat<J>]) -> Option<u32>
    requires { shards ≤ 64 }
    ensures none { result ≡ None → CallNoOther shards (seats_of seats.now) }
    ensures some { IfSome result (λ shard. (shards ≤ shard) × (calls_made (seats_of seats.now) shard ≢ 0)) }
{
    for shard in shards..64 {
        if !adds_up(0, seats, shard) {
            return Some(shard);
        }
    }
    None
}

/// A shard, not among so many first ones, of which there is a reference.
pub(crate) fn strange_reference<J: Naming>(shards: u32, refs: &[SharedRef<J>]) -> Option<u32>
    ensures none { result ≡ None → AreOfShards shards refs.now }
    ensures some { IfSome result (λ shard. (shards ≤ shard) × (shown shard refs.now ≢ [])) }
{
    for reference in refs {
        let other = reference.shard();
        if other >= shards {
            return Some(other);
        }
    }
    None
}
