//! The tickets of places in the order of their numbers; `TicketBook::to_vec` calls it.
ghost use Rattle.std.specs.Prelude.{◌≡◌, IfOk};
ghost use Rattle.std.specs.Option.{option_map};
ghost use Rattle.std.specs.Ordering.{nat_cmp};
ghost use Rattle.entry_pool.specs.Contents.{IsPool, entry_at};
ghost use Rattle.stick_pooled.specs.Slots.{entries_of, IsDistinctIn};
ghost use Rattle.stick_pooled.specs.Places.{placed, numbered};

use base_sequence::NoMemory;
use entry_pool::Pool;
use std::alloc::Global;
use std::collections::BTreeMap;

/// What a place has: the number of a ticket, with the place itself and the slot of the ticket's entry.
fn ticket_at(places: &Pool<u32>, place: u32) -> Option<(u64, (u32, u32))>
    ensures { result ≡ option_map (placed place) (entry_at places.now place) }
{
    let handle = places.handle_at(place)?;
    match places.get(handle) {
        Some(entry) => Some((handle.generation, (place, *entry))),
        None => unreachable!(),
    }
}

/// What the places have, by the numbers of the tickets. The places that are taken first are the first ones, and the walk ends
/// with the last ticket, so that few tickets don't cost a walk over all places.
pub(crate) fn by_number(
    alloc: Global,
    places: &Pool<u32>,
) -> Result<BTreeMap<u64, (u32, u32)>, NoMemory>
    requires pool { IsPool places.now }
    requires distinct { IsDistinctIn nat_cmp (numbered 0 places.now.slots) }
    ensures { IfOk result (λ tickets. tickets.entries ≡ entries_of nat_cmp (numbered 0 places.now.slots)) }
{
    let mut tickets = BTreeMap::new(alloc);
    let mut left = places.len();
    for place in 0..places.capacity() {
        if left == 0 {
            return Ok(tickets);
        }
        if let Some((number, ticket)) = ticket_at(places, place) {
            tickets.insert(number, ticket)?;
            left -= 1;
        }
    }
    Ok(tickets)
}
