//! The settling itself: books come out of their locks and are compared; `tcp_proxy` calls `settle` for each table.

ghost use Rattle.std.specs.Prelude.{◌≡◌, length, IfOk, IfErr};
ghost use Rattle.shard_locks.specs.Shared.{AreKept, seats_of};
ghost use Rattle.shard_locks.specs.ShardsState.{parts_of};
ghost use Rattle.shard_settling.specs.Settled.{AreSettled, counts_in, tickets_in};
ghost use Rattle.shard_settling.specs.Faults.{IsFault};

use crate::{Fault, Found, check};
use base_sequence::Sequence;
use shard_book::Book;
use shard_locks::{Shards, SharedRef, SharedSeat, Unlocked};
use shard_record::{Keeper, Naming};
use std::alloc::Global;
use std::snapshot::Snapshot;
use stick_table::{Table, Ticket};

/// The books of a settled table; how many events each has counted, and the tickets that are out there. The shards are in
/// order.
#[derive(Drop)]
pub struct Settled<T: Table, J: Naming> {
    pub books: Vec<Book<T>>,
    /// What kept the record of each book: that costs four bytes a book.
    pub keepers: Vec<Keeper<J>>,
    pub counts: Vec<u64>,
    pub tickets: Vec<Sequence<Ticket>>,
}

/// All that was shown, and why it isn't settled. It can't be dropped, as references can't.
pub struct Unsettled<T: Table, J: Naming> {
    pub fault: Fault,
    /// The books as they were found, of which the fault is told; for contracts alone.
    pub found: Snapshot<Vec<Book<T>>>,
    pub shards: Shards<T, J>,
    pub seats: Vec<SharedSeat<J>>,
    pub refs: Vec<SharedRef<J>>,
}

/// Ends a table in shards, once its callers have ended: its books come out of their locks, and are compared with the seats
/// and the references that are shown, as `check` does. A reference that was given up is missed. Settled, the references are
/// done with; else all comes back as it was shown, and may be shown again.
pub fn settle<T: Table, J: Naming>(
    alloc: Global,
    shards: Shards<T, J>,
    seats: Vec<SharedSeat<J>>,
    refs: Vec<SharedRef<J>>,
) -> Result<Settled<T, J>, Unsettled<T, J>>
    // The books handed out are settled, and are those whose records were kept under the locks.
    ensures settled { IfOk result (λ settled. AreSettled (parts_of shards) shards.keep (seats_of seats.items) refs.items settled.books.items) }
    ensures own_book { IfOk result (λ settled. AreKept J.specs settled.books.items settled.keepers.items) }
    ensures counts { IfOk result (λ settled. settled.counts.items ≡ counts_in settled.books.items) }
    ensures tickets { IfOk result (λ settled. settled.tickets.items ≡ tickets_in settled.books.items) }

    // A fault has its cause in the books that were found, and hands all back.
    ensures fault { IfErr result (λ unsettled. IsFault (parts_of shards) shards.keep (seats_of seats.items) refs.items unsettled.found.value.items unsettled.fault) }
    ensures shards { IfErr result (λ unsettled. unsettled.shards ≡ shards) }
    ensures seats { IfErr result (λ unsettled. unsettled.seats.items ≡ seats.items) }
    ensures refs { IfErr result (λ unsettled. unsettled.refs.items ≡ refs.items) }
{
    let unlocked = match shards.into_books(alloc) {
        Ok(unlocked) => unlocked,
        Err(shards) => {
            return Err(Unsettled {
                fault: Fault::Memory,
                found: Snapshot::of(&Vec::new(alloc)),
                shards,
                seats,
                refs,
            });
        }
    };
    match check(
        alloc,
        unlocked.specs(),
        unlocked.keeps(),
        unlocked.books().as_slice(),
        seats.as_slice(),
        refs.as_slice(),
    ) {
        Ok(Found { counts, tickets }) => {
            give_up(refs);
            let (books, keepers) = unlocked.into_books();
            Ok(Settled {
                books,
                keepers,
                counts,
                tickets,
            })
        }
        Err(fault) => Err(handed_back(unlocked, fault, seats, refs)),
    }
}

/// All that was shown, with the books under their locks again, and what is wrong with them.
fn handed_back<T: Table, J: Naming>(
    unlocked: Unlocked<T, J>,
    fault: Fault,
    seats: Vec<SharedSeat<J>>,
    refs: Vec<SharedRef<J>>,
) -> Unsettled<T, J>
    ensures fault { result.fault ≡ fault }
    ensures found { result.found.value.items ≡ unlocked.books }
    ensures shards { result.shards ≡ record { spec = unlocked.spec; shards = length unlocked.books; keep = unlocked.keep; first = unlocked.first } }
    ensures seats { result.seats.items ≡ seats.items }
    ensures refs { result.refs.items ≡ refs.items }
{
    let found = Snapshot::of(unlocked.books());
    Unsettled {
        fault,
        found,
        shards: Shards::from_books(unlocked),
        seats,
        refs,
    }
}

/// The references are done with.
fn give_up<J: Naming>(mut refs: Vec<SharedRef<J>>) {
    while let Some(reference) = refs.pop() {
        reference.abandon();
    }
    refs.destroy_empty();
}
