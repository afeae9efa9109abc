//! Whether books are settled: counts, tickets and, with receipts, records; `settle` calls it.

ghost use Rattle.std.specs.Prelude.{◌≡◌, ◌≤◌, ◌<◌, ℕ, Some, length, slice_get, IfOk, OnOk, IfErr, IsTrue, ◌↔◌};
ghost use Rattle.stick_model.specs.State.{empty_table};
ghost use Rattle.stick_model.specs.declared.specification.Spec.{Spec};
ghost use Rattle.shard_book.specs.BookState.{BookState};
ghost use Rattle.shard_locks.specs.Shared.{seats_of};
ghost use Rattle.shard_settling.specs.Settled.{AreOfShards, AreSettled, CallNoOther, IsCounted, IsRecorded, counts_in, tickets_in, tickets_of};
ghost use Rattle.shard_settling.specs.Faults.{IsCountFault, IsCountFaultOf, IsFault, IsOtherFault, IsRecordFault, IsRecordFaultOf};

use crate::counts::{adds_up, are_shown, strange_calls, strange_reference};
use crate::found::found_in;
use crate::telling::are_told;
use crate::{Fault, Found, replay};
use base_sequence::NoMemory;
use shard_book::Book;
use shard_locks::{SharedRef, SharedSeat};
use shard_record::Naming;
use std::alloc::Global;
use stick_model::same_spec;
use stick_table::{Spec, Table, Ticket};

/// Compares the books of a table's shards with what its callers keep: their seats, and the references that they hold. With
/// `keep`, the seats' receipts are to be the record, call by call. Each book is compared in time that grows with its calls,
/// its tickets and what is shown, but that tickets are sorted; where a record's slots are not those that a table of the
/// book's own kind chooses, with its calls times its entries. Room for what is answered is taken first; then the calls and
/// the references of each shard are counted; then what is shown of shards that the table doesn't have is missed, calls first;
/// then the records are made again. The first fault is told, and want of memory wherever it comes.
pub fn check<T: Table, J: Naming>(
    alloc: Global,
    specs: &[Spec],
    keep: bool,
    books: &[Book<T>],
    seats: &[SharedSeat<J>],
    refs: &[SharedRef<J>],
) -> Result<Found, Fault>
    requires shards { length books.now ≡ length specs.now }
    requires few { length books.now ≤ 64 }
    ensures settled { OnOk result (AreSettled specs.now keep (seats_of seats.now) refs.now books.now) }
    ensures counts { IfOk result (λ found. found.counts.items ≡ counts_in books.now) }
    ensures tickets { IfOk result (λ found. found.tickets.items ≡ tickets_in books.now) }
    ensures fault { IfErr result (IsFault specs.now keep (seats_of seats.now) refs.now books.now) }
{
    let Ok(found) = found_in(alloc, books) else {
        return Err(Fault::Memory);
    };
    check_counts(alloc, books, &found, seats, refs)?;
    let shards = books.len() as u32;
    check_others(shards, seats, refs)?;
    check_records(alloc, specs, keep, books, seats)?;
    Ok(found)
}

/// Whether each shard has counted the seats' calls, and has the references' tickets out.
fn check_counts<T: Table, J: Naming>(
    alloc: Global,
    books: &[Book<T>],
    found: &Found,
    seats: &[SharedSeat<J>],
    refs: &[SharedRef<J>],
) -> Result<(), Fault>
    requires few { length books.now ≤ 64 }
    requires tickets { found.now.tickets.items ≡ tickets_in books.now }
    ensures ok { OnOk result ((shard : ℕ) (book : BookState) → slice_get books.now shard ≡ Some book → IsCounted (seats_of seats.now) refs.now shard book) }
    ensures err { IfErr result (IsCountFault (seats_of seats.now) refs.now books.now) }
{
    for shard in 0..books.len() {
        let tickets = found.tickets[shard].as_slice();
        check_count(alloc, &books[shard], tickets, seats, refs, shard as u32)?;
    }
    Ok(())
}

/// Whether a shard has counted the seats' calls, and has the references' tickets out.
fn check_count<T: Table, J: Naming>(
    alloc: Global,
    book: &Book<T>,
    tickets: &[Ticket],
    seats: &[SharedSeat<J>],
    refs: &[SharedRef<J>],
    shard: u32,
) -> Result<(), Fault>
    requires shard { shard < 64 }
    requires tickets { tickets.now ≡ tickets_of book.now.live }
    ensures ok { OnOk result (IsCounted (seats_of seats.now) refs.now shard book.now) }
    ensures err { IfErr result (IsCountFaultOf (seats_of seats.now) refs.now shard book.now) }
{
    if !adds_up(book.events(), seats, shard) {
        return Err(Fault::MissingCalls(shard));
    }
    match are_shown(alloc, tickets, refs, shard) {
        Ok(true) => Ok(()),
        Ok(false) => Err(Fault::MissingRefs(shard)),
        Err(_) => Err(Fault::Memory),
    }
}

/// Whether nothing is shown of shards but so many, the first ones: no calls, and no references.
fn check_others<J: Naming>(
    shards: u32,
    seats: &[SharedSeat<J>],
    refs: &[SharedRef<J>],
) -> Result<(), Fault>
    requires few { shards ≤ 64 }
    ensures calls { OnOk result (CallNoOther shards (seats_of seats.now)) }
    ensures refs { OnOk result (AreOfShards shards refs.now) }
    ensures err { IfErr result (IsOtherFault (seats_of seats.now) refs.now shards) }
{
    if let Some(other) = strange_calls(shards, seats) {
        return Err(Fault::MissingCalls(other));
    }
    if let Some(other) = strange_reference(shards, refs) {
        return Err(Fault::MissingRefs(other));
    }
    Ok(())
}

/// Whether each shard's table is made as it should be, and its record is what the seats were told, where that is kept.
fn check_records<T: Table, J: Naming>(
    alloc: Global,
    specs: &[Spec],
    keep: bool,
    books: &[Book<T>],
    seats: &[SharedSeat<J>],
) -> Result<(), Fault>
    requires shards { length books.now ≡ length specs.now }
    requires few { length books.now ≤ 64 }
    ensures ok { OnOk result ((shard : ℕ) (book : BookState) (part : Spec) → slice_get books.now shard ≡ Some book → slice_get specs.now shard ≡ Some part → IsRecorded part keep (seats_of seats.now) shard book) }
    ensures err { IfErr result (IsRecordFault specs.now keep (seats_of seats.now) books.now) }
{
    for shard in 0..books.len() {
        check_record(
            alloc,
            &specs[shard],
            keep,
            &books[shard],
            seats,
            shard as u32,
        )?;
    }
    Ok(())
}

/// Whether a shard's table is made as it should be, and its record is what the seats were told, where that is kept.
fn check_record<T: Table, J: Naming>(
    alloc: Global,
    part: &Spec,
    keep: bool,
    book: &Book<T>,
    seats: &[SharedSeat<J>],
    shard: u32,
) -> Result<(), Fault>
    ensures ok { OnOk result (IsRecorded part.now keep (seats_of seats.now) shard book.now) }
    ensures err { IfErr result (IsRecordFaultOf part.now keep (seats_of seats.now) shard book.now) }
{
    if !same_spec(book.live().spec(), part) {
        return Err(Fault::Mismatch(shard));
    }
    if !keep {
        return Ok(());
    }
    let Ok(empty) = begins_empty(book) else {
        return Err(Fault::Memory);
    };
    if !empty {
        return Err(Fault::Mismatch(shard));
    }
    let Ok(replies) = replay(alloc, book) else {
        return Err(Fault::Memory);
    };
    let Ok(told) = are_told(seats, shard, book.calls(), replies.as_slice()) else {
        return Err(Fault::Memory);
    };
    if !told {
        return Err(Fault::Mismatch(shard));
    }
    Ok(())
}

/// Whether a book's record begins with an empty table. Of one that had counted events by then no copy is made.
fn begins_empty<T: Table>(book: &Book<T>) -> Result<bool, NoMemory>
    ensures { IfOk result (λ empty. IsTrue empty ↔ (book.now.base ≡ empty_table book.now.base.spec)) }
{
    if book.live().base_events() > 0 {
        return Ok(false);
    }
    Ok(book.base()?.is_new())
}
