//! A book's record, made again from an empty table; `check` calls it where receipts are kept.

ghost use Rattle.std.specs.Prelude.{◌≡◌, IfOk, IfSome};
ghost use Rattle.stick_model.specs.State.{empty_table};
ghost use Rattle.stick_model.specs.Step.{Step, slot_of};
ghost use Rattle.stick_model.specs.Run.{CanRedo, StoredRun, redone};
ghost use Rattle.stick_model.specs.Limits.{IsTableEvent};
ghost use Rattle.shard_book.specs.BookState.{stored_of};

use base_sequence::NoMemory;
use shard_book::{Book, Recorded};
use std::alloc::Global;
use stick_table::{PlainTable, Refusal, Reply, Table};

/// The replies to the calls of a book's record, made again from the empty table with which it begins. A table of the book's
/// own kind makes them, at the cost of the calls alone, as long as its references get the slots that are recorded; else a
/// plain table does, which goes over all its entries at each call.
pub fn replay<T: Table>(alloc: Global, book: &Book<T>) -> Result<Vec<Reply>, NoMemory>
    requires { book.now.base ≡ empty_table book.now.base.spec }
    ensures { IfOk result (λ replies. StoredRun book.now.base (stored_of book.now.calls) replies.items book.now.live) }
{
    match step_all(alloc, book)? {
        Some(replies) => Ok(replies),
        None => redo_all(alloc, book),
    }
}

/// The same by a table of the book's kind, which chooses the slots of its references itself: nothing where it chose
/// another than is recorded.
fn step_all<T: Table>(alloc: Global, book: &Book<T>) -> Result<Option<Vec<Reply>>, NoMemory>
    requires { book.now.base ≡ empty_table book.now.base.spec }
    ensures { IfOk result (λ found. IfSome found (λ replies. StoredRun book.now.base (stored_of book.now.calls) replies.items book.now.live)) }
{
    let calls = book.calls();
    let mut table = T::open(alloc, book.live().spec().copy()?)?;
    let mut replies = Vec::new(alloc);
    for call in calls {
        match step_again(alloc, &mut table, call) {
            Ok(reply) => replies.push(reply)?,
            Err(Halt::Memory) => return Err(NoMemory),
            Err(Halt::Differs) => return Ok(None),
        }
    }
    Ok(Some(replies))
}

/// Why a recorded call isn't made again.
enum Halt {
    /// A growth was refused.
    Memory,
    /// It got another slot than is recorded, or was refused otherwise.
    Differs,
}

/// Makes a recorded call again, which gets the slot that is recorded.
fn step_again<T: Table>(alloc: Global, table: &mut T, call: &Recorded) -> Result<Reply, Halt>
    requires { IsTableEvent call.now.stored.event }
    ensures step { IfOk result (λ reply. Step (T.state table.old) call.now.stored.event reply (T.state table.new)) }
    ensures slot { IfOk result (λ reply. call.now.stored.slot ≡ slot_of reply) }
{
    let Ok(stored) = call.stored(alloc) else {
        return Err(Halt::Memory);
    };
    match table.step(&stored.event) {
        Ok(reply) => {
            if reply.slot() != stored.slot {
                return Err(Halt::Differs);
            }
            Ok(reply)
        }
        Err(Refusal::Memory) => Err(Halt::Memory),
        Err(_) => Err(Halt::Differs),
    }
}

/// Makes a recorded call again on a plain table, by the slot that is recorded.
fn redo_again(alloc: Global, table: &mut PlainTable, call: &Recorded) -> Result<Reply, NoMemory>
    requires event { IsTableEvent call.now.stored.event }
    requires slot { CanRedo table.old.now call.now.stored }
    ensures step { IfOk result (λ reply. Step table.old.now call.now.stored.event reply table.new.now) }
    ensures redone { IfOk result (λ reply. redone table.old.now call.now.stored ≡ (reply, table.new.now)) }
{
    let stored = call.stored(alloc)?;
    match table.redo(&stored) {
        Ok(reply) => Ok(reply),
        Err(_) => Err(NoMemory),
    }
}

/// The same by a plain table, which gives each reference the slot that is recorded. A record's call is refused for want of
/// memory alone.
fn redo_all<T: Table>(alloc: Global, book: &Book<T>) -> Result<Vec<Reply>, NoMemory>
    requires { book.now.base ≡ empty_table book.now.base.spec }
    ensures { IfOk result (λ replies. StoredRun book.now.base (stored_of book.now.calls) replies.items book.now.live) }
{
    let calls = book.calls();
    let mut table = PlainTable::open(alloc, book.live().spec().copy()?)?;
    let mut replies = Vec::new(alloc);
    for call in calls {
        match redo_again(alloc, &mut table, call) {
            Ok(reply) => replies.push(reply)?,
            Err(refused) => return Err(refused),
        }
    }
    Ok(replies)
}
