//! What seats were told by a record, against the receipts that they keep; `check` calls it.

ghost use Rattle.std.specs.Prelude.{◌≡◌, ◌≤◌, ◌↔◌, IsTrue, IfOk, Some, length, drop, slice_get};
ghost use Rattle.shard_book.specs.SeatState.{receipts_at};
ghost use Rattle.shard_book.specs.declared.receipt.Receipt.{Receipt};
ghost use Rattle.shard_locks.specs.Shared.{seats_of};
ghost use Rattle.shard_settling.specs.Settled.{AreTold, told_to};

use base_sequence::NoMemory;
use shard_book::{Receipt, Recorded};
use shard_locks::SharedSeat;
use shard_record::Naming;
use stick_model::same_reply;
use stick_table::Reply;

/// Whether a seat's receipts of a shard are its calls there with these replies, in their order, and no others.
pub fn is_told(
    seat: u32,
    shard: u32,
    receipts: &[Receipt],
    calls: &[Recorded],
    replies: &[Reply],
) -> Result<bool, NoMemory>
    requires { length replies.now ≡ length calls.now }
    ensures { IfOk result (λ told. IsTrue told ↔ (told_to shard seat calls.now replies.now ≡ receipts_at shard receipts.now)) }
{
    let mut next = next_at(receipts, shard, 0);
    for i in 0..calls.len() {
        let call = &calls[i];
        if call.seat() == seat {
            if next >= receipts.len() {
                return Ok(false);
            }
            let receipt = &receipts[next];
            let is_same = is_of(receipt, call, &replies[i])?;
            if !is_same {
                return Ok(false);
            }
            next = next_at(receipts, shard, next + 1);
        }
    }
    Ok(next >= receipts.len())
}

/// Whether a receipt is of a call and its reply.
fn is_of(receipt: &Receipt, call: &Recorded, reply: &Reply) -> Result<bool, NoMemory>
    ensures { IfOk result (λ same. IsTrue same ↔ ((receipt.now.event ≡ call.now.stored.event) × (receipt.now.reply ≡ reply.now))) }
{
    let is_answered = same_reply(&receipt.reply, reply)?;
    Ok(call.is_of(&receipt.event) && is_answered)
}

/// The place of the next receipt of a shard, or the number of receipts.
fn next_at(receipts: &[Receipt], shard: u32, from: usize) -> usize
    requires { from ≤ length receipts.now }
    ensures bound { (from ≤ result) × (result ≤ length receipts.now) }
    ensures rest { receipts_at shard (drop from receipts.now) ≡ receipts_at shard (drop result receipts.now) }
    ensures here { (one : Receipt) → slice_get receipts.now result ≡ Some one → one.shard ≡ shard }
{
    for place in from..receipts.len() {
        if receipts[place].shard == shard {
            return place;
        }
    }
    receipts.len()
}

/// Whether each seat was told what it keeps of a shard, and keeps what it was told.
pub(crate) fn are_told<J: Naming>(
    seats: &[SharedSeat<J>],
    shard: u32,
    calls: &[Recorded],
    replies: &[Reply],
) -> Result<bool, NoMemory>
    requires { length replies.now ≡ length calls.now }
    ensures { IfOk result (λ told. IsTrue told ↔ AreTold shard (seats_of seats.now) calls.now replies.now) }
{
    for seat in seats {
        let told = is_told(
            seat.seat().number(),
            shard,
            seat.seat().receipts(),
            calls,
            replies,
        )?;
        if !told {
            return Ok(false);
        }
    }
    Ok(true)
}
