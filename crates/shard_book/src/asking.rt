//! One call of a shard's book for a seat, with its receipt where receipts are kept; `serve` makes it under the shard's lock.

ghost use Rattle.std.specs.Prelude.{◌≡◌, ◌++◌, ◌∷◌, [], true, false, is_some, IfOk, IfErr, OnOk, OnErr, IsOk};
ghost use Rattle.stick_model.specs.State.{key_of};
ghost use Rattle.stick_model.specs.Limits.{IsTableEvent};
ghost use Rattle.stick_model.specs.Refusals.{has_life};
ghost use Rattle.stick_model.specs.declared.events.Event.TheVariants.{Release};
ghost use Rattle.shard_book.specs.BookState.{IsBook, Extends};
ghost use Rattle.shard_book.specs.SeatState.{receipt, kept_receipts};
ghost use Rattle.shard_book.specs.Told.{IsAskRefused};

use crate::book::Book;
use crate::receipt::Receipt;
use stick_table::{Event, Refusal, Reply, Table};

/// Has a book answer an event for a seat, and keeps the receipt where receipts are kept. Where a growth is refused, or the
/// book refuses the event, nothing changes.
pub(crate) fn ask<T: Table>(
    book: &mut Book<T>,
    receipts: &mut Vec<Receipt>,
    keeps: bool,
    number: u32,
    shard: u32,
    event: &Event,
) -> Result<Reply, Refusal>
    requires { IsTableEvent event.now }
    ensures book { OnOk result (IsBook book.new) }
    ensures ok { IfOk result (λ reply. Extends book.old number event.now reply book.new) }
    ensures receipts { IfOk result (λ reply. receipts.new.items ≡ kept_receipts keeps receipts.old.items shard event.now reply) }
    ensures lives { OnOk result (has_life book.old.live event.now ≡ true) }
    ensures refused { IfErr result (IsAskRefused book.old.live keeps event.now) }
    ensures release { (now : _) (ticket : _) → event.now ≡ Release now ticket → keeps ≡ false → is_some (key_of ticket book.old.live.tickets) ≡ true → IsOk result }
    ensures book_stays { OnErr result (book.new ≡ book.old) }
    ensures receipts_stay { OnErr result (receipts.new.items ≡ receipts.old.items) }
{
    if keeps {
        ask_twice(book, receipts, number, shard, event)
    } else {
        book.call_lent(number, event)
    }
}

/// The same where receipts are kept. The event's copy and the receipt's place are taken first.
fn ask_twice<T: Table>(
    book: &mut Book<T>,
    receipts: &mut Vec<Receipt>,
    number: u32,
    shard: u32,
    event: &Event,
) -> Result<Reply, Refusal>
    requires { IsTableEvent event.now }
    ensures book { OnOk result (IsBook book.new) }
    ensures ok { IfOk result (λ reply. Extends book.old number event.now reply book.new) }
    ensures receipts { IfOk result (λ reply. receipts.new.items ≡ receipts.old.items ++ receipt shard event.now reply ∷ []) }
    ensures lives { OnOk result (has_life book.old.live event.now ≡ true) }
    ensures refused { IfErr result (IsAskRefused book.old.live true event.now) }
    ensures book_stays { OnErr result (book.new ≡ book.old) }
    ensures receipts_stay { OnErr result (receipts.new.items ≡ receipts.old.items) }
{
    let Ok(asked) = event.copy() else {
        return Err(Refusal::Memory);
    };
    if receipts.reserve(1).is_err() {
        return Err(Refusal::Memory);
    }
    match book.call_twice_lent(number, event) {
        Ok((reply, again)) => {
            receipts.push_reserved(Receipt {
                shard,
                event: asked,
                reply: again,
            });
            Ok(reply)
        }
        Err(refusal) => Err(refusal),
    }
}
