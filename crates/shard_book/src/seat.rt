//! What one caller has asked of each shard, and seen there; `shard_locks` calls `serve` for it, and settling reads it.

ghost use Rattle.std.specs.Prelude.{◌≡◌, ◌≤◌, ◌<◌, ◌+◌, ◌^◌, true, false, length, is_some, slice_index, slice_set, IfOk, IfErr, OnOk, OnErr, IsOk};
ghost use Rattle.stick_model.specs.State.{key_of};
ghost use Rattle.stick_model.specs.Limits.{IsTableEvent};
ghost use Rattle.stick_model.specs.Refusals.{has_life};
ghost use Rattle.stick_model.specs.declared.events.Event.TheVariants.{Release};
ghost use Rattle.shard_book.specs.BookState.{IsBook, Extends};
ghost use Rattle.shard_book.specs.SeatState.{SeatState, IsSeat, calls_of, seen_of, fresh};
ghost use Rattle.shard_book.specs.Told.{Told, IsRefusedTo, IsRefusedBy};

use crate::asking::ask;
use crate::book::Book;
use crate::receipt::Receipt;
use std::alloc::Global;
use std::marker::Model;
use stick_table::{Event, Refusal, Reply, Table};

/// The greatest number of shards of a table.
const SHARDS: usize = 64;

/// What one caller has asked of each shard of a table, and what it has seen there; with receipts, also each call that was
/// answered and its reply. One thread at a time uses it.
#[derive(Drop)]
pub struct Seat {
    number: u32,
    calls: [u64; SHARDS],
    seen: [u64; SHARDS],
    keeps: bool,
    receipts: Vec<Receipt>,
}

impl Model for Seat {
    ghost use Rattle.shard_book.specs.SeatState.{SeatState, IsSeat};

    ghost Value = { SeatState };

    ghost view = { λ seat. record { number = seat.number; calls = seat.calls; seen = seat.seen; keeps = seat.keeps; receipts = seat.receipts.items } };

    ghost invariant = { λ seat. IsSeat (record { number = seat.number; calls = seat.calls; seen = seat.seen; keeps = seat.keeps; receipts = seat.receipts.items }) };
}

impl Seat {
    /// A seat that has asked and seen nothing yet.
    pub fn new(alloc: Global, number: u32, keeps: bool) -> Seat
        ensures { result ≡ fresh number keeps }
    {
        Seat {
            number,
            calls: [0; SHARDS],
            seen: [0; SHARDS],
            keeps,
            receipts: Vec::new(alloc),
        }
    }

    /// Its number: its calls are recorded under it.
    pub fn number(&self) -> u32
        ensures { result ≡ self.now.number }
    {
        self.number
    }

    /// How many of its calls of a shard were answered.
    pub fn calls(&self, shard: u32) -> u64
        requires { shard < 64 }
        ensures { result ≡ calls_of self.now shard }
    {
        self.calls[shard as usize]
    }

    /// The number of the last event of a shard that it was told the answer to, the greatest that it has seen there.
    pub fn seen(&self, shard: u32) -> u64
        requires { shard < 64 }
        ensures { result ≡ seen_of self.now shard }
    {
        self.seen[shard as usize]
    }

    /// Whether it keeps receipts.
    pub fn keeps(&self) -> bool
        ensures { result ≡ self.now.keeps }
    {
        self.keeps
    }

    /// Its receipts, in the order of its calls.
    pub fn receipts(&self) -> &[Receipt]
        ensures receipts { result.now ≡ self.now.receipts }
        ensures seat { IsSeat self.now }
    {
        self.receipts.as_slice()
    }
}

/// Has a shard's book answer an event for a seat: what is done under the shard's lock. The seat then has one call more, has
/// seen the event's number, and keeps a receipt, if it keeps any. A refusal changes nothing. The refusals, in this order:
/// `Behind` where the seat has seen more events of the shard than the book has counted; with receipts `Memory` where there
/// is none for the event's copy or for the receipt's place; then those of `Book::call`.
pub fn serve<T: Table>(
    book: &mut Book<T>,
    seat: &mut Seat,
    shard: u32,
    event: Event,
) -> Result<Reply, Refusal>
    requires shard { shard < 64 }
    requires event { IsTableEvent event }

    // The book has the call, and so has the seat.
    ensures ok { IfOk result (λ reply. Extends book.old seat.old.number event reply book.new) }
    ensures told { IfOk result (λ reply. Told seat.old shard event reply seat.new) }
    ensures number { OnOk result (seen_of seat.new shard ≡ book.new.live.events) }
    ensures later { OnOk result (seen_of seat.old shard ≤ book.old.live.events) }
    ensures lives { OnOk result (has_life book.old.live event ≡ true) }

    // A refusal has its cause, in this book, and changes nothing.
    ensures refused { IfErr result (IsRefusedTo seat.old shard event) }
    ensures cause { IfErr result (IsRefusedBy book.old.live seat.old shard event) }
    ensures release { (now : _) (ticket : _) → event ≡ Release now ticket → seat.old.keeps ≡ false → seen_of seat.old shard ≤ book.old.live.events → is_some (key_of ticket book.old.live.tickets) ≡ true → IsOk result }
    ensures book_stays { OnErr result (book.new ≡ book.old) }
    ensures seat_stays { OnErr result (seat.new ≡ seat.old) }
{
    match serve_lent(book, seat, shard, &event) {
        Ok(reply) => Ok(reply),
        Err(refused) => Err(refused),
    }
}

/// The same of an event that is lent.
pub(crate) fn serve_lent<T: Table>(
    book: &mut Book<T>,
    seat: &mut Seat,
    shard: u32,
    event: &Event,
) -> Result<Reply, Refusal>
    requires shard { shard < 64 }
    requires event { IsTableEvent event.now }

    // The book has the call, and so has the seat.
    ensures ok { IfOk result (λ reply. Extends book.old seat.old.number event.now reply book.new) }
    ensures told { IfOk result (λ reply. Told seat.old shard event.now reply seat.new) }
    ensures number { OnOk result (seen_of seat.new shard ≡ book.new.live.events) }
    ensures later { OnOk result (seen_of seat.old shard ≤ book.old.live.events) }
    ensures lives { OnOk result (has_life book.old.live event.now ≡ true) }

    // A refusal has its cause, in this book, and changes nothing.
    ensures refused { IfErr result (IsRefusedTo seat.old shard event.now) }
    ensures cause { IfErr result (IsRefusedBy book.old.live seat.old shard event.now) }
    ensures release { (now : _) (ticket : _) → event.now ≡ Release now ticket → seat.old.keeps ≡ false → seen_of seat.old shard ≤ book.old.live.events → is_some (key_of ticket book.old.live.tickets) ≡ true → IsOk result }
    ensures book_stays { OnErr result (book.new ≡ book.old) }
    ensures seat_stays { OnErr result (seat.new ≡ seat.old) }
{
    let count = book.events();
    let front = seat.seen[shard as usize];
    if count < front {
        return Err(Refusal::Behind { count, front });
    }
    match ask(
        book,
        &mut seat.receipts,
        seat.keeps,
        seat.number,
        shard,
        event,
    ) {
        Ok(reply) => {
            count_call(&mut seat.calls, &mut seat.seen, shard, count + 1);
            Ok(reply)
        }
        Err(refusal) => Err(refusal),
    }
}

/// Counts a call of a shard, and notes the number of its event.
fn count_call(calls: &mut [u64; SHARDS], seen: &mut [u64; SHARDS], shard: u32, number: u64)
    requires shard { shard < 64 }
    requires room { slice_index calls.old shard ≤ 2 ^ 62 }
    ensures calls { calls.new ≡ slice_set calls.old shard (slice_index calls.old shard + 1) }
    ensures seen { seen.new ≡ slice_set seen.old shard number }
{
    calls[shard as usize] += 1;
    seen[shard as usize] = number;
}
