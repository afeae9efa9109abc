//! What a call of a book notes in the record, and tells its seat; `Keeper`'s methods call it.

ghost use Rattle.std.specs.Prelude.{◌≡◌, ◌++◌, ◌∷◌, [], ℕ};
ghost use mathlib.Core.List.{IsPrefix};
ghost use Rattle.stick_model.specs.Laws.{tickets_told};
ghost use Rattle.stick_model.specs.declared.events.Event.TheVariants.{Release};
ghost use Rattle.stick_model.specs.declared.replies.Reply.TheVariants.{Released};
ghost use Rattle.shard_record.specs.Calls.{IsHistory, call};
ghost use Rattle.shard_record.specs.Parts.{AreTheirs, MayAppend, caller, holder, keeper as keeper_of, nobody};
ghost use Rattle.shard_record.specs.Views.{at, only, put, without_book};
ghost use Rattle.shard_record.specs.Telling.{HasAnswered, IsKeeper, IsNoRelease, IsOut, IsReference, IsSeer, IsSettled, IsTold, keeping_for, key_at, log_of, mine_of, number_of, spoken, ticket_at};

use crate::{Naming, Record, Token};
use std::mem;
use stick_model::{Event, Reply};

/// Notes a call that a book has answered to a seat, and tells the seat. Another token has the reference that the call made, if it
/// made one. A release is noted by `note_release`.
pub(crate) fn note<J: Naming>(
    records: &Record<J>,
    keeper: &mut Token<J>,
    seat: &mut Token<J>,
    book: u32,
    event: &Event,
    reply: &Reply,
) -> Token<J>
    requires keeper { IsKeeper book keeper.old }
    requires seat { IsSeer book seat.old }
    requires settled { IsSettled seat.old }
    requires answered { HasAnswered (log_of book keeper.old) event.now reply.now }
    requires other { IsNoRelease event.now }
    ensures keeper { keeper.new ≡ only book (keeper_of (log_of book keeper.old ++ call (number_of book seat.old) event.now reply.now ∷ [])) }
    ensures told { IsTold book event.now reply.now seat.old seat.new }
    ensures seen { log_of book seat.new ≡ log_of book keeper.new }
    ensures seat { IsSeer book seat.new }
    ensures settled { IsSettled seat.new }
    ensures given { result ≡ only book (holder (log_of book keeper.new) (tickets_told event.now reply.now [])) }
{
    take_seat(records, keeper, seat, book);
    tell(records, keeper, seat, book, event, reply);
    records.part_held(keeper)
}

/// Notes a release that a book has answered to a seat, tells the seat, and takes the reference. That was out, and so the answer
/// is that it is released.
pub(crate) fn note_release<J: Naming>(
    records: &Record<J>,
    keeper: &mut Token<J>,
    seat: &mut Token<J>,
    reference: Token<J>,
    book: u32,
    release: &Event,
    reply: &Reply,
)
    requires keeper { IsKeeper book keeper.old }
    requires seat { IsSeer book seat.old }
    requires settled { IsSettled seat.old }
    requires reference { IsReference book reference }
    requires release { (now : ℕ) × (release.now ≡ Release now (ticket_at book reference)) }
    requires answered { HasAnswered (log_of book keeper.old) release.now reply.now }
    ensures released { reply.now ≡ Released }
    ensures keeper { keeper.new ≡ only book (keeper_of (log_of book keeper.old ++ call (number_of book seat.old) release.now reply.now ∷ [])) }
    ensures told { IsTold book release.now reply.now seat.old seat.new }
    ensures seen { log_of book seat.new ≡ log_of book keeper.new }
    ensures seat { IsSeer book seat.new }
    ensures settled { IsSettled seat.new }
{
    take_reference(records, keeper, reference, book);
    take_seat(records, keeper, seat, book);
    tell(records, keeper, seat, book, release, reply);
}

/// Shows a reference the whole record of its book: what it has is out there, and so no call by it is refused as stale.
pub(crate) fn confirm<J: Naming>(
    records: &Record<J>,
    keeper: &mut Token<J>,
    reference: &mut Token<J>,
    book: u32,
)
    requires keeper { IsKeeper book keeper.old }
    requires reference { IsReference book reference.old }
    ensures keeper { keeper.new ≡ keeper.old }
    ensures reference { reference.new ≡ only book (holder (log_of book keeper.old) ((ticket_at book reference.old, key_at book reference.old) ∷ [])) }
    ensures seen { IsPrefix (log_of book reference.old) (log_of book keeper.old) }
    ensures out { IsOut (log_of book keeper.old) (ticket_at book reference.old) (key_at book reference.old) }
{
    let blank = records.part_held(keeper);
    let shown = mem::replace(reference, blank);
    take_reference(records, keeper, shown, book);
    *reference = records.part_held(keeper);
}

/// The keeper has a reference: it is out.
fn take_reference<J: Naming>(
    records: &Record<J>,
    keeper: &mut Token<J>,
    reference: Token<J>,
    book: u32,
)
    requires keeper { IsKeeper book keeper.old }
    requires reference { IsReference book reference }
    ensures keeper { keeper.new ≡ only book (keeping_for (log_of book keeper.old) ((ticket_at book reference, key_at book reference) ∷ []) []) }
    ensures seen { IsPrefix (log_of book reference) (log_of book keeper.old) }
    ensures out { IsOut (log_of book keeper.old) (ticket_at book reference) (key_at book reference) }
{
    records.join(keeper, reference);
}

/// The keeper may call for a seat: the seat's calls of the book are those in the record that have its number.
fn take_seat<J: Naming>(records: &Record<J>, keeper: &mut Token<J>, seat: &mut Token<J>, book: u32)
    requires keeper { keeper.old ≡ only book (keeping_for (log_of book keeper.old) (at book keeper.old).held []) }
    requires seat { IsSeer book seat.old }
    ensures keeper { keeper.new ≡ only book (keeping_for (log_of book keeper.old) (at book keeper.old).held (caller (number_of book seat.old) (mine_of book seat.old) ∷ [])) }
    ensures seat { seat.new ≡ without_book book seat.old }
    ensures seen { IsPrefix (log_of book seat.old) (log_of book keeper.old) }
    ensures mine { AreTheirs (log_of book keeper.old) (caller (number_of book seat.old) (mine_of book seat.old) ∷ []) }
{
    let part = records.part_book(seat, book);
    records.join(keeper, part);
}

/// Notes the call for the seat for which the keeper may call, and gives that back to the seat's token.
fn tell<J: Naming>(
    records: &Record<J>,
    keeper: &mut Token<J>,
    seat: &mut Token<J>,
    book: u32,
    event: &Event,
    reply: &Reply,
)
    requires keeper { keeper.old ≡ only book (keeping_for (log_of book keeper.old) (at book keeper.old).held (caller (number_of book keeper.old) (mine_of book keeper.old) ∷ [])) }
    requires may { MayAppend (at book keeper.old) event.now reply.now }
    requires seat { (at book seat.old ≡ nobody) × IsSettled seat.old }
    ensures keeper { keeper.new ≡ only book (keeping_for (log_of book keeper.old ++ call (number_of book keeper.old) event.now reply.now ∷ []) (tickets_told event.now reply.now (at book keeper.old).held) []) }
    ensures seat { seat.new ≡ put book (spoken (number_of book keeper.old) (log_of book keeper.old ++ call (number_of book keeper.old) event.now reply.now ∷ []) (mine_of book keeper.old ++ call (number_of book keeper.old) event.now reply.now ∷ [])) seat.old }
{
    records.append(keeper, book, event, reply);
    let part = records.part_callers(keeper);
    records.join(seat, part);
}
