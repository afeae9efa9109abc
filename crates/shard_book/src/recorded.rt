//! A call as it is recorded, and the places that the record has; `Book::call` records by it, and settling reads it.

ghost use Rattle.std.specs.Prelude.{◌≡◌, ◌+◌, ◌≤◌, ◌<◌, ◌^◌, true, IfOk, IfErr, OnOk, OnErr, vec_len, vec_capacity};
ghost use Rattle.stick_model.specs.Step.{Step, slot_of};
ghost use Rattle.stick_model.specs.Limits.{IsTableEvent};
ghost use Rattle.stick_model.specs.Refusals.{has_life, life_taken};
ghost use Rattle.stick_model.specs.declared.replies.Reply.TheVariants.{Released};
ghost use Rattle.shard_book.specs.BookState.{IsCallRefused, may_grow, out_after as specified_out, recorded as specified_record};
ghost use Rattle.shard_book.specs.Briefs.{MayTell, unanswered};

use crate::brief::Brief;
use base_sequence::NoMemory;
use std::alloc::Global;
use std::marker::Model;
use std::mem::size_of;
use stick_table::{Event, Refusal, Reply, Stored, Table};

const _: () = prove!(size_of::<Recorded>() <= 48);

/// A call that was answered, and the seat that made it. It takes 48 bytes, and memory of its own only where its key has more
/// than sixteen bytes, or it is a listing or a put of any number of pairs but one.
#[derive(Drop)]
pub struct Recorded {
    call: Brief,
}

impl Model for Recorded {
    ghost use Rattle.shard_book.specs.RecordedState.{RecordedState};

    ghost Value = { RecordedState };

    ghost use Rattle.shard_book.specs.Briefs.{call_in};

    ghost view = { λ recorded. call_in recorded.call };
}

impl Recorded {
    ghost use Rattle.std.specs.Prelude.{◌≡◌, ◌↔◌, IsTrue, IfOk, IsOk, OnErr, true};
    ghost use Rattle.shard_book.specs.BookState.{may_grow};
    ghost use Rattle.shard_book.specs.Briefs.{IsBrief, MayTell, unanswered, with_slot};

    /// A seat's call of an event that isn't answered yet. That of a release takes no memory.
    ///
    /// It is put into its callers: a record that comes back from a call is copied, 40 instructions of each event.
    #[inline(always)]
    pub(crate) fn of(alloc: Global, seat: u32, event: &Event) -> Result<Recorded, NoMemory>
        ensures call { IfOk result (λ call. call ≡ unanswered seat event.now) }
        ensures brief { IsBrief event.now → IsOk result }
        ensures memory { OnErr result (may_grow event.now ≡ true) }
    {
        match Brief::of(seat, event) {
            Some(call) => Ok(Recorded { call }),
            None => Ok(Recorded {
                call: Brief::whole(alloc, seat, event)?,
            }),
        }
    }

    /// The call with the slot that its reply tells.
    fn with_slot(self, slot: Option<u32>) -> Recorded
        requires { MayTell self slot }
        ensures { result ≡ with_slot slot self }
    {
        let Recorded { call } = self;
        Recorded {
            call: call.with_slot(slot),
        }
    }

    /// The seat that made it.
    pub fn seat(&self) -> u32
        ensures { result ≡ self.now.seat }
    {
        self.call.seat()
    }

    /// Its event, and the slot that its reply told, where there is memory for the event.
    pub fn stored(&self, alloc: Global) -> Result<Stored, NoMemory>
        ensures { IfOk result (λ stored. stored ≡ self.now.stored) }
    {
        Ok(Stored {
            event: self.call.event(alloc)?,
            slot: self.call.slot(),
        })
    }

    /// Whether that is its event.
    pub fn is_of(&self, event: &Event) -> bool
        ensures { IsTrue result ↔ (event.now ≡ self.now.stored.event) }
    {
        self.call.asks(event)
    }
}

/// How a call is recorded, once it is answered.
pub(crate) fn record_of(call: Recorded, reply: &Reply) -> Recorded
    requires { MayTell call (slot_of reply.now) }
    ensures { result ≡ specified_record call.seat call.stored.event reply.now }
{
    call.with_slot(reply.slot())
}

/// Reserves the record's place for an event, and for a reference the place for its release beside it. Those for the
/// releases of the tickets that are out stay, so that a release reserves nothing.
pub(crate) fn reserve_places(
    calls: &mut Vec<Recorded>,
    out: usize,
    event: &Event,
) -> Result<(), NoMemory>
    requires { vec_len calls.old + out ≤ vec_capacity calls.old }
    ensures items { calls.new.items ≡ calls.old.items }
    ensures room { vec_len calls.new + out ≤ vec_capacity calls.new }
    ensures ok { OnOk result (vec_len calls.new + out + life_taken event.now ≤ vec_capacity calls.new) }
    ensures err { OnErr result (may_grow event.now ≡ true) }
{
    let places = match event {
        Event::Release(_, _) => 0,
        Event::Track(_, _) => 2,
        _ => 1,
    };
    calls.reserve(out + places)
}

/// Has a table answer an event, once the record has its place.
pub(crate) fn answer<T: Table>(
    live: &mut T,
    calls: &mut Vec<Recorded>,
    out: usize,
    event: &Event,
) -> Result<Reply, Refusal>
    requires event { IsTableEvent event.now }
    requires room { vec_len calls.old + out ≤ vec_capacity calls.old }
    ensures items { calls.new.items ≡ calls.old.items }
    ensures room { vec_len calls.new + out ≤ vec_capacity calls.new }
    ensures place { OnOk result (vec_len calls.new + out + life_taken event.now ≤ vec_capacity calls.new) }
    ensures ok { IfOk result (λ reply. Step (T.state live.old) event.now reply (T.state live.new)) }
    ensures lives { OnOk result (has_life (T.state live.old) event.now ≡ true) }
    ensures refused { IfErr result (IsCallRefused (T.state live.old) event.now) }
    ensures err { OnErr result (T.state live.new ≡ T.state live.old) }
    ensures base { T.base live.new ≡ T.base live.old }
{
    match reserve_places(calls, out, event) {
        Ok(()) => live.step(event),
        Err(_) => Err(Refusal::Memory),
    }
}

/// The same, the reply given twice.
pub(crate) fn answer_twice<T: Table>(
    live: &mut T,
    calls: &mut Vec<Recorded>,
    out: usize,
    event: &Event,
) -> Result<(Reply, Reply), Refusal>
    requires event { IsTableEvent event.now }
    requires room { vec_len calls.old + out ≤ vec_capacity calls.old }
    ensures items { calls.new.items ≡ calls.old.items }
    ensures room { vec_len calls.new + out ≤ vec_capacity calls.new }
    ensures place { OnOk result (vec_len calls.new + out + life_taken event.now ≤ vec_capacity calls.new) }
    ensures ok { IfOk result (λ replies. Step (T.state live.old) event.now replies.0 (T.state live.new)) }
    ensures twice { IfOk result (λ replies. replies.1 ≡ replies.0) }
    ensures lives { OnOk result (has_life (T.state live.old) event.now ≡ true) }
    ensures refused { IfErr result (IsCallRefused (T.state live.old) event.now) }
    ensures err { OnErr result (T.state live.new ≡ T.state live.old) }
    ensures base { T.base live.new ≡ T.base live.old }
{
    match reserve_places(calls, out, event) {
        Ok(()) => live.step_twice(event),
        Err(_) => Err(Refusal::Memory),
    }
}

/// How many tickets are out after a reply.
pub(crate) fn out_after(out: usize, reply: &Reply) -> usize
    requires limit { out ≤ 2 ^ 62 }
    requires held { reply.now ≡ Released → 1 ≤ out }
    ensures { result ≡ specified_out out reply.now }
{
    match reply {
        Reply::Tracked { .. } => out + 1,
        Reply::Released => out - 1,
        _ => out,
    }
}
