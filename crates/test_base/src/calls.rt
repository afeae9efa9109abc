//! Calls of tables, one in each function. What a table promises of a call is long, and the tests compare answers: so little or
//! nothing is promised here, and the proofs of the tests have nothing of it to carry.

ghost use Rattle.std.specs.Prelude.{◌≡◌, All, IfOk};
ghost use Rattle.stick_model.specs.Limits.{IsTableEvent, IsTableSpec};
ghost use Rattle.stick_model.specs.Run.{CanRedo, CanRedoAll};
ghost use Rattle.stick_model.specs.Step.{Step, slot_of};
ghost use Rattle.stick_model.specs.declared.events.Stored.{Stored as ItsStored};

use base_sequence::NoMemory;
use std::alloc::Global;
use stick_table::{Event, PlainTable, Refusal, Reply, Spec, Stored, Table, redo_all, run};

/// What an event is answered.
pub type Answer = Result<Reply, Refusal>;

/// What an event is answered at two times: twice at once, or again when the same call is made again.
pub type Answers = (Answer, Answer);

/// Both answers are this refusal.
fn refused(refusal: Refusal) -> Answers {
    (Err(refusal), Err(refusal))
}

/// An empty table.
pub fn open<T: Table>(alloc: Global, spec: Spec) -> Result<T, NoMemory>
    requires { IsTableSpec spec }
{
    T::open(alloc, spec)
}

/// What a table answers an event.
pub fn step<T: Table>(table: &mut T, event: &Event) -> Answer
    requires { IsTableEvent event.now }
{
    table.step(event)
}

/// What a table answers an event, twice.
pub fn step_twice<T: Table>(table: &mut T, event: &Event) -> Answers
    requires { IsTableEvent event.now }
{
    match table.step_twice(event) {
        Ok((reply, again)) => (Ok(reply), Ok(again)),
        Err(refusal) => refused(refusal),
    }
}

/// A plain copy of a table.
fn copied<T: Table>(table: &T) -> Result<PlainTable, NoMemory>
    ensures { IfOk result (λ copy. copy.now ≡ T.state table.now) }
{
    table.to_plain()
}

/// What a table replies to an event, and the call by which it is made again.
fn step_stored<T: Table>(table: &mut T, event: Event) -> Result<(Stored, Reply), Refusal>
    requires { IsTableEvent event }
    ensures step { IfOk result (λ told. Step (T.state table.old) told.0.event told.1 (T.state table.new)) }
    ensures slot { IfOk result (λ told. told.0.slot ≡ slot_of told.1) }
    ensures event { IfOk result (λ told. IsTableEvent told.0.event) }
{
    let reply = table.step(&event)?;
    let slot = reply.slot();
    Ok((Stored { event, slot }, reply))
}

/// What a plain table answers a call that is made again.
fn redo(table: &mut PlainTable, stored: &Stored) -> Answer
    requires event { IsTableEvent stored.now.event }
    requires slot { CanRedo table.old.now stored.now }
{
    table.redo(stored)
}

/// What a table answers an event, and what a plain copy of it, as it was before, answers the same call made again.
/// Where there is no copy, the event is not made.
#[tactic(auto, using(stick_model::proofs::RunLemmas::can_redo))]
pub fn step_and_redo<T: Table>(table: &mut T, event: Event) -> Answers
    requires { IsTableEvent event }
{
    let Ok(mut copy) = copied(table) else {
        return refused(Refusal::Memory);
    };
    match step_stored(table, event) {
        Ok((stored, reply)) => (Ok(reply), redo(&mut copy, &stored)),
        Err(refusal) => refused(refusal),
    }
}

/// How many replies a table gives to events, one after another.
pub fn run_all<T: Table>(alloc: Global, table: &mut T, events: &[Event]) -> Result<usize, Refusal>
    requires { All IsTableEvent events.now }
{
    match run(alloc, table, events) {
        Ok(replies) => Ok(replies.len()),
        Err(refusal) => Err(refusal),
    }
}

/// How many replies a plain table gives to calls that are made again, one after another.
pub fn redo_run(alloc: Global, table: &mut PlainTable, calls: &[Stored]) -> Result<usize, Refusal>
    requires events { All (λ (call : ItsStored). IsTableEvent call.event) calls.now }
    requires slots { CanRedoAll table.old.now calls.now }
{
    match redo_all(alloc, table, calls) {
        Ok(replies) => Ok(replies.len()),
        Err(refusal) => Err(refusal),
    }
}

/// How many events a table had counted at its base, by itself and by a plain table in the state of the base, once what it is now
/// is that base.
pub fn based<T: Table>(table: &mut T) -> Result<[u64; 2], NoMemory> {
    table.set_base()?;
    let plain = table.base_to_plain()?;
    Ok([table.base_events(), plain.events()])
}
