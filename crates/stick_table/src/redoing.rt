//! Stored calls, made again on a plain table; only tests call it.

ghost use Rattle.std.specs.Prelude.{◌≡◌, All, IfOk, IfErr, List};
ghost use Rattle.stick_model.specs.State.{State};
ghost use Rattle.stick_model.specs.Run.{LastingRun, RedoStops, CanRedoAll, redone_all};
ghost use Rattle.stick_model.specs.Limits.{IsTableEvent};

use crate::PlainTable;
use base_sequence::Sequence;
use std::alloc::Global;
use stick_model::{Refusal, Reply, Stored};

/// The replies to stored calls, made again one after another: a reference that one makes gets the slot that it names.
/// Room for all replies is taken first: where it is refused, no call is made. It ends at the first refusal; the calls
/// before it stand. Calls that had life left where they were made are refused
/// for want of memory alone.
pub fn redo_all(
    alloc: Global,
    table: &mut PlainTable,
    calls: &[Stored],
) -> Result<Sequence<Reply>, Refusal>
    requires events { All (λ (call : Stored). IsTableEvent call.event) calls.now }
    requires slots { CanRedoAll table.old.now calls.now }
    ensures ok { IfOk result (λ replies. redone_all table.old.now calls.now ≡ (replies, table.new.now)) }
    ensures err { IfErr result (λ refusal. RedoStops table.old.now calls.now refusal table.new.now) }
    ensures base { table.new.base ≡ table.old.base }
    ensures memory { (replies : List Reply) (new : State) → LastingRun table.old.now calls.now replies new → IfErr result (λ refusal. refusal ≡ Refusal.Memory) }
{
    let mut replies = Vec::new(alloc);
    match replies.reserve(calls.len()) {
        Ok(()) => {}
        Err(_) => return Err(Refusal::Memory),
    }
    for call in calls {
        let reply = table.redo(call)?;
        replies.push_reserved(reply);
    }
    Ok(Sequence::from_vec(replies))
}
