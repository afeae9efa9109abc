//! A list of events on any table; only tests call it.

ghost use Rattle.std.specs.Prelude.{◌≡◌, All, IfOk, IfErr};
ghost use Rattle.stick_model.specs.Run.{Run, RunStops};
ghost use Rattle.stick_model.specs.Limits.{IsTableEvent};

use crate::Table;
use base_sequence::Sequence;
use std::alloc::Global;
use stick_model::{Event, Refusal, Reply};

/// The replies to events, one after another. Room for all replies is taken first: where it is refused, no event is
/// made. It ends at the first refusal; the events before it stand.
pub fn run<T: Table>(
    alloc: Global,
    table: &mut T,
    events: &[Event],
) -> Result<Sequence<Reply>, Refusal>
    requires { All IsTableEvent events.now }
    ensures ok { IfOk result (λ replies. Run (T.state table.old) events.now replies (T.state table.new)) }
    ensures err { IfErr result (λ refusal. RunStops (T.state table.old) events.now refusal (T.state table.new)) }
    ensures base { T.base table.new ≡ T.base table.old }
{
    let mut replies = Vec::new(alloc);
    match replies.reserve(events.len()) {
        Ok(()) => {}
        Err(_) => return Err(Refusal::Memory),
    }
    for event in events {
        let reply = table.step(event)?;
        replies.push_reserved(reply);
    }
    Ok(Sequence::from_vec(replies))
}
