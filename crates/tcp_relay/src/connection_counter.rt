//! What all workers share where connections come in: the numbers of connections and the turns; `Acceptor` draws from it.

ghost use Rattle.std.specs.Prelude.{◌≡◌, ◌+◌, ◌≤◌, IfNone, IfSome};
ghost use Rattle.tcp_relay.specs.Numbers.{last_of};

use crate::listener_turn::ListenerTurn;
use std::sync::{Mutex, Wait};

/// The greatest number of a connection.
const LAST: u64 = 1 << 62;

/// Hands out the numbers of connections from 1 on, each once, up to the last. Beside it stands whose turn it is to accept.
#[derive(Drop)]
pub(crate) struct ConnectionCounter {
    last: u64,
    drawn: Mutex<u64>,
    pub(crate) listener_turn: ListenerTurn,
}

impl ConnectionCounter {
    /// A counter of which no number is drawn yet. The last is the one after which serving stops, and at most 2^62.
    pub(crate) fn new(stop_after: Option<u64>, listener_turn: ListenerTurn) -> Self
        ensures { result.last ≡ last_of stop_after }
    {
        let last = match stop_after {
            Some(last) => last.min(LAST),
            None => LAST,
        };
        ConnectionCounter {
            last,
            drawn: Mutex::new(0),
            listener_turn,
        }
    }

    /// The next number. None once the last has been drawn.
    pub(crate) fn draw(&self, rt: &impl Wait) -> Option<u64>
        ensures first { IfSome result (λ number. 1 ≤ number) }
        ensures last { IfSome result (λ number. number ≤ self.now.last) }
    {
        let mut drawn = self.drawn.lock(rt);
        draw_next(&mut drawn, self.last)
    }
}

/// The number after the last one that was drawn, which it then is. None, and nothing changes, where that was the last of all.
fn draw_next(drawn: &mut u64, last: u64) -> Option<u64>
    ensures number { IfSome result (λ number. number ≡ drawn.old + 1) }
    ensures drawn { IfSome result (λ number. drawn.new ≡ number) }
    ensures last { IfSome result (λ number. number ≤ last) }
    ensures none { IfNone result (last ≤ drawn.old) }
    ensures stays { IfNone result (drawn.new ≡ drawn.old) }
{
    if *drawn >= last {
        return None;
    }
    *drawn += 1;
    Some(*drawn)
}
