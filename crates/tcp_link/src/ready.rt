//! What the system reports of a connection's sockets; `tcp_relay` makes it of an event and gives it to `Link::turn`.

ghost use Rattle.std.specs.Prelude.{◌≡◌};
ghost use Rattle.mio.specs.Event.{event_token, is_error};
ghost use Rattle.tcp_link.specs.Aheads.{ahead_of};
ghost use Rattle.tcp_link.specs.Tokens.{Tells, number_of, side_of};

use crate::{Ahead, Side};
use mio::event::Event;

/// What is reported of a connection.
#[derive(Clone, Copy, Debug, PartialEq, Eq)]
pub struct Ready {
    /// The connection's number.
    pub number: usize,
    pub side: Side,
    /// What is known of the bytes that its peer still sends.
    pub ahead: Ahead,
    /// Whether its socket has failed.
    pub has_failed: bool,
}

impl Ready {
    /// What an event reports.
    pub fn of(event: &Event) -> Ready
        ensures number { result.number ≡ number_of (event_token event.now) }
        ensures side { result.side ≡ side_of (event_token event.now) }
        ensures tells { Tells (event_token event.now) result.number result.side }
        ensures ahead { result.ahead ≡ ahead_of event.now }
        ensures failed { result.has_failed ≡ is_error event.now }
    {
        let (number, side) = Side::of(event.token());
        Ready {
            number,
            side,
            ahead: Ahead::of(event),
            has_failed: event.is_error(),
        }
    }
}
