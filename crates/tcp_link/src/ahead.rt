//! What is known of the bytes that a peer still sends; `Ready` tells it, and a direction's reads (`Incoming`) go by it.

ghost use Rattle.std.specs.Prelude.{◌≡◌};
ghost use Rattle.tcp_link.specs.Aheads.{ahead_of, ahead_with, is_last, is_until_empty};

use mio::event::Event;

/// What is known of the bytes that a peer still sends.
#[derive(Clone, Copy, Debug, PartialEq, Eq)]
pub enum Ahead {
    /// There may be more than can be read already.
    More,
    /// What can be read already is all: a read that leaves room is the last.
    Last,
    /// A read that leaves room isn't the last: it stops short of urgent data (tcp(7)), or the socket has failed, which a further
    /// one tells. So reads go on until one finds nothing.
    UntilEmpty,
}

impl Ahead {
    /// What an event tells.
    pub(crate) fn of(event: &Event) -> Ahead
        ensures { result ≡ ahead_of event.now }
    {
        if event.is_error() || event.is_priority() {
            Ahead::UntilEmpty
        } else if event.is_read_closed() {
            Ahead::Last
        } else {
            Ahead::More
        }
    }

    /// What is known once this is told too. An end that was told isn't told again, and a mark of urgent data may still be ahead.
    pub(crate) fn with(self, told: Ahead) -> Ahead
        ensures { result ≡ ahead_with self told }
    {
        match (self, told) {
            (Ahead::UntilEmpty, _) | (_, Ahead::UntilEmpty) => Ahead::UntilEmpty,
            (Ahead::Last, _) | (_, Ahead::Last) => Ahead::Last,
            (Ahead::More, Ahead::More) => Ahead::More,
        }
    }

    /// Whether a read that leaves room is the last.
    pub(crate) fn is_last(self) -> bool
        ensures { result ≡ is_last self }
    {
        matches!(self, Ahead::Last)
    }

    /// Whether reads stop short, and others follow until one finds nothing.
    pub(crate) fn is_until_empty(self) -> bool
        ensures { result ≡ is_until_empty self }
    {
        matches!(self, Ahead::UntilEmpty)
    }
}
