//! How a worker stands at the listener: what it shows, and when it is told of clients in place of another; `listener_turn` goes by it.

ghost use Rattle.std.specs.Prelude.{◌≡◌, false};
ghost use Rattle.tcp_relay.specs.ListenerTurns.{claims, gives_on, is_held_up, told_as, word_of};

use crate::balance::{AWAY, is_waiting, shown};

/// In place of a worker's number, where nobody is told of clients.
pub(crate) const NOBODY: usize = usize::MAX;

/// Who is told of clients, as another worker sees it.
#[derive(Clone, Copy, Debug, PartialEq, Eq)]
pub(crate) enum Told {
    Nobody,
    /// The worker itself.
    Itself,
    /// Another, which waits: it wakes as soon as there is a client.
    Waiting,
    /// Another, which is at work, held up, or takes no client.
    Working,
}

/// Who is told of clients, as a worker of this number sees it: a worker of that number, which shows this.
pub(crate) fn told_as(worker: usize, told: usize, word: usize) -> Told
    ensures { result ≡ told_as worker told word }
{
    if told == NOBODY {
        return Told::Nobody;
    }
    if told == worker {
        return Told::Itself;
    }
    if is_waiting(word) {
        return Told::Waiting;
    }
    Told::Working
}

/// Whether a worker that begins to wait is told of clients in place of who is. It is if it can accept them, and nobody is told;
/// or another that is at work, and nothing but a client would wake it.
pub(crate) fn claims(told: Told, can_accept: bool, is_bounded: bool) -> bool
    ensures { result ≡ claims told can_accept is_bounded }
{
    match told {
        Told::Nobody => can_accept,
        Told::Itself | Told::Waiting => false,
        Told::Working => can_accept && !is_bounded,
    }
}

/// Whether a worker that begins to wait has another told in its place: it can accept none, or knows of more clients than it takes in
/// a turn.
pub(crate) fn gives_on(told: Told, can_accept: bool, may_have: bool) -> bool
    ensures { result ≡ gives_on told can_accept may_have }
{
    told == Told::Itself && (!can_accept || may_have)
}

/// A worker that is told of clients and at work, and how often it had begun to wait.
#[derive(Clone, Copy, Debug, PartialEq, Eq)]
pub(crate) struct Seen {
    pub(crate) worker: usize,
    pub(crate) waits: usize,
}

/// Whether who is told is held up: it was at work a tick before, and has begun no wait since.
pub(crate) fn is_held_up(before: Option<Seen>, now: Option<Seen>) -> bool
    ensures { result ≡ is_held_up before now }
{
    match (before, now) {
        (Some(before), Some(now)) => before == now,
        (_, _) => false,
    }
}

/// How a worker stands that waits, or is at work.
#[derive(Clone, Copy, Debug, PartialEq, Eq)]
pub(crate) struct Stand {
    /// Whether it can accept a client.
    pub(crate) can_accept: bool,
    /// Whether a client may wait that it is to take first.
    pub(crate) may_have: bool,
    /// How many connections it holds.
    pub(crate) held: usize,
}

impl Stand {
    /// It takes no client.
    pub(crate) fn away() -> Stand
        ensures { result.can_accept ≡ false }
    {
        Stand {
            can_accept: false,
            may_have: false,
            held: 0,
        }
    }
}

/// What a worker shows that stands so, and waits or is at work.
pub(crate) fn word_of(stand: Stand, waits: bool) -> usize
    ensures { result ≡ word_of stand waits }
{
    if stand.can_accept && !stand.may_have {
        return shown(stand.held, waits);
    }
    AWAY
}
