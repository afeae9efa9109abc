//! What is asked of the program by signals, and by `stop`, while it serves or drains; `reporting` and `running_program` go by it.

ghost use Rattle.std.specs.Prelude.{◌≡◌};
ghost use Rattle.tcp_proxy.specs.Asking as spec;

/// What signals ask.
#[derive(Clone, Copy, Debug, PartialEq, Eq)]
pub(crate) enum Ask {
    /// Nothing that wasn't asked before.
    Nothing,
    /// To drain for the program's own time.
    Drain,
    /// To end what is open now.
    Hasten,
}

/// What is asked where so many signals wait, of which so many had been seen before, and the program drains already or doesn't. A signal
/// goes on waiting once it was seen.
pub(crate) fn ask_of(seen: u32, pending: u32, is_draining: bool) -> Ask
    ensures { result ≡ spec.ask_of seen pending is_draining }
{
    if pending <= seen {
        return Ask::Nothing;
    }
    if is_draining || pending - seen > 1 {
        return Ask::Hasten;
    }
    Ask::Drain
}

/// How many ms open connections may go on after a stop that names a time or none, where the program has its own time, and drains already
/// or doesn't.
pub(crate) fn drain_time(asked: Option<u64>, own: u64, is_draining: bool) -> u64
    ensures { result ≡ spec.drain_time asked own is_draining }
{
    match asked {
        Some(time) => time,
        None if is_draining => 0,
        None => own,
    }
}
