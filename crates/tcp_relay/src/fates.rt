//! How an admitted connection ends; `closing` and `turning` say it, and `Counted` counts it.

ghost use Rattle.std.specs.Prelude.{◌≡◌, Some};
ghost use Rattle.tcp_relay.specs.Fates.{fate_of, over_by};
ghost use Rattle.tcp_relay.specs.Traffics.{none};

use crate::traffic::Traffic;
use tcp_link::{ConnectFault, Lateness};
use tcp_stats::Count;

/// How an admitted connection ends.
#[derive(Clone, Copy, Debug, PartialEq, Eq)]
pub(crate) enum Ending {
    /// Both sides have ended, or one has failed.
    Over,
    /// Its server wasn't reached.
    Unreached(ConnectFault),
    /// A timeout is over.
    Late(Lateness),
    /// It was open at the end of a drain.
    Drained,
}

impl Ending {
    /// The end of a connection that is over, where its server wasn't reached for this cause, if it wasn't.
    pub(crate) fn over(fault: Option<ConnectFault>) -> Ending
        ensures { result ≡ over_by fault }
    {
        match fault {
            Some(fault) => Ending::Unreached(fault),
            None => Ending::Over,
        }
    }

    /// What is counted of it, beside that it ended.
    pub(crate) fn fate(self) -> Option<Count>
        ensures { result ≡ fate_of self }
    {
        match self {
            Ending::Over => None,
            Ending::Unreached(fault) => Some(count_of_fault(fault)),
            Ending::Late(lateness) => Some(count_of_lateness(lateness)),
            Ending::Drained => Some(Count::Drained),
        }
    }
}

/// What is counted where a server wasn't reached.
fn count_of_fault(fault: ConnectFault) -> Count
    ensures { fate_of (Ending.Unreached fault) ≡ Some result }
{
    match fault {
        ConnectFault::Refused => Count::ServerRefused,
        ConnectFault::TimedOut => Count::ServerTimedOut,
        ConnectFault::NoPort => Count::NoPort,
        ConnectFault::Other => Count::ServerFailed,
    }
}

/// What is counted where a timeout is over.
fn count_of_lateness(lateness: Lateness) -> Count
    ensures { fate_of (Ending.Late lateness) ≡ Some result }
{
    match lateness {
        Lateness::Connect => Count::ServerTimedOut,
        Lateness::Client => Count::ClientTimedOut,
        Lateness::Server => Count::ServerSilent,
        Lateness::Fin => Count::FinTimedOut,
    }
}

/// An end of an admitted connection.
#[derive(Clone, Copy, Debug, PartialEq, Eq)]
pub(crate) struct Ended {
    pub(crate) ending: Ending,
    /// The bytes after which it ends.
    pub(crate) traffic: Traffic,
    /// Those of them that were counted while it was open.
    pub(crate) counted: Traffic,
}

impl Ended {
    /// An end before anything passed.
    pub(crate) fn unbegun(ending: Ending) -> Ended
        ensures { result ≡ record { ending = ending; traffic = none; counted = none } }
    {
        Ended {
            ending,
            traffic: Traffic::none(),
            counted: Traffic::none(),
        }
    }
}
