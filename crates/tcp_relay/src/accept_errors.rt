//! What an error of accepting a client means; `turning` asks it, and `Acceptor` goes by it.

ghost use Rattle.std.specs.Prelude.{◌≡◌};
ghost use Rattle.tcp_relay.specs.Accepting.{fault_of, heard_as, is_of_one_client, shortage_of};
ghost use Rattle.tcp_relay.specs.Counting.{missing};

use tcp_stats::Count;

/// What an error of accepting a client means (accept(2)).
#[derive(Clone, Copy, Debug, PartialEq, Eq)]
pub(crate) enum AcceptFault {
    /// No client waits now.
    NoneWaits,
    /// It was of one client, which is gone. The next one can be accepted at once.
    Gone,
    /// A client came whose address can't be read, and was closed.
    Unreadable,
    /// The system is short of descriptors or memory, or can't go on for another reason. It is tried again after a while.
    Short(Shortage),
}

impl AcceptFault {
    /// What it means where a drain has begun, or hasn't: a listener that was shut fails as if the system were short.
    pub(crate) fn heard(self, is_draining: bool) -> AcceptFault
        ensures { result ≡ heard_as is_draining self }
    {
        match self {
            AcceptFault::Short(_) if is_draining => AcceptFault::NoneWaits,
            fault => fault,
        }
    }
}

/// What the system is short of.
#[derive(Clone, Copy, Debug, PartialEq, Eq)]
pub(crate) enum Shortage {
    Descriptors,
    Memory,
    /// It can't go on for another reason.
    Other,
}

impl Shortage {
    /// As what it is counted that no client could be accepted.
    pub(crate) fn count(self) -> Count
        ensures { result ≡ missing self }
    {
        match self {
            Shortage::Descriptors => Count::NoDescriptors,
            Shortage::Memory => Count::NoMemory,
            Shortage::Other => Count::Unaccepted,
        }
    }
}

/// Why no client was accepted.
#[derive(Clone, Copy, Debug, PartialEq, Eq)]
pub(crate) struct Unaccepted {
    /// What the error means.
    pub(crate) fault: AcceptFault,
    /// The error's number (errno(3)), if it has one.
    pub(crate) error: Option<u32>,
}

impl Unaccepted {
    /// That none waits.
    pub(crate) fn none_waits() -> Unaccepted
        ensures { result.fault ≡ AcceptFault.NoneWaits }
    {
        Unaccepted {
            fault: AcceptFault::NoneWaits,
            error: None,
        }
    }

    /// What an error of accepting means, by its number.
    pub(crate) fn of(error: Option<u32>) -> Unaccepted
        ensures fault { result.fault ≡ fault_of error }
        ensures error { result.error ≡ error }
    {
        Unaccepted {
            fault: fault_of(error),
            error,
        }
    }
}

/// What the system is short of, by an error's number (accept(2), socket(2)).
pub(crate) fn shortage_of(code: u32) -> Shortage
    ensures { result ≡ shortage_of code }
{
    // ENFILE, EMFILE
    if code == 23 || code == 24 {
        return Shortage::Descriptors;
    }
    // ENOMEM, ENOBUFS
    if code == 12 || code == 105 {
        return Shortage::Memory;
    }
    Shortage::Other
}

/// Whether an error, by its number, is of one client that is gone.
fn is_of_one_client(code: u32) -> bool
    ensures { result ≡ is_of_one_client code }
{
    // EPERM, EINTR, ENONET, EPROTO, ENOPROTOOPT, EOPNOTSUPP, ENETDOWN, ENETUNREACH, ECONNABORTED, EHOSTDOWN, EHOSTUNREACH
    code == 1
        || code == 4
        || code == 64
        || code == 71
        || code == 92
        || code == 95
        || code == 100
        || code == 101
        || code == 103
        || code == 112
        || code == 113
}

/// What an error means, by its number. One without a number comes where the peer's address can't be read.
fn fault_of(code: Option<u32>) -> AcceptFault
    ensures { result ≡ fault_of code }
{
    let Some(code) = code else {
        return AcceptFault::Unreadable;
    };
    // EAGAIN
    if code == 11 {
        return AcceptFault::NoneWaits;
    }
    if is_of_one_client(code) {
        return AcceptFault::Gone;
    }
    AcceptFault::Short(shortage_of(code))
}
