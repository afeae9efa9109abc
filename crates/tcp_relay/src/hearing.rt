//! What becomes of a client that is to begin by a header; `receiving` goes by it.

ghost use Rattle.std.specs.Prelude.{◌≡◌};
ghost use Rattle.proxy_header.specs.Header.{heard};
ghost use Rattle.tcp_relay.specs.Hearings.{Becomes, fault_count};

use crate::header::Header;
use proxy_header::{Heard, hear};
use tcp_stats::Count;

/// Why a client is reset that isn't judged.
#[derive(Clone, Copy, Debug, PartialEq, Eq)]
pub(crate) enum HeaderFault {
    /// Its header hadn't come in time.
    Late,
    /// It began by something else.
    Wrong,
    /// It ended, or failed, before its header was whole.
    Ended,
    /// It is no trusted proxy.
    Untrusted,
}

impl HeaderFault {
    /// What is counted of it, beside that it is rejected.
    pub(crate) fn count(self) -> Count
        ensures { result ≡ fault_count self }
    {
        match self {
            HeaderFault::Late => Count::HeaderLate,
            HeaderFault::Wrong => Count::HeaderWrong,
            HeaderFault::Ended => Count::HeaderEnded,
            HeaderFault::Untrusted => Count::HeaderUntrusted,
        }
    }
}

/// What becomes of a client that is to begin by a header.
#[derive(Clone, Copy, Debug)]
pub(crate) enum Hearing {
    /// More bytes are waited for.
    WaitOn,
    /// Its header is whole: it is judged.
    Told(Header),
    /// It is reset.
    Failed(HeaderFault),
}

/// What becomes of a client whose first bytes are these, and which sends no more, or may.
pub(crate) fn hearing_of(bytes: &[u8], is_closed: bool) -> Hearing
    ensures { Becomes is_closed (heard bytes.now) result }
{
    match hear(bytes) {
        Heard::Unfinished if is_closed => Hearing::Failed(HeaderFault::Ended),
        Heard::Unfinished => Hearing::WaitOn,
        Heard::Wrong => Hearing::Failed(HeaderFault::Wrong),
        Heard::Told { length, ends } => Hearing::Told(Header { length, ends }),
    }
}
