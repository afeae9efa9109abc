//! What becomes of bytes that a side still sends to one that has failed; `End` counts them, and `Link` ends by it.

ghost use Rattle.std.specs.Prelude.{◌≡◌};
ghost use Rattle.tcp_link.specs.Losses.{drops, is_given_up, is_spent, loss_after, no_loss};

use tcp_flow::{Cause, Halt, Step};

/// How many bytes are dropped before their sender is to learn that nobody takes them.
const MOST: u64 = 1 << 20;

/// Whether more comes that would be dropped.
#[derive(Clone, Copy, Debug, PartialEq, Eq)]
pub(crate) enum Rest {
    /// Nothing is there now.
    Waits,
    /// There may be more now.
    More,
    /// Nothing more comes: the side has ended, or has failed too.
    Nothing,
}

/// How many bytes were dropped, and whether more comes.
#[derive(Clone, Copy, Debug, PartialEq, Eq)]
pub(crate) struct Loss {
    pub(crate) bytes: u64,
    pub(crate) rest: Rest,
}

impl Loss {
    /// Nothing was dropped.
    pub(crate) fn none() -> Loss
        ensures { result ≡ no_loss }
    {
        Loss {
            bytes: 0,
            rest: Rest::Waits,
        }
    }

    /// The same after a read of such bytes.
    pub(crate) fn after(self, read: Result<usize, Halt>) -> Loss
        ensures { result ≡ loss_after self read }
    {
        match read {
            Ok(0) => self.with(Rest::Nothing),
            Ok(count) => Loss {
                bytes: self.bytes.saturating_add(count as u64),
                rest: Rest::More,
            },
            Err(Halt::NotNow) => self.with(Rest::Waits),
            Err(Halt::Failed) => self.with(Rest::Nothing),
        }
    }

    /// The same bytes, where this is known of what comes.
    fn with(self, rest: Rest) -> Loss
        ensures { result ≡ record self { rest = rest } }
    {
        Loss {
            bytes: self.bytes,
            rest,
        }
    }

    /// Whether nothing more comes.
    pub(crate) fn is_spent(self) -> bool
        ensures { result ≡ is_spent self.rest }
    {
        self.rest == Rest::Nothing
    }

    /// Whether so many bytes were dropped that their sender is to learn it.
    pub(crate) fn is_given_up(self) -> bool
        ensures { result ≡ is_given_up self }
    {
        self.bytes >= MOST
    }
}

/// Whether the bytes that a side still sends are dropped, by the direction from it and the one to it.
pub(crate) fn drops(from: Step, to: Step) -> bool
    ensures { result ≡ drops from to }
{
    from == Step::Failed(Cause::Write) && to != Step::Failed(Cause::Write)
}
