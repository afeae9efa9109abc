//! Whether a worker looks a second time before it sleeps; `Watch` goes by it.
//!
//! A worker with nothing to do lets other threads run, and looks again: its connections' peers may run on this processor, and have
//! sent by then. That saves the sleep. Where they run elsewhere it is two calls of the system for nothing, each time.

ghost use Rattle.std.specs.Prelude.{◌≡◌};
ghost use Rattle.tcp_relay.specs.SecondLooks.{is_due, noted, skipped};

/// How many looks that bring nothing are allowed by one that brought something.
const ALLOWED: u32 = 16;

/// How many waits go without a look, where those brought nothing.
const SKIPS: u32 = 255;

/// Whether second looks have brought anything lately.
#[derive(Clone, Copy, Debug, Drop, PartialEq, Eq)]
pub(crate) struct SecondLook {
    /// How many more looks may bring nothing.
    left: u32,
    /// How many waits go without one.
    skips: u32,
}

impl SecondLook {
    /// The first wait has one.
    pub(crate) fn new() -> SecondLook
        ensures { result ≡ record { left = 0; skips = 0 } }
    {
        SecondLook { left: 0, skips: 0 }
    }

    /// Whether this wait has one.
    pub(crate) fn is_due(&self) -> bool
        ensures { result ≡ is_due self.now }
    {
        self.left > 0 || self.skips == 0
    }

    /// This wait goes without.
    pub(crate) fn skip(&mut self)
        ensures { self.new ≡ skipped self.old }
    {
        self.skips = self.skips.saturating_sub(1);
    }

    /// This wait had one, which brought something or nothing.
    pub(crate) fn note(&mut self, has_paid: bool)
        ensures { self.new ≡ noted has_paid self.old }
    {
        *self = if has_paid {
            SecondLook {
                left: ALLOWED,
                skips: 0,
            }
        } else if self.left > 1 {
            SecondLook {
                left: self.left - 1,
                skips: 0,
            }
        } else {
            SecondLook {
                left: 0,
                skips: SKIPS,
            }
        };
    }
}
