//! Where a running clock begins; `RunningClock` is made with it, and whoever starts threads hands it to each.

ghost use Rattle.std.specs.Prelude.{◌≡◌};

use std::time::Instant;

/// The start of a program that serves: an instant, and the moment that its clocks show then, in ms. That moment is past 0 where the
/// program goes on with what it kept of a run before.
#[derive(Clone, Copy)]
pub struct Start {
    pub instant: Instant,
    pub moment: u32,
}

impl Start {
    /// The start of a program that begins anew, at moment 0.
    pub fn at(instant: Instant) -> Start
        ensures { result ≡ record { instant = instant; moment = 0 } }
    {
        Start { instant, moment: 0 }
    }
}
