//! A clock that stands at one moment; `stickd_script` makes one for a line, `tcp_relay` for a verdict or an end.

ghost use Rattle.std.specs.Prelude.{◌≡◌, ◌<◌, ◌^◌};

use crate::Clock;
use std::marker::Model;

/// A clock that shows one moment for ever. Contracts see that moment.
#[derive(Drop)]
pub struct StoppedClock {
    moment: u64,
}

impl Model for StoppedClock {
    ghost use Rattle.std.specs.Prelude.{◌<◌, ◌^◌, ℕ};

    ghost Value = { ℕ };

    ghost view = { λ clock. clock.moment };

    ghost invariant = { λ clock. clock.moment < 2 ^ 62 };
}

impl StoppedClock {
    /// The clock that shows a moment in ms.
    pub fn at(moment: u64) -> StoppedClock
        requires { moment < 2 ^ 62 }
        ensures { result ≡ moment }
    {
        StoppedClock { moment }
    }
}

impl Clock for StoppedClock {
    ghost use Rattle.std.specs.Prelude.{◌≡◌, ℕ};

    ghost State = { ℕ };

    ghost state = { λ clock. clock };

    ghost shows = { λ old moment new. (moment ≡ old) × (new ≡ old) };

    fn now(&mut self) -> u64 {
        self.moment
    }
}
