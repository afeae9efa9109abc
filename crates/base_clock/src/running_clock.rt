//! The clock of a program that serves, which goes on from its start; `tcp_proxy` and `tcp_relay` make one for each thread.

ghost use Rattle.std.specs.Prelude.{◌≡◌, ◌≤◌, ◌<◌, ◌+◌, ◌-◌, ◌/◌, ◌^◌, min, max, IfOk, IfErr};
ghost use Rattle.std.specs.Duration.{as_nanos};

use crate::clock::Clock;
use crate::{MAX_MOMENT, Start};
use std::marker::Model;
use std::time::Duration;
use std::{io, time};

/// A clock that shows the moment of its start, and the ms that have passed since, at most `MAX_MOMENT`. Where the time can't be read it
/// shows the last moment that it showed, 0 at first; it never goes back. Contracts see that last moment.
#[derive(Drop)]
pub struct RunningClock<'a, R> {
    rt: &'a R,
    start: Start,
    shown: u64,
}

impl<'a, R> Model for RunningClock<'a, R> {
    ghost use Rattle.std.specs.Prelude.{◌<◌, ◌^◌, ℕ};

    ghost Value = { ℕ };

    ghost view = { λ clock. clock.shown };

    ghost invariant = { λ clock. clock.shown < 2 ^ 62 };
}

impl<'a, R> RunningClock<'a, R> {
    /// A clock that has shown nothing, of the time since this start.
    pub fn new(rt: &'a R, start: Start) -> RunningClock<'a, R>
        ensures { result ≡ 0 }
    {
        RunningClock {
            rt,
            start,
            shown: 0,
        }
    }
}

impl<'a, R: time::Clock> Clock for RunningClock<'a, R> {
    ghost use Rattle.std.specs.Prelude.{◌≡◌, ◌≤◌, ℕ};

    ghost State = { ℕ };

    ghost state = { λ clock. clock };

    ghost shows = { λ old moment new. (old ≤ moment) × (new ≡ moment) };

    fn now(&mut self) -> u64 {
        let elapsed = self.start.instant.elapsed(self.rt);
        self.shown = moment_shown(self.shown, self.start.moment, elapsed);
        self.shown
    }
}

/// What a clock shows that last showed this moment and began at another, where so much time has passed since, or that can't be read.
fn moment_shown(last: u64, first: u32, elapsed: io::Result<Duration>) -> u64
    requires { last < 2 ^ 62 }
    ensures later { last ≤ result }
    ensures bound { result < 2 ^ 62 }
    ensures passed { IfOk elapsed (λ passed. result ≡ max last (min (first + as_nanos passed / 1_000_000) (2 ^ 62 - 1))) }
    ensures unread { IfErr elapsed (λ unread. result ≡ last) }
{
    match elapsed {
        Ok(elapsed) => last.max(moment_after(first, elapsed)),
        Err(_) => last,
    }
}

/// The moment so long after the first.
fn moment_after(first: u32, elapsed: Duration) -> u64
    ensures { result ≡ min (first + as_nanos elapsed / 1_000_000) (2 ^ 62 - 1) }
{
    let moment = u128::from(first) + elapsed.as_millis();
    moment.min(u128::from(MAX_MOMENT)) as u64
}
