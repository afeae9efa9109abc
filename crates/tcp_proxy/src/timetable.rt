//! When what the proxy does by time is due; `reporting` goes by it.

ghost use Rattle.std.specs.Prelude.{◌≡◌, ◌<◌, ◌≤◌, ◌^◌, IfNone, false};

use tcp_watch::Rhythm;

/// How many ms lie between two looks at what goes wrong, and at rates.
const SECOND: u64 = 1_000;

/// When reports are due, messages that the program is alive, and what comes each second.
#[derive(Clone, Copy)]
pub(crate) struct Timetable {
    second: Rhythm,
    report: Option<Rhythm>,
    alive: Option<Rhythm>,
}

/// What is due.
#[derive(Clone, Copy, Debug, PartialEq, Eq)]
pub(crate) struct Due {
    /// Rates, and what went wrong.
    pub second: bool,
    pub report: bool,
    /// The message that the program is alive.
    pub alive: bool,
}

/// What comes each so many ms from a moment on, where it does, at least one apart.
fn rhythm_of(every: Option<u64>, start: u64) -> Option<Rhythm> {
    match every {
        Some(every) => Some(Rhythm::new(every.max(1), start)),
        None => None,
    }
}

/// Whether it is due.
fn is_due(rhythm: &mut Option<Rhythm>, now: u64) -> bool
    requires moment { now < 2 ^ 62 }
    ensures none { IfNone rhythm.old (result ≡ false) }
{
    match rhythm {
        Some(rhythm) => rhythm.is_due(now),
        None => false,
    }
}

impl Timetable {
    /// From a moment on, with so many ms between two reports, and between two messages that the program is alive.
    pub fn new(start: u64, report: Option<u64>, alive: Option<u64>) -> Timetable {
        Timetable {
            second: Rhythm::new(SECOND, start),
            report: rhythm_of(report, start),
            alive: rhythm_of(alive, start),
        }
    }

    /// What is due at a moment, which is then seen to.
    pub fn due(&mut self, now: u64) -> Due
        requires moment { now < 2 ^ 62 }
        ensures no_reports { IfNone self.old.report (result.report ≡ false) }
        ensures no_watchdog { IfNone self.old.alive (result.alive ≡ false) }
    {
        Due {
            second: self.second.is_due(now),
            report: is_due(&mut self.report, now),
            alive: is_due(&mut self.alive, now),
        }
    }
}
