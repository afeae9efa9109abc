//! The tables of a run, saved while it goes on: each time that is due, and as it begins to drain, since what ends it may not wait for
//! its end; `service_threads` has one thread do it.

ghost use Rattle.std.specs.Prelude.{◌≡◌, ◌<◌, ◌^◌, ◌&&◌, ◌||◌, not, true, false, IfNone};

use crate::keeping::save_tables;
use crate::service_threads::SeatedTable;
use crate::shared::{ProxyRuntime, Shared};
use base_clock::{Clock, RunningClock};
use log::{Log, warn};
use shard_record::Naming;
use stick_table::Table;
use tcp_watch::Rhythm;

/// How many ms lie between two looks.
const LOOK: u64 = 200;

/// When tables are saved while the proxy runs: in a rhythm, if there is one, and once as it drains.
#[derive(Clone, Copy)]
struct Saves {
    every: Option<Rhythm>,
    has_drained: bool,
}

/// Whether it is time in a rhythm.
fn is_time(every: &mut Option<Rhythm>, now: u64) -> bool
    requires moment { now < 2 ^ 62 }
    ensures none { IfNone every.old (result ≡ false) }
{
    match every {
        Some(rhythm) => rhythm.is_due(now),
        None => false,
    }
}

impl Saves {
    /// From a moment on, with so many ms between two, if they come in a rhythm.
    fn new(start: u64, every: Option<u64>) -> Saves {
        let every = match every {
            Some(every) => Some(Rhythm::new(every.max(1), start)),
            None => None,
        };
        Saves {
            every,
            has_drained: false,
        }
    }

    /// Whether tables are to be saved at a moment, which is then seen to.
    fn is_due(&mut self, now: u64, is_draining: bool) -> bool
        requires moment { now < 2 ^ 62 }
        ensures drain { is_draining ≡ true → self.old.has_drained ≡ false → result ≡ true }
        ensures once { self.new.has_drained ≡ (self.old.has_drained || is_draining) }
        ensures alone { IfNone self.old.every (result ≡ (is_draining && not self.old.has_drained)) }
    {
        let begins = is_draining && !self.has_drained;
        let is_time = is_time(&mut self.every, now);
        self.has_drained = self.has_drained || is_draining;
        begins || is_time
    }
}

/// Saves the tables to the file of this path as that is due, until the proxy stops.
pub(crate) fn save_on<T: Table, J: Naming, R: ProxyRuntime>(
    shared: &Shared<'_, T, J, R>,
    tables: &[SeatedTable<'_, T, J, R>],
    path: &str,
) {
    let mut clock = RunningClock::new(shared.rt, shared.start);
    let running = shared.running;
    let drain = running.control.drain;
    let mut saves = Saves::new(clock.now(), running.reports.keep.save_every);
    for _look in shared.rt.forever() {
        if shared.stop.is_set() {
            break;
        }
        shared.stop.wait(shared.rt, Some(LOOK));
        let moment = clock.now();
        if !saves.is_due(moment, drain.has_begun()) {
            continue;
        }
        if let Err(fault) = save_tables(shared.alloc, tables, moment, path) {
            warn!(shared.rt; "{path} can't be written: {fault}");
        }
    }
}
