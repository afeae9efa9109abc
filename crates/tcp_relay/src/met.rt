//! What a worker's seats have met at their tables; `turning` counts it before it publishes.

ghost use Rattle.std.specs.Prelude.{◌≡◌, true};
ghost use Rattle.tcp_relay.specs.Meeting.{both_met, with_met};

use crate::counted::Counted;
use shard_locks::{SeatCounts, Seated};
use shard_record::Naming;
use stick_table::Table;
use tcp_stats::Count;

/// What two seats have met together.
fn both(one: SeatCounts, other: SeatCounts) -> SeatCounts
    ensures { result ≡ both_met one other }
{
    SeatCounts {
        full: one.full.saturating_add(other.full),
        no_references: one.no_references.saturating_add(other.no_references),
        stale: one.stale.saturating_add(other.stale),
        exhausted: one.exhausted.saturating_add(other.exhausted),
        no_memory: one.no_memory.saturating_add(other.no_memory),
    }
}

/// What all seats of a worker have met.
pub(crate) fn met_by<T: Table, J: Naming, R>(seats: &[Seated<'_, T, J, R>]) -> SeatCounts {
    let mut met = SeatCounts::new();
    for seated in seats {
        met = both(met, seated.counts());
    }
    met
}

/// Counts what seats have met up to now, where that is more than was counted before.
pub(crate) fn count_met(counted: &mut Counted, met: SeatCounts)
    ensures counts { counted.new.counts ≡ with_met met counted.old.counts }
    ensures kept { counted.old.is_news ≡ true → counted.new.is_news ≡ true }
{
    counted.raise(Count::UntrackedFull, met.full);
    counted.raise(Count::UntrackedNoReferences, met.no_references);
    counted.raise(Count::EventsNoMemory, met.no_memory);
    counted.raise(Count::EventsStale, met.stale);
    counted.raise(Count::EventsExhausted, met.exhausted);
}
