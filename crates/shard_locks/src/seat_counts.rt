//! What a seat has met at a table; `Seated` counts it where connections ask, and the relay's workers publish it.

ghost use Rattle.std.specs.Prelude.{◌≡◌};
ghost use Rattle.shard_locks.specs.SeatCounting.{none_met, with_refusal, with_tracking};

use crate::{SharedRef, Tracking};
use shard_record::Naming;
use stick_table::Refusal;

/// How often a seat was left without a reference, and how many of its events were refused. Each count ends at 2^64 - 1.
#[derive(Clone, Copy)]
pub struct SeatCounts {
    /// Keys that weren't tracked, as there was no room for a new entry.
    pub full: u64,
    /// Keys that weren't tracked, as all references were out.
    pub no_references: u64,
    /// Events refused, as their reference isn't out.
    pub stale: u64,
    /// Events refused, as the table is at the end of its life.
    pub exhausted: u64,
    /// Events refused, as there was no memory.
    pub no_memory: u64,
}

impl SeatCounts {
    /// Nothing was met.
    pub fn new() -> SeatCounts
        ensures { result ≡ none_met }
    {
        SeatCounts {
            full: 0,
            no_references: 0,
            stale: 0,
            exhausted: 0,
            no_memory: 0,
        }
    }

    /// An event was refused. That the table has counted fewer events than the seat has seen is no count's.
    pub fn note_refusal(&mut self, refusal: Refusal)
        ensures { self.new ≡ with_refusal self.old refusal }
    {
        match refusal {
            Refusal::Stale => self.stale = self.stale.saturating_add(1),
            Refusal::Exhausted => self.exhausted = self.exhausted.saturating_add(1),
            Refusal::Memory => self.no_memory = self.no_memory.saturating_add(1),
            Refusal::Behind { .. } => {}
        }
    }

    /// A track was answered. It is counted where no reference came.
    pub fn note_tracking<J: Naming>(&mut self, tracking: &Tracking<SharedRef<J>>)
        ensures { self.new ≡ with_tracking self.old tracking.now }
    {
        match tracking {
            Tracking::Tracked(_, _) => {}
            Tracking::Full => self.full = self.full.saturating_add(1),
            Tracking::NoRefs => self.no_references = self.no_references.saturating_add(1),
        }
    }
}
