//! A table that threads share, asked by one seat, as a port.

ghost use Rattle.std.specs.Prelude.{◌≡◌};
ghost use Rattle.shard_locks.specs.Ported.{came};

use crate::{Seated, SharedRef, Tracking};
use shard_port::{Port, row_or_none};
use shard_record::Naming;
use std::sync::Wait;
use stick_key::{StickKey, shard_of};
use stick_table::{Event, Refusal, Row, Table};
use stored_data::Act;

/// The reference that comes with what tracking a key is answered, if one does.
fn reference_in<J: Naming>(tracking: Tracking<SharedRef<J>>) -> Option<SharedRef<J>>
    ensures { result ≡ came tracking }
{
    match tracking {
        Tracking::Tracked(reference, _row) => Some(reference),
        Tracking::Full | Tracking::NoRefs => None,
    }
}

impl<'a, T: Table, J: Naming, R: Wait> Port for Seated<'a, T, J, R> {
    ghost use Rattle.shard_locks.specs.Ported.{seated_meaning};
    ghost use Rattle.shard_locks.specs.ShardsState.{SeatedState};

    type Reference = SharedRef<J>;

    ghost State = { SeatedState };

    ghost state = { λ seated. seated };

    ghost meaning = { seated_meaning };

    #[tactic(auto, using(crate::proofs::ReplyLemmas::told_got, crate::proofs::PortLemmas::refused_key))]
    fn ask(&mut self, key: StickKey, now: u64) -> Result<Option<Row>, Refusal> {
        let place = shard_of(&key, self.shards.shards());
        let event = Event::Get(now, key);
        match self.shards.call(self.rt, &mut self.seat, place, event) {
            Ok(reply) => Ok(row_or_none(reply)),
            Err(refusal) => {
                self.counts.note_refusal(refusal);
                Err(refusal)
            }
        }
    }

    #[tactic(auto, using(crate::proofs::PortLemmas::tracks, crate::proofs::PortLemmas::refused_key))]
    fn track(&mut self, key: StickKey, now: u64) -> Result<Option<SharedRef<J>>, Refusal> {
        match self.shards.track(self.rt, &mut self.seat, now, key) {
            Ok(tracking) => {
                self.counts.note_tracking(&tracking);
                Ok(reference_in(tracking))
            }
            Err(refusal) => {
                self.counts.note_refusal(refusal);
                Err(refusal)
            }
        }
    }

    fn look(&mut self, reference: &SharedRef<J>, now: u64) -> Result<Row, Refusal> {
        match self.shards.look(self.rt, &mut self.seat, reference, now) {
            Ok(row) => Ok(row),
            Err(refusal) => {
                self.counts.note_refusal(refusal);
                Err(refusal)
            }
        }
    }

    fn count(
        &mut self,
        reference: &SharedRef<J>,
        act: Act,
        now: u64,
    ) -> Result<Option<u64>, Refusal> {
        match self
            .shards
            .count(self.rt, &mut self.seat, reference, now, act)
        {
            Ok(value) => Ok(value),
            Err(refusal) => {
                self.counts.note_refusal(refusal);
                Err(refusal)
            }
        }
    }

    fn release(
        &mut self,
        reference: SharedRef<J>,
        now: u64,
    ) -> Result<(), (SharedRef<J>, Refusal)> {
        match self.shards.release(self.rt, &mut self.seat, reference, now) {
            Ok(()) => Ok(()),
            Err((reference, refusal)) => {
                self.counts.note_refusal(refusal);
                Err((reference, refusal))
            }
        }
    }
}
