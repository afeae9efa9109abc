//! A table in shards, asked by one seat; `tcp_proxy` makes it for the command socket, and `table_cli` asks it as a `Keeper`.

ghost use Rattle.std.specs.Prelude.{◌≡◌};

use crate::{SeatCounts, Shards, SharedSeat};
use base_sequence::NoMemory;
use shard_book::{Keeper, Occupancy};
use shard_record::Naming;
use std::marker::Model;
use std::sync::Wait;
use stick_table::{Event, Filter, PlainTable, Refusal, Reply, Spec, Table};

/// A table in shards that threads share, asked by one seat: what commands ask, as those of a socket. It counts what connections
/// meet, which its view doesn't show.
#[derive(Drop)]
pub struct Seated<'a, T: Table, J: Naming, R> {
    pub(crate) shards: &'a Shards<T, J>,
    pub(crate) rt: &'a R,
    pub(crate) seat: SharedSeat<J>,
    pub(crate) counts: SeatCounts,
}

impl<'a, T: Table, J: Naming, R> Model for Seated<'a, T, J, R> {
    ghost use Rattle.shard_locks.specs.ShardsState.{SeatedState};

    ghost Value = { SeatedState };

    ghost view = { λ seated. record { table = seated.shards.now; seat = seated.seat.seat; known = seated.seat.known } };
}

impl<'a, T: Table, J: Naming, R> Seated<'a, T, J, R> {
    /// The table, asked by this seat.
    pub fn new(shards: &'a Shards<T, J>, rt: &'a R, seat: SharedSeat<J>) -> Seated<'a, T, J, R>
        ensures { result ≡ record { table = shards.now; seat = seat.seat; known = seat.known } }
    {
        Seated {
            shards,
            rt,
            seat,
            counts: SeatCounts::new(),
        }
    }

    /// The seat, with its calls.
    pub fn into_seat(self) -> SharedSeat<J>
        ensures { result ≡ record { seat = self.entry.seat; known = self.entry.known } }
    {
        let Seated {
            shards: _,
            rt: _,
            seat,
            counts: _,
        } = self;
        seat
    }

    /// What connections have met here since it was made.
    pub fn counts(&self) -> SeatCounts {
        self.counts
    }
}

impl<'a, T: Table, J: Naming, R: Wait> Keeper for Seated<'a, T, J, R> {
    ghost use Rattle.stick_model.specs.Legal.{IsLegal};
    ghost use Rattle.shard_book.specs.SeatState.{SeatState};
    ghost use Rattle.shard_book.specs.Told.{Told, IsRefusedTo};

    ghost table = { λ seated. seated.table.spec };

    ghost parts = { λ seated. seated.table.shards };

    ghost State = { SeatState };

    ghost state = { λ seated. seated.seat };

    ghost answers = { Told };

    ghost refuses = { IsRefusedTo };

    // Some legal table: what the seat was told says no more of what a shard is by now.
    ghost holds = { λ old i live. IsLegal live };

    fn size(&self) -> u32 {
        self.shards.whole().size
    }

    fn shards(&self) -> u32 {
        self.shards.shards()
    }

    fn spec(&self) -> &Spec {
        self.shards.whole()
    }

    fn occupancy(&self, shard: u32) -> Occupancy {
        self.shards.occupancy(self.rt, shard)
    }

    fn copied(&self, shard: u32) -> Result<PlainTable, NoMemory> {
        self.shards.copied(self.rt, shard)
    }

    #[tactic(auto, using(crate::proofs::ReplyLemmas::told_answers))]
    fn ask(&mut self, shard: u32, event: Event) -> Result<Reply, Refusal> {
        if let Event::List(_, Filter::Everything) = &event {
            self.shards.give_room(self.rt, shard);
        }
        self.shards.call(self.rt, &mut self.seat, shard, event)
    }
}
