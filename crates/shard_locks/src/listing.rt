//! The listing of a table in shards, shard by shard; tests and the stress call it, while the proxy's commands list by `Seated`.

ghost use Rattle.std.specs.Prelude.{◌≡◌, ◌<◌, ◌^◌, IfOk, IfErr, OnErr};
ghost use Rattle.stick_model.specs.declared.events.Event.TheVariants.{List as ListRows};
ghost use Rattle.shard_book.specs.Told.{IsRefusedTo, Told};
ghost use Rattle.shard_locks.specs.Listing.{IsListed, IsListing, IsListingRefused, ToldByFirst, listing_reply};

use crate::{Shards, SharedSeat};
use shard_book::joined;
use shard_record::Naming;
use std::alloc::Global;
use std::sync::Wait;
use stick_table::{Event, Filter, Refusal, Reply, Rows, Table};
use stored_data::Field;

/// What is listed of a table in shards.
#[derive(Drop)]
pub enum Listing {
    /// How many entries all shards have, and what is shown of those that match, in the order of their keys.
    Rows { used: u64, rows: Rows },
    /// The table doesn't store the field.
    NotStored(Field),
}

/// What the replies of all shards come to, as a listing.
fn listing_of(reply: Reply) -> Listing
    requires { IsListing reply }
    ensures { listing_reply result ≡ reply }
{
    match reply {
        Reply::Rows { used, rows } => Listing::Rows { used, rows },
        Reply::NotStored(field) => Listing::NotStored(field),
        _ => unreachable!(),
    }
}

impl<T: Table, J: Naming> Shards<T, J> {
    /// Lists the entries that a filter means: each shard is asked in turn, under its own lock, so that a listing is one
    /// event of each shard and not one moment of the table. A refusal tells its shard; the shards before it have
    /// answered, and their events stand. Where all have answered and there is no memory to join their rows, it tells the
    /// number of shards and `Memory`.
    pub fn list(
        &self,
        rt: &impl Wait,
        alloc: Global,
        seat: &mut SharedSeat<J>,
        now: u64,
        filter: &Filter,
    ) -> Result<Listing, (u32, Refusal)>
        requires moment { now < 2 ^ 62 }
        ensures listed { IfOk result (λ listing. IsListed self.now.shards seat.old.seat (ListRows now filter.now) listing seat.new.seat) }
        ensures refused { IfErr result (λ refused. IsListingRefused self.now.shards seat.old.seat (ListRows now filter.now) refused.0 refused.1 seat.new.seat) }
    {
        let shards = self.shards();
        match self.list_each(rt, alloc, seat, now, filter) {
            Ok(replies) => match joined(replies) {
                Ok(reply) => Ok(listing_of(reply)),
                Err(_) => Err((shards, Refusal::Memory)),
            },
            Err(refused) => Err(refused),
        }
    }

    /// What each shard lists.
    fn list_each(
        &self,
        rt: &impl Wait,
        alloc: Global,
        seat: &mut SharedSeat<J>,
        now: u64,
        filter: &Filter,
    ) -> Result<Vec<Reply>, (u32, Refusal)>
        requires moment { now < 2 ^ 62 }
        ensures told { IfOk result (λ replies. ToldByFirst self.now.shards seat.old.seat (ListRows now filter.now) replies.items seat.new.seat) }
        ensures refused { IfErr result (λ refused. IsListingRefused self.now.shards seat.old.seat (ListRows now filter.now) refused.0 refused.1 seat.new.seat) }
        ensures before { IfErr result (λ refused. refused.0 < self.now.shards) }
    {
        let shards = self.shards();
        let mut replies = Vec::new(alloc);
        if replies.reserve(shards as usize).is_err() {
            return Err((0, Refusal::Memory));
        }
        for shard in 0..shards {
            match self.list_shard(rt, seat, shard, now, filter) {
                Ok(reply) => replies.push_reserved(reply),
                Err(refusal) => return Err((shard, refusal)),
            }
        }
        Ok(replies)
    }

    /// What a shard lists.
    fn list_shard(
        &self,
        rt: &impl Wait,
        seat: &mut SharedSeat<J>,
        shard: u32,
        now: u64,
        filter: &Filter,
    ) -> Result<Reply, Refusal>
        requires shard { shard < self.now.shards }
        requires moment { now < 2 ^ 62 }
        ensures told { IfOk result (λ reply. Told seat.old.seat shard (ListRows now filter.now) reply seat.new.seat) }
        ensures refused { IfErr result (IsRefusedTo seat.old.seat shard (ListRows now filter.now)) }
        ensures err { OnErr result (seat.new ≡ seat.old) }
    {
        if let Filter::Everything = filter {
            self.give_room(rt, shard);
        }
        match filter.copy() {
            Ok(asked) => self.call(rt, seat, shard, Event::List(now, asked)),
            Err(_) => Err(Refusal::Memory),
        }
    }
}
