//! The books of a named table, as a port.

ghost use Rattle.std.specs.Prelude.{◌≡◌, length, IfOk, IfErr, OnErr};
ghost use Rattle.stick_model.specs.Limits.{IsTableEvent};
ghost use Rattle.shard_port.specs.Books.{BooksAnswer, BooksRefuse, IsLegalStep, seen};

use crate::replies::{counted_value, reference_in, row_or_none, shown_row};
use crate::{Port, Reference};
use shard_book::{Books, Keeper, Named};
use stick_key::{StickKey, shard_of};
use stick_table::{Event, Refusal, Reply, Row, Table};
use stored_data::Act;

/// The seat for which connections are recorded. That of commands is 0.
const CONNECTIONS: u32 = 1;

/// Has the book of a shard answer an event. One that isn't there refuses as stale. A refusal changes nothing.
fn ask_shard<T: Table>(
    named: &mut Named<Books<T>>,
    shard: u32,
    event: Event,
) -> Result<Reply, Refusal>
    requires event { IsTableEvent event }
    ensures ok { IfOk result (λ reply. BooksAnswer (seen named.old) shard event reply (seen named.new)) }
    ensures legal { IfOk result (λ reply. IsLegalStep event reply) }
    ensures refused { IfErr result (BooksRefuse (seen named.old) shard event) }
    ensures err { OnErr result (named.new ≡ named.old) }
    ensures parts { length named.new.keeper.books ≡ length named.old.keeper.books }
{
    if shard >= named.keeper.shards() {
        return Err(Refusal::Stale);
    }
    named.keeper.call(shard, CONNECTIONS, event)
}

impl<T: Table> Port for Named<Books<T>> {
    ghost use Rattle.shard_port.specs.Books.{TableState, books_meaning};

    type Reference = Reference;

    ghost State = { TableState };

    ghost state = { seen };

    ghost meaning = { books_meaning };

    #[tactic(auto, using(crate::proofs::ReplyLemmas::got))]
    fn ask(&mut self, key: StickKey, now: u64) -> Result<Option<Row>, Refusal> {
        let shard = shard_of(&key, self.keeper.shards());
        match ask_shard(self, shard, Event::Get(now, key)) {
            Ok(reply) => Ok(row_or_none(reply)),
            Err(refusal) => Err(refusal),
        }
    }

    #[tactic(auto, using(crate::proofs::ReplyLemmas::tracks))]
    fn track(&mut self, key: StickKey, now: u64) -> Result<Option<Reference>, Refusal> {
        let shard = shard_of(&key, self.keeper.shards());
        match ask_shard(self, shard, Event::Track(now, key)) {
            Ok(reply) => Ok(reference_in(&reply, shard)),
            Err(refusal) => Err(refusal),
        }
    }

    #[tactic(auto, using(crate::proofs::ReplyLemmas::looked))]
    fn look(&mut self, reference: &Reference, now: u64) -> Result<Row, Refusal> {
        let event = Event::Look(now, reference.ticket);
        match ask_shard(self, reference.shard, event) {
            Ok(reply) => Ok(shown_row(reply)),
            Err(refusal) => Err(refusal),
        }
    }

    #[tactic(auto, using(crate::proofs::ReplyLemmas::counted))]
    fn count(&mut self, reference: &Reference, act: Act, now: u64) -> Result<Option<u64>, Refusal> {
        let event = Event::Count(now, reference.ticket, act);
        match ask_shard(self, reference.shard, event) {
            Ok(reply) => Ok(counted_value(&reply)),
            Err(refusal) => Err(refusal),
        }
    }

    #[tactic(auto, using(crate::proofs::ReplyLemmas::released))]
    fn release(&mut self, reference: Reference, now: u64) -> Result<(), (Reference, Refusal)> {
        let event = Event::Release(now, reference.ticket);
        match ask_shard(self, reference.shard, event) {
            Ok(_reply) => Ok(()),
            Err(refusal) => Err((reference, refusal)),
        }
    }
}
