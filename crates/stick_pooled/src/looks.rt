//! What is shown of a key, and of the key of a reference; `events` calls it for `Get` and `Look`.
ghost use Rattle.std.specs.Prelude.{◌≡◌, ◌≢◌, ◌≤◌, ◌<◌, ◌+◌, ◌^◌, None, IfOk, OnErr, length};
ghost use Rattle.stick_model.specs.State.{key_of};
ghost use Rattle.stick_model.specs.Step.{begun, get as reply_to_get, look as reply_to_look};
ghost use Rattle.stick_table.specs.Replies.{shown_reply, looked_reply};

use crate::StickTable;
use crate::filters::live_slot;
use crate::rows::show_row;
use base_sequence::NoMemory;
use stick_key::StickKey;
use stick_model::{Reply, Ticket};

impl StickTable {
    /// What a look at a key is answered, once the clock has come to this moment.
    #[inline(always)]
    fn row_reply(&self, clock: u64, key: &StickKey) -> Result<Reply, NoMemory>
        requires past { self.now.now.clock ≤ clock }
        requires limit { clock < 2 ^ 62 }
        ensures { IfOk result (λ reply. reply ≡ shown_reply self.now.now clock key.now) }
    {
        let Some(at) = live_slot(&self.store, self.spec.expire, clock, key) else {
            return Ok(Reply::Absent);
        };
        let row = show_row(self.alloc, &self.spec, &self.store, clock, at)?;
        Ok(Reply::Row(row))
    }

    /// What a look at a ticket is answered, once the clock has come to this moment.
    #[inline(always)]
    fn look_reply(&self, clock: u64, ticket: Ticket) -> Result<Reply, NoMemory>
        requires past { self.now.now.clock ≤ clock }
        requires out { key_of ticket self.now.now.tickets ≢ None }
        ensures { IfOk result (λ reply. reply ≡ looked_reply self.now.now clock ticket) }
    {
        let slot = self.book.entry(ticket);
        let row = show_row(self.alloc, &self.spec, &self.store, clock, slot)?;
        Ok(Reply::Row(row))
    }

    pub(crate) fn get(&mut self, now: u64, key: &StickKey) -> Result<Reply, NoMemory>
        requires moment { now < 2 ^ 62 }
        requires life { self.old.now.events + length self.old.now.tickets < self.old.now.spec.life }
        ensures ok { IfOk result (λ reply. reply_to_get (begun self.old.now now) key.now ≡ (reply, self.new.now)) }
        ensures err { OnErr result (self.new ≡ self.old) }
        ensures base { self.new.base ≡ self.old.base }
    {
        let clock = self.clock.max(now);
        let reply = self.row_reply(clock, key)?;
        self.begin(now);
        Ok(reply)
    }

    pub(crate) fn look(&mut self, now: u64, ticket: Ticket) -> Result<Reply, NoMemory>
        requires moment { now < 2 ^ 62 }
        requires out { key_of ticket self.old.now.tickets ≢ None }
        requires life { self.old.now.events + length self.old.now.tickets < self.old.now.spec.life }
        ensures ok { IfOk result (λ reply. reply_to_look (begun self.old.now now) ticket ≡ (reply, self.new.now)) }
        ensures err { OnErr result (self.new ≡ self.old) }
        ensures base { self.new.base ≡ self.old.base }
    {
        let clock = self.clock.max(now);
        let reply = self.look_reply(clock, ticket)?;
        self.begin(now);
        Ok(reply)
    }

    pub(crate) fn get_twice(&mut self, now: u64, key: &StickKey) -> Result<(Reply, Reply), NoMemory>
        requires moment { now < 2 ^ 62 }
        requires life { self.old.now.events + length self.old.now.tickets < self.old.now.spec.life }
        ensures ok { IfOk result (λ replies. reply_to_get (begun self.old.now now) key.now ≡ (replies.0, self.new.now)) }
        ensures twice { IfOk result (λ replies. replies.1 ≡ replies.0) }
        ensures err { OnErr result (self.new ≡ self.old) }
        ensures base { self.new.base ≡ self.old.base }
    {
        let clock = self.clock.max(now);
        let first = self.row_reply(clock, key)?;
        let second = first.copy(self.alloc)?;
        self.begin(now);
        Ok((first, second))
    }

    pub(crate) fn look_twice(
        &mut self,
        now: u64,
        ticket: Ticket,
    ) -> Result<(Reply, Reply), NoMemory>
        requires moment { now < 2 ^ 62 }
        requires out { key_of ticket self.old.now.tickets ≢ None }
        requires life { self.old.now.events + length self.old.now.tickets < self.old.now.spec.life }
        ensures ok { IfOk result (λ replies. reply_to_look (begun self.old.now now) ticket ≡ (replies.0, self.new.now)) }
        ensures twice { IfOk result (λ replies. replies.1 ≡ replies.0) }
        ensures err { OnErr result (self.new ≡ self.old) }
        ensures base { self.new.base ≡ self.old.base }
    {
        let clock = self.clock.max(now);
        let first = self.look_reply(clock, ticket)?;
        let second = first.copy(self.alloc)?;
        self.begin(now);
        Ok((first, second))
    }
}
