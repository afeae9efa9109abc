//! What a plain table shows: of a key, of a ticket, and a listing; `Contents::step` calls it.
ghost use Rattle.std.specs.Prelude.{◌≡◌, ◌<◌, ◌+◌, ◌^◌, IfOk, OnOk, OnErr, length};
ghost use Rattle.stick_model.specs.Step.{begun, get as reply_to_get, look as reply_to_look, list as reply_to_list};
ghost use Rattle.stick_table.specs.Replies.{shown_reply, looked_reply, listed_reply};

use crate::contents::Contents;
use crate::contents::records::{count_live, find_live};
use crate::contents::rows::{list_rows, make_row};
use crate::contents::tickets::{count_refs, find_key};
use base_sequence::NoMemory;
use stick_key::StickKey;
use stick_model::{Filter, Reply, Ticket};

impl Contents {
    /// What a look at a key is answered, once the clock has come to this moment.
    fn row_reply(&self, clock: u64, key: &StickKey) -> Result<Reply, NoMemory>
        requires { clock < 2 ^ 62 }
        ensures { IfOk result (λ reply. reply ≡ shown_reply self.now clock key.now) }
    {
        match find_live(&self.records, &self.tickets, clock, key) {
            Some(found) => {
                let refs = count_refs(&self.tickets, key) as u32;
                let row = make_row(self.alloc, &self.spec.columns, clock, refs, key, found)?;
                Ok(Reply::Row(row))
            }
            None => Ok(Reply::Absent),
        }
    }

    /// What a look at a ticket is answered, once the clock has come to this moment.
    fn look_reply(&self, clock: u64, ticket: Ticket) -> Result<Reply, NoMemory>
        requires { clock < 2 ^ 62 }
        ensures { IfOk result (λ reply. reply ≡ looked_reply self.now clock ticket) }
    {
        match find_key(&self.tickets, ticket) {
            Some(key) => self.row_reply(clock, key),
            None => Ok(Reply::Absent),
        }
    }

    /// What a listing is answered, once the clock has come to this moment.
    fn list_reply(&self, clock: u64, choice: &Filter) -> Result<Reply, NoMemory>
        requires { clock < 2 ^ 62 }
        ensures { IfOk result (λ reply. reply ≡ listed_reply self.now clock choice.now) }
    {
        match choice.not_stored(&self.spec.columns) {
            Some(field) => Ok(Reply::NotStored(field)),
            None => {
                let used = count_live(&self.records, &self.tickets, clock) as u64;
                let rows = list_rows(
                    self.alloc,
                    &self.spec.columns,
                    &self.records,
                    &self.tickets,
                    clock,
                    choice,
                )?;
                Ok(Reply::Rows { used, rows })
            }
        }
    }

    // Each of these gives its reply twice, the second taken before anything changes.

    pub(super) fn get(&mut self, now: u64, key: &StickKey) -> Result<(Reply, Reply), NoMemory>
        requires moment { now < 2 ^ 62 }
        requires life { self.old.events + length self.old.tickets < self.old.spec.life }
        ensures ok { IfOk result (λ replies. reply_to_get (begun self.old now) key.now ≡ (replies.0, self.new)) }
        ensures twice { IfOk result (λ replies. replies.1 ≡ replies.0) }
        ensures err { OnErr result (self.new ≡ self.old) }
    {
        let clock = self.clock.max(now);
        let first = self.row_reply(clock, key)?;
        let second = first.copy(self.alloc)?;
        self.begin(now);
        Ok((first, second))
    }

    pub(super) fn look(&mut self, now: u64, ticket: Ticket) -> Result<(Reply, Reply), NoMemory>
        requires moment { now < 2 ^ 62 }
        requires life { self.old.events + length self.old.tickets < self.old.spec.life }
        ensures ok { IfOk result (λ replies. reply_to_look (begun self.old now) ticket ≡ (replies.0, self.new)) }
        ensures twice { IfOk result (λ replies. replies.1 ≡ replies.0) }
        ensures err { OnErr result (self.new ≡ self.old) }
    {
        let clock = self.clock.max(now);
        let first = self.look_reply(clock, ticket)?;
        let second = first.copy(self.alloc)?;
        self.begin(now);
        Ok((first, second))
    }

    pub(super) fn list(&mut self, now: u64, choice: &Filter) -> Result<(Reply, Reply), NoMemory>
        requires moment { now < 2 ^ 62 }
        requires life { self.old.events + length self.old.tickets < self.old.spec.life }
        ensures ok { IfOk result (λ replies. reply_to_list (begun self.old now) choice.now ≡ (replies.0, self.new)) }
        ensures twice { IfOk result (λ replies. replies.1 ≡ replies.0) }
        ensures err { OnErr result (self.new ≡ self.old) }
    {
        let clock = self.clock.max(now);
        let first = self.list_reply(clock, choice)?;
        let second = first.copy(self.alloc)?;
        self.begin(now);
        Ok((first, second))
    }
}
