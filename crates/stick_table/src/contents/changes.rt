//! What changes a plain table: time, data set or counted, references given back, entries removed; `Contents::step` calls it.
ghost use Rattle.std.specs.Prelude.{◌≡◌, ◌≢◌, ◌+◌, ◌<◌, ◌^◌, IfOk, IsOk, OnErr, None, true, false, length};
ghost use Rattle.stick_model.specs.State.{key_of};
ghost use Rattle.stick_model.specs.Limits.{IsTableEvent};
ghost use Rattle.stick_model.specs.Refusals.{has_life, takes_memory};
ghost use Rattle.stick_model.specs.Step.{asks_rows, is_out, after, begun, clear as reply_to_clear, clear_where as reply_to_clear_where, put as reply_to_put, put_allowed as reply_to_put_allowed, expire as reply_to_expire, count as reply_to_count, release as reply_to_release};

use crate::contents::filters::clear_matching;
use crate::contents::pairs::{put_fault, put_pairs};
use crate::contents::records::{act_at, drop_dead, find, live_values, remove_record, touch};
use crate::contents::room::store;
use crate::contents::tickets::{find_key, is_tracked, remove_ticket};
use crate::contents::{Contents, date_after};
use base_sequence::NoMemory;
use stick_key::StickKey;
use stick_model::{Cell, Event, Filter, Record, Reply, Ticket};
use stored_data::Act;

impl Contents {
    /// The moment of an event has come.
    pub(super) fn begin(&mut self, now: u64)
        requires moment { now < 2 ^ 62 }
        requires life { self.old.events + length self.old.tickets < self.old.spec.life }
        ensures { self.new ≡ begun self.old now }
    {
        let clock = self.clock.max(now);
        self.clock = clock;
        self.events += 1;
        drop_dead(&mut self.records, &self.tickets, clock);
    }

    pub(super) fn clear(&mut self, now: u64, key: &StickKey) -> Reply
        requires moment { now < 2 ^ 62 }
        requires life { self.old.events + length self.old.tickets < self.old.spec.life }
        ensures { reply_to_clear (begun self.old now) key.now ≡ (result, self.new) }
    {
        self.begin(now);
        if find(&self.records, key).is_none() {
            return Reply::Absent;
        }
        if is_tracked(&self.tickets, key) {
            return Reply::InUse;
        }
        remove_record(&mut self.records, key);
        Reply::Removed
    }

    pub(super) fn put(
        &mut self,
        now: u64,
        key: &StickKey,
        pairs: &[Cell],
    ) -> Result<Reply, NoMemory>
        requires moment { now < 2 ^ 62 }
        requires life { self.old.events + length self.old.tickets < self.old.spec.life }
        ensures ok { IfOk result (λ reply. reply_to_put (begun self.old now) key.now pairs.now ≡ (reply, self.new)) }
        ensures err { OnErr result (self.new ≡ self.old) }
    {
        match put_fault(&self.spec.columns, pairs) {
            Some(fault) => {
                self.begin(now);
                Ok(fault)
            }
            None => self.put_allowed(now, key, pairs),
        }
    }

    fn put_allowed(&mut self, now: u64, key: &StickKey, pairs: &[Cell]) -> Result<Reply, NoMemory>
        requires moment { now < 2 ^ 62 }
        requires life { self.old.events + length self.old.tickets < self.old.spec.life }
        ensures ok { IfOk result (λ reply. reply_to_put_allowed (begun self.old now) key.now pairs.now ≡ (reply, self.new)) }
        ensures err { OnErr result (self.new ≡ self.old) }
    {
        let clock = self.clock.max(now);
        let mut values = live_values(
            self.alloc,
            &self.spec.columns,
            &self.records,
            &self.tickets,
            clock,
            key,
        )?;
        put_pairs(&mut values, pairs);
        let entry_key = key.copy()?;
        self.records.reserve(1)?;
        let stamp = self.events + 1;
        self.clock = clock;
        self.events = stamp;
        drop_dead(&mut self.records, &self.tickets, clock);
        let created = find(&self.records, key).is_none();
        let date = date_after(self.spec.expire, clock);
        let found = Record {
            stamp,
            date,
            values,
        };
        if !store(
            &mut self.records,
            &mut self.purged,
            &self.tickets,
            &self.spec,
            entry_key,
            found,
        ) {
            return Ok(Reply::Full);
        }
        Ok(Reply::Written { created })
    }

    pub(super) fn expire(&mut self, now: u64) -> Reply
        requires moment { now < 2 ^ 62 }
        requires life { self.old.events + length self.old.tickets < self.old.spec.life }
        ensures { reply_to_expire self.old (begun self.old now) ≡ (result, self.new) }
    {
        let before = self.records.len();
        self.begin(now);
        Reply::Expired(before.saturating_sub(self.records.len()) as u64)
    }

    pub(super) fn clear_where(&mut self, now: u64, choice: &Filter) -> Reply
        requires moment { now < 2 ^ 62 }
        requires life { self.old.events + length self.old.tickets < self.old.spec.life }
        ensures { reply_to_clear_where (begun self.old now) choice.now ≡ (result, self.new) }
    {
        self.begin(now);
        match choice.not_stored(&self.spec.columns) {
            Some(field) => Reply::NotStored(field),
            None => clear_matching(&mut self.records, &self.tickets, self.clock, choice),
        }
    }

    pub(super) fn count(&mut self, now: u64, ticket: Ticket, act: Act) -> Reply
        requires moment { now < 2 ^ 62 }
        requires life { self.old.events + length self.old.tickets < self.old.spec.life }
        ensures { reply_to_count (begun self.old now) ticket act ≡ (result, self.new) }
    {
        let clock = self.clock.max(now);
        self.clock = clock;
        self.events += 1;
        drop_dead(&mut self.records, &self.tickets, clock);
        match find_key(&self.tickets, ticket) {
            Some(key) => Reply::Value(act_at(self.records.as_mut_slice(), key, clock, act)),
            None => Reply::Absent,
        }
    }

    pub(super) fn release(&mut self, now: u64, ticket: Ticket) -> Reply
        requires moment { now < 2 ^ 62 }
        requires out { key_of ticket self.old.tickets ≢ None }
        ensures { reply_to_release (begun self.old now) ticket ≡ (result, self.new) }
    {
        let clock = self.clock.max(now);
        let date = date_after(self.spec.expire, clock);
        drop_dead(&mut self.records, &self.tickets, clock);
        if let Some(key) = find_key(&self.tickets, ticket) {
            touch(self.records.as_mut_slice(), key, self.events + 1, date);
        }
        remove_ticket(&mut self.tickets, ticket);
        self.clock = clock;
        self.events += 1;
        Reply::Released
    }

    /// The reply to an event that asks for no rows.
    fn change(&mut self, event: &Event, slot: u32) -> Result<Reply, NoMemory>
        requires event { IsTableEvent event.now }
        requires out { is_out self.old event.now ≡ true }
        requires life { has_life self.old event.now ≡ true }
        requires rows { asks_rows event.now ≡ false }
        ensures ok { IfOk result (λ reply. after self.old event.now slot ≡ (reply, self.new)) }
        ensures err { OnErr result (self.new ≡ self.old) }
        ensures memory { takes_memory event.now ≡ false → IsOk result }
    {
        match event {
            Event::Put(now, key, pairs) => self.put(*now, key, pairs.as_slice()),
            Event::Count(now, ticket, act) => Ok(self.count(*now, *ticket, *act)),
            Event::Release(now, ticket) => Ok(self.release(*now, *ticket)),
            Event::Clear(now, key) => Ok(self.clear(*now, key)),
            Event::ClearWhere(now, choice) => Ok(self.clear_where(*now, choice)),
            Event::Expire(now) => Ok(self.expire(*now)),
            _ => unreachable!(),
        }
    }

    /// The same, the reply given twice.
    pub(super) fn change_twice(
        &mut self,
        event: &Event,
        slot: u32,
    ) -> Result<(Reply, Reply), NoMemory>
        requires event { IsTableEvent event.now }
        requires out { is_out self.old event.now ≡ true }
        requires life { has_life self.old event.now ≡ true }
        requires rows { asks_rows event.now ≡ false }
        ensures ok { IfOk result (λ replies. after self.old event.now slot ≡ (replies.0, self.new)) }
        ensures twice { IfOk result (λ replies. replies.1 ≡ replies.0) }
        ensures err { OnErr result (self.new ≡ self.old) }
        ensures memory { takes_memory event.now ≡ false → IsOk result }
    {
        let reply = self.change(event, slot)?;
        match reply.copy(self.alloc) {
            Ok(again) => Ok((reply, again)),
            Err(_) => unreachable!(),
        }
    }
}
