//! References that are made; `Contents::step` calls it for `Track`.
ghost use Rattle.std.specs.Prelude.{◌≡◌, ◌+◌, ◌≤◌, ◌<◌, ◌^◌, IfOk, OnErr, max, length};
ghost use Rattle.stick_model.specs.State.{refs, row_of};
ghost use Rattle.stick_model.specs.Step.{begun, connected as connected_record, track as reply_to_track};
ghost use Rattle.stick_table.specs.References.{entered};

use crate::contents::records::{drop_dead, live_values};
use crate::contents::room::store;
use crate::contents::rows::make_row;
use crate::contents::tickets::{count_refs, push_ticket};
use crate::contents::{Contents, date_after};
use base_sequence::NoMemory;
use stick_key::StickKey;
use stick_model::{Record, Reply, Row, Ticket};
use stored_data::Act;

impl Contents {
    /// Tracks a key: where references are left and there is room, one is made, with this slot. The reply is given twice.
    pub(super) fn track(
        &mut self,
        now: u64,
        key: &StickKey,
        slot: u32,
    ) -> Result<(Reply, Reply), NoMemory>
        requires moment { now < 2 ^ 62 }
        requires life { self.old.events + length self.old.tickets + 2 ≤ self.old.spec.life }
        ensures ok { IfOk result (λ replies. reply_to_track (begun self.old now) key.now slot ≡ (replies.0, self.new)) }
        ensures twice { IfOk result (λ replies. replies.1 ≡ replies.0) }
        ensures err { OnErr result (self.new ≡ self.old) }
    {
        if self.tickets.len() >= self.spec.max_refs as usize {
            self.begin(now);
            return Ok((Reply::NoRefs, Reply::NoRefs));
        }
        let found = self.connected(now, key)?;
        let row = self.tracked_row(now, key, &found)?;
        let again = row.copy()?;
        match self.enter(now, key, slot, found)? {
            Some(ticket) => Ok((
                Reply::Tracked { ticket, row },
                Reply::Tracked { ticket, row: again },
            )),
            None => Ok((Reply::Full, Reply::Full)),
        }
    }

    /// Stores a record and makes a reference to it, if there is room.
    fn enter(
        &mut self,
        now: u64,
        key: &StickKey,
        slot: u32,
        found: Record,
    ) -> Result<Option<Ticket>, NoMemory>
        requires moment { now < 2 ^ 62 }
        requires life { self.old.events + length self.old.tickets + 2 ≤ self.old.spec.life }
        requires left { length self.old.tickets < self.old.spec.max_refs }
        ensures ok { IfOk result (λ ticket. entered (begun self.old now) key.now slot found ≡ (ticket, self.new)) }
        ensures err { OnErr result (self.new ≡ self.old) }
    {
        let entry_key = key.copy()?;
        let ticket_key = key.copy()?;
        self.records.reserve(1)?;
        self.tickets.reserve(1)?;
        let clock = self.clock.max(now);
        let number = self.events + 1;
        self.clock = clock;
        self.events = number;
        drop_dead(&mut self.records, &self.tickets, clock);
        if !store(
            &mut self.records,
            &mut self.purged,
            &self.tickets,
            &self.spec,
            entry_key,
            found,
        ) {
            return Ok(None);
        }
        let ticket = Ticket { number, slot };
        push_ticket(&mut self.tickets, ticket, ticket_key);
        Ok(Some(ticket))
    }

    /// The record of a key that is tracked once more.
    fn connected(&self, now: u64, key: &StickKey) -> Result<Record, NoMemory>
        requires moment { now < 2 ^ 62 }
        requires life { self.now.events < 2 ^ 62 }
        ensures { IfOk result (λ found. found ≡ connected_record (begun self.now now) key.now) }
    {
        let clock = self.clock.max(now);
        let mut values = live_values(
            self.alloc,
            &self.spec.columns,
            &self.records,
            &self.tickets,
            clock,
            key,
        )?;
        let _ = values.act(clock, Act::Connection);
        let stamp = self.events + 1;
        let date = date_after(self.spec.expire, clock);
        Ok(Record {
            stamp,
            date,
            values,
        })
    }

    /// The row of a key that has one more reference.
    fn tracked_row(&self, now: u64, key: &StickKey, found: &Record) -> Result<Row, NoMemory>
        requires moment { now < 2 ^ 62 }
        requires left { length self.now.tickets < self.now.spec.max_refs }
        ensures { IfOk result (λ row. row ≡ row_of self.now.spec.columns (max self.now.clock now) (refs key.now self.now.tickets + 1) key.now found.now) }
    {
        let refs = count_refs(&self.tickets, key) as u32 + 1;
        make_row(
            self.alloc,
            &self.spec.columns,
            self.clock.max(now),
            refs,
            key,
            found,
        )
    }
}
