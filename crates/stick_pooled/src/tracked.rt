//! A key that is tracked once more, and the row that its reply shows; `events` calls it for `Track`.
ghost use Rattle.std.specs.Prelude.{◌≡◌, ◌+◌, ◌≤◌, ◌<◌, ◌^◌, [], IfOk, OnErr, Some, true, unwrap_or, length, vec_capacity};
ghost use Rattle.std.specs.Option.{option_map_or};
ghost use Rattle.stored_data.specs.Fields.{fields_of};
ghost use Rattle.stick_model.specs.State.{key_of, record_at, row};
ghost use Rattle.stick_model.specs.Step.{begun, is_free_slot, slot_of, track as reply_to_track};
ghost use Rattle.stick_model.specs.declared.rows.Record.{Record};

use crate::StickTable;
use crate::rows::{fill_row, room_for_cells};
use crate::spare_keys::spare_copy;
use base_sequence::NoMemory;
use stick_key::StickKey;
use stick_model::{Cell, Reply, Row, Ticket};

impl StickTable {
    /// The row of a reference that is out, to this key, in memory that was taken before.
    #[inline(always)]
    fn tracked_row(&self, ticket: Ticket, key: StickKey, cells: Vec<Cell>) -> Row
        requires out { key_of ticket self.now.now.tickets ≡ Some key }
        requires empty { cells.items ≡ [] }
        requires room { length (fields_of self.now.now.spec.columns) ≤ vec_capacity cells }
        ensures { (found : Record) → record_at key self.now.now.records ≡ Some found → result ≡ row self.now.now key found }
    {
        let slot = self.book.entry(ticket);
        fill_row(&self.spec, &self.store, self.clock, slot, key, cells)
    }

    /// The memory comes first: from there on nothing can be refused, so that the row is that of the entry as it is then.
    pub(crate) fn track(&mut self, now: u64, key: &StickKey) -> Result<Reply, NoMemory>
        requires moment { now < 2 ^ 62 }
        requires life { self.old.now.events + length self.old.now.tickets + 2 ≤ self.old.now.spec.life }
        ensures ok { IfOk result (λ reply. reply_to_track (begun self.old.now now) key.now (unwrap_or (slot_of reply) 0) ≡ (reply, self.new.now)) }
        ensures free { IfOk result (λ reply. option_map_or (is_free_slot self.old.now) (slot_of reply) true ≡ true) }
        ensures err { OnErr result (self.new ≡ self.old) }
        ensures base { self.new.base ≡ self.old.base }
    {
        if self.book.len() >= self.spec.max_refs {
            self.begin(now);
            return Ok(Reply::NoRefs);
        }
        let spare = spare_copy(key)?;
        let shown_key = key.copy()?;
        let cells = room_for_cells(self.alloc, &self.spec.columns)?;
        match self.enter(now, key, spare) {
            Some(ticket) => {
                let row = self.tracked_row(ticket, shown_key, cells);
                Ok(Reply::Tracked { ticket, row })
            }
            None => Ok(Reply::Full),
        }
    }

    /// The same, the reply given twice.
    pub(crate) fn track_twice(
        &mut self,
        now: u64,
        key: &StickKey,
    ) -> Result<(Reply, Reply), NoMemory>
        requires moment { now < 2 ^ 62 }
        requires life { self.old.now.events + length self.old.now.tickets + 2 ≤ self.old.now.spec.life }
        ensures ok { IfOk result (λ replies. reply_to_track (begun self.old.now now) key.now (unwrap_or (slot_of replies.0) 0) ≡ (replies.0, self.new.now)) }
        ensures free { IfOk result (λ replies. option_map_or (is_free_slot self.old.now) (slot_of replies.0) true ≡ true) }
        ensures twice { IfOk result (λ replies. replies.1 ≡ replies.0) }
        ensures err { OnErr result (self.new ≡ self.old) }
        ensures base { self.new.base ≡ self.old.base }
    {
        if self.book.len() >= self.spec.max_refs {
            self.begin(now);
            return Ok((Reply::NoRefs, Reply::NoRefs));
        }
        let spare = spare_copy(key)?;
        let shown_key = key.copy()?;
        let other_key = key.copy()?;
        let cells = room_for_cells(self.alloc, &self.spec.columns)?;
        let other_cells = room_for_cells(self.alloc, &self.spec.columns)?;
        match self.enter(now, key, spare) {
            Some(ticket) => {
                let row = self.tracked_row(ticket, shown_key, cells);
                let again = self.tracked_row(ticket, other_key, other_cells);
                Ok((
                    Reply::Tracked { ticket, row },
                    Reply::Tracked { ticket, row: again },
                ))
            }
            None => Ok((Reply::Full, Reply::Full)),
        }
    }
}
