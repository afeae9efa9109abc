//! Entries that commands change: data put, and an entry cleared; `events` calls it.
ghost use Rattle.std.specs.Prelude.{◌≡◌, ◌+◌, ◌<◌, ◌^◌, IfOk, OnErr, IsSome, Some, None, true, false, length};
ghost use Rattle.std.specs.Bool.{OnTrue, OnFalse};
ghost use Rattle.stick_pooled.specs.Stock.{Held, held_at, with_entry};
ghost use Rattle.stick_model.specs.State.{record_at};
ghost use Rattle.stick_model.specs.Step.{begun, clear as reply_to_clear, put as reply_to_put, put_allowed as reply_to_put_allowed};
ghost use Rattle.stick_model.specs.declared.replies.Reply.TheVariants.{Written};
ghost use Rattle.stick_pooled.specs.Steps.{IsSpare, with_event};

use crate::StickTable;
use crate::entry::Entry;
use crate::entry_store::Store;
use crate::pairs::{put_fault, put_pairs};
use crate::room::make_room;
use crate::spare_keys::{own_copy, spare_copy};
use base_sequence::NoMemory;
use stick_key::StickKey;
use stick_model::{Cell, Reply};

/// A slot's entry is refreshed by an event at a moment.
fn touch(store: &mut Store, slot: u32, event: u64, moment: u64)
    requires { IsSome (held_at store.old slot) }
    ensures { (held : Held) → held_at store.old slot ≡ Some held →
        store.new ≡ with_entry store.old slot (record { stamp = event; moment = moment; refs = held.entry.refs }) }
{
    let refs = store.entry(slot).refs;
    let entry = Entry {
        stamp: event,
        moment,
        refs,
    };
    store.refresh(slot, entry);
}

impl StickTable {
    pub(crate) fn clear(&mut self, now: u64, key: &StickKey) -> Reply
        requires moment { now < 2 ^ 62 }
        requires life { self.old.now.events + length self.old.now.tickets < self.old.now.spec.life }
        ensures now { reply_to_clear (begun self.old.now now) key.now ≡ (result, self.new.now) }
        ensures base { self.new.base ≡ self.old.base }
    {
        self.begin(now);
        let Some(handle) = self.store.find(key) else {
            return Reply::Absent;
        };
        if self.store.entry(handle.slot).refs > 0 {
            return Reply::InUse;
        }
        self.store.remove(handle.slot);
        Reply::Removed
    }

    pub(crate) fn put(
        &mut self,
        now: u64,
        key: &StickKey,
        pairs: &[Cell],
    ) -> Result<Reply, NoMemory>
        requires moment { now < 2 ^ 62 }
        requires life { self.old.now.events + length self.old.now.tickets < self.old.now.spec.life }
        ensures ok { IfOk result (λ reply. reply_to_put (begun self.old.now now) key.now pairs.now ≡ (reply, self.new.now)) }
        ensures err { OnErr result (self.new ≡ self.old) }
        ensures base { self.new.base ≡ self.old.base }
    {
        match put_fault(&self.spec.columns, pairs) {
            Some(fault) => {
                self.begin(now);
                Ok(fault)
            }
            None => {
                let spare = spare_copy(key)?;
                Ok(self.put_allowed(now, key, spare, pairs))
            }
        }
    }

    fn put_allowed(
        &mut self,
        now: u64,
        key: &StickKey,
        spare: Option<StickKey>,
        pairs: &[Cell],
    ) -> Reply
        requires moment { now < 2 ^ 62 }
        requires life { self.old.now.events + length self.old.now.tickets < self.old.now.spec.life }
        requires spare { IsSpare key.now spare }
        ensures now { reply_to_put_allowed (begun self.old.now now) key.now pairs.now ≡ (result, self.new.now) }
        ensures base { self.new.base ≡ self.old.base }
    {
        self.advance(now);
        if self.put_there(key, pairs) {
            return Reply::Written { created: false };
        }
        self.put_new(own_copy(key, spare), pairs)
    }

    /// Puts data into the entry of a key, where it has one.
    fn put_there(&mut self, key: &StickKey, pairs: &[Cell]) -> bool
        requires life { self.old.now.events + length self.old.now.tickets < self.old.now.spec.life }
        ensures there { OnTrue result (reply_to_put_allowed (with_event self.old.now) key.now pairs.now ≡ (Written false, self.new.now)) }
        ensures absent { OnFalse result (record_at key.now self.old.now.records ≡ None) }
        ensures kept { OnFalse result (self.new ≡ self.old) }
        ensures base { self.new.base ≡ self.old.base }
    {
        let Some(handle) = self.store.find(key) else {
            return false;
        };
        put_pairs(&mut self.store, handle.slot, pairs);
        self.events += 1;
        touch(&mut self.store, handle.slot, self.events, self.clock);
        true
    }

    /// Puts data into a new entry of a key that has none, where there is room.
    fn put_new(&mut self, key: StickKey, pairs: &[Cell]) -> Reply
        requires life { self.old.now.events + length self.old.now.tickets < self.old.now.spec.life }
        requires absent { record_at key self.old.now.records ≡ None }
        ensures now { reply_to_put_allowed (with_event self.old.now) key pairs.now ≡ (result, self.new.now) }
        ensures base { self.new.base ≡ self.old.base }
    {
        self.events += 1;
        if !make_room(&mut self.store, &self.spec) {
            return Reply::Full;
        }
        let entry = Entry {
            stamp: self.events,
            moment: self.clock,
            refs: 0,
        };
        let handle = self.store.insert(key, entry, self.events);
        put_pairs(&mut self.store, handle.slot, pairs);
        Reply::Written { created: true }
    }
}
