//! References that are made, to an entry that is there or a new one; `tracked` calls it.
ghost use Rattle.std.specs.Prelude.{◌≡◌, ◌+◌, ◌≤◌, ◌<◌, ◌^◌, IfSome, IfNone, IsSome, Some, None, true, length};
ghost use Rattle.stick_pooled.specs.Stock.{Held, held_at, with_entry};
ghost use Rattle.stick_table.specs.References.{entered};
ghost use Rattle.stick_model.specs.State.{record_at};
ghost use Rattle.stick_model.specs.Step.{begun, connected, is_free_slot};
ghost use Rattle.stick_pooled.specs.Steps.{IsSpare, slot_made, with_event};

use crate::StickTable;
use crate::entry::Entry;
use crate::entry_store::Store;
use crate::room::make_room;
use crate::spare_keys::own_copy;
use stick_key::StickKey;
use stick_model::Ticket;
use stored_data::Act;

/// One reference more holds a slot's entry, which an event refreshes at a moment.
fn hold(store: &mut Store, slot: u32, event: u64, moment: u64)
    requires there { IsSome (held_at store.old slot) }
    requires few { (held : Held) → held_at store.old slot ≡ Some held → held.entry.refs ≤ 2 ^ 20 }
    ensures { (held : Held) → held_at store.old slot ≡ Some held →
        store.new ≡ with_entry store.old slot (record { stamp = event; moment = moment; refs = held.entry.refs + 1 }) }
{
    let refs = store.entry(slot).refs + 1;
    let entry = Entry {
        stamp: event,
        moment,
        refs,
    };
    store.refresh(slot, entry);
}

impl StickTable {
    /// Makes a reference to a key, which counts a connection, where there is room.
    #[inline(always)]
    pub(crate) fn enter(
        &mut self,
        now: u64,
        key: &StickKey,
        spare: Option<StickKey>,
    ) -> Option<Ticket>
        requires moment { now < 2 ^ 62 }
        requires life { self.old.now.events + length self.old.now.tickets + 2 ≤ self.old.now.spec.life }
        requires left { length self.old.now.tickets < self.old.now.spec.max_refs }
        requires spare { IsSpare key.now spare }
        ensures entered { entered (begun self.old.now now) key.now (slot_made result) (connected (begun self.old.now now) key.now) ≡ (result, self.new.now) }
        ensures free { IfSome result (λ ticket. is_free_slot self.old.now ticket.slot ≡ true) }
        ensures base { self.new.base ≡ self.old.base }
    {
        self.advance(now);
        if let Some(ticket) = self.enter_there(key) {
            return Some(ticket);
        }
        self.enter_new(own_copy(key, spare))
    }

    /// Makes a reference to the entry of a key, where it has one.
    #[inline(always)]
    fn enter_there(&mut self, key: &StickKey) -> Option<Ticket>
        requires life { self.old.now.events + length self.old.now.tickets + 2 ≤ self.old.now.spec.life }
        requires left { length self.old.now.tickets < self.old.now.spec.max_refs }
        ensures entered { IfSome result (λ ticket. entered (with_event self.old.now) key.now ticket.slot (connected (with_event self.old.now) key.now) ≡ (Some ticket, self.new.now)) }
        ensures free { IfSome result (λ ticket. is_free_slot self.old.now ticket.slot ≡ true) }
        ensures absent { IfNone result (record_at key.now self.old.now.records ≡ None) }
        ensures kept { IfNone result (self.new ≡ self.old) }
        ensures base { self.new.base ≡ self.old.base }
    {
        let Some(handle) = self.store.find(key) else {
            return None;
        };
        self.events += 1;
        let _ = self.store.act(handle.slot, self.clock, Act::Connection);
        hold(&mut self.store, handle.slot, self.events, self.clock);
        Some(self.book.insert(self.events, handle.slot))
    }

    /// Makes a reference to a new entry of a key that has none, where there is room. It stands apart, so that it takes no
    /// registers from the few steps of an entry that is there.
    #[inline(never)]
    fn enter_new(&mut self, key: StickKey) -> Option<Ticket>
        requires life { self.old.now.events + length self.old.now.tickets + 2 ≤ self.old.now.spec.life }
        requires left { length self.old.now.tickets < self.old.now.spec.max_refs }
        requires absent { record_at key self.old.now.records ≡ None }
        ensures entered { entered (with_event self.old.now) key (slot_made result) (connected (with_event self.old.now) key) ≡ (result, self.new.now) }
        ensures free { IfSome result (λ ticket. is_free_slot self.old.now ticket.slot ≡ true) }
        ensures base { self.new.base ≡ self.old.base }
    {
        self.events += 1;
        if !make_room(&mut self.store, &self.spec) {
            return None;
        }
        let entry = Entry {
            stamp: self.events,
            moment: self.clock,
            refs: 1,
        };
        let handle = self.store.insert(key, entry, self.events);
        let _ = self.store.act(handle.slot, self.clock, Act::Connection);
        Some(self.book.insert(self.events, handle.slot))
    }
}
