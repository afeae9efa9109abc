//! Acts on a reference's entry, and its release; `events` calls it for `Count` and `Release`.
ghost use Rattle.std.specs.Prelude.{◌≡◌, ◌≢◌, ◌+◌, ◌-◌, ◌<◌, ◌^◌, Some, None, IsSome, length};
ghost use Rattle.stick_model.specs.State.{key_of};
ghost use Rattle.stick_model.specs.Step.{begun, count as reply_to_count, release as reply_to_release};
ghost use Rattle.stick_pooled.specs.Stock.{Held, held_at, with_entry};

use crate::StickTable;
use crate::entry::Entry;
use crate::entry_store::Store;
use stick_model::{Reply, Ticket};
use stored_data::Act;

/// One reference less holds a slot's entry, which an event refreshes at a moment.
fn let_go(store: &mut Store, slot: u32, event: u64, moment: u64)
    requires there { IsSome (held_at store.old slot) }
    requires held { (held : Held) → held_at store.old slot ≡ Some held → 0 < held.entry.refs }
    ensures { (held : Held) → held_at store.old slot ≡ Some held →
        store.new ≡ with_entry store.old slot (record { stamp = event; moment = moment; refs = held.entry.refs - 1 }) }
{
    let refs = store.entry(slot).refs - 1;
    let entry = Entry {
        stamp: event,
        moment,
        refs,
    };
    store.refresh(slot, entry);
}

impl StickTable {
    pub(crate) fn count(&mut self, now: u64, ticket: Ticket, act: Act) -> Reply
        requires moment { now < 2 ^ 62 }
        requires life { self.old.now.events + length self.old.now.tickets < self.old.now.spec.life }
        ensures now { reply_to_count (begun self.old.now now) ticket act ≡ (result, self.new.now) }
        ensures base { self.new.base ≡ self.old.base }
    {
        self.begin(now);
        let Some(slot) = self.book.find(ticket) else {
            return Reply::Absent;
        };
        Reply::Value(self.store.act(slot, self.clock, act))
    }

    pub(crate) fn release(&mut self, now: u64, ticket: Ticket) -> Reply
        requires moment { now < 2 ^ 62 }
        requires out { key_of ticket self.old.now.tickets ≢ None }
        ensures now { reply_to_release (begun self.old.now now) ticket ≡ (result, self.new.now) }
        ensures base { self.new.base ≡ self.old.base }
    {
        self.advance(now);
        let Some(slot) = self.book.remove(ticket) else {
            unreachable!();
        };
        self.events += 1;
        let_go(&mut self.store, slot, self.events, self.clock);
        Reply::Released
    }
}
