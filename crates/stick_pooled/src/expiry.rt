//! The clock goes on, and entries that no reference holds go at their date; every event begins by it.
ghost use Rattle.std.specs.Prelude.{◌≡◌, ◌+◌, ◌<◌, ◌^◌, nat_lt, IfSome, IfNone, List, true, filter, length};
ghost use Rattle.std.specs.Option.{option_map_or};
ghost use Rattle.stick_pooled.specs.Stock.{IsStock};
ghost use Rattle.stick_model.specs.Key.{Key};
ghost use Rattle.stick_model.specs.State.{advance as advanced, stays};
ghost use Rattle.stick_model.specs.Step.{begun, expire as reply_to_expire};
ghost use Rattle.stick_model.specs.declared.rows.Ticket.{Ticket};
ghost use Rattle.stick_pooled.specs.Shown.{records_of, AreCounted, IsRising, IsDead, AreAlive, IsLeft};

use crate::StickTable;
use crate::entry_store::Store;
use stick_model::Reply;

/// Whether what was refreshed at a moment outlives the clock.
pub(crate) fn is_alive(expire: Option<u32>, moment: u64, clock: u64) -> bool
    requires { clock < 2 ^ 62 }
    ensures { result ≡ option_map_or (λ life. nat_lt clock (moment + life)) expire true }
{
    match expire {
        Some(life) => clock < moment.saturating_add(u64::from(life)),
        None => true,
    }
}

/// The front of the queue, where its date is reached; else none in the queue has reached its own.
fn dead_front(store: &Store, expire: Option<u32>, clock: u64) -> Option<u32>
    requires clock { clock < 2 ^ 62 }
    requires rising { IsRising store.now store.now.queue }
    ensures dead { IfSome result (λ slot. IsDead store.now expire clock slot) }
    ensures alive { IfNone result (AreAlive store.now expire clock) }
    ensures stock { IsStock store.now }
{
    let slot = store.front()?;
    if is_alive(expire, store.entry(slot).moment, clock) {
        return None;
    }
    Some(slot)
}

/// Removes what the clock has reached the date of.
fn drop_dead(store: &mut Store, expire: Option<u32>, clock: u64)
    requires clock { clock < 2 ^ 62 }
    requires rising { IsRising store.old store.old.queue }
    ensures records { (tickets : List (Ticket × Key)) → AreCounted store.old tickets → records_of expire store.new ≡ filter (stays clock tickets) (records_of expire store.old) }
    ensures rising { IsRising store.new store.new.queue }
    ensures left { IsLeft store.old store.new }
    ensures stock { IsStock store.new }
    ensures columns { store.new.columns ≡ store.old.columns }
    ensures newest { store.new.newest ≡ store.old.newest }
    ensures size { length store.new.slots ≡ length store.old.slots }
{
    while let Some(slot) = dead_front(store, expire, clock) {
        store.remove(slot);
    }
}

impl StickTable {
    /// The moment of an event has come.
    pub(crate) fn advance(&mut self, now: u64)
        requires { now < 2 ^ 62 }
        ensures now { self.new.now ≡ advanced self.old.now now }
        ensures base { self.new.base ≡ self.old.base }
    {
        let clock = self.clock.max(now);
        drop_dead(&mut self.store, self.spec.expire, clock);
        self.clock = clock;
    }

    /// The moment of an event has come, and it is counted.
    pub(crate) fn begin(&mut self, now: u64)
        requires moment { now < 2 ^ 62 }
        requires life { self.old.now.events + length self.old.now.tickets < self.old.now.spec.life }
        ensures now { self.new.now ≡ begun self.old.now now }
        ensures base { self.new.base ≡ self.old.base }
    {
        self.advance(now);
        self.events += 1;
    }

    pub(crate) fn expire(&mut self, now: u64) -> Reply
        requires moment { now < 2 ^ 62 }
        requires life { self.old.now.events + length self.old.now.tickets < self.old.now.spec.life }
        ensures now { reply_to_expire self.old.now (begun self.old.now now) ≡ (result, self.new.now) }
        ensures base { self.new.base ≡ self.old.base }
    {
        let before = self.store.len();
        self.begin(now);
        Reply::Expired(u64::from(before.saturating_sub(self.store.len())))
    }
}
