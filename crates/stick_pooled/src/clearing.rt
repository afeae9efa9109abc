//! The removal of the entries that a filter means and no reference holds; `events` calls it for `ClearWhere`.
ghost use Rattle.std.specs.Prelude.{◌≡◌, ℕ, ◌+◌, ◌<◌, ◌^◌, false, true, not, List, Option, filter, count_by, length};
ghost use Rattle.std.specs.Option.{option_map_or};
ghost use Rattle.stick_pooled.specs.Stock.{Held, IsStock};
ghost use Rattle.stick_model.specs.Filters.{is_matched};
ghost use Rattle.stick_model.specs.Key.{Key};
ghost use Rattle.stick_model.specs.declared.rows.Ticket.{Ticket};
ghost use Rattle.stick_model.specs.Step.{begun, cleared, clear_where as reply_to_clear_where};
ghost use Rattle.stick_pooled.specs.Shown.{records_of, AreCounted, IsRising, IsLeft};
ghost use Rattle.stick_pooled.specs.Seen.{is_meant_as};

use crate::StickTable;
use crate::entry_store::Store;
use crate::filters::matches;
use stick_model::{Filter, Reply};

/// How many entries a filter means of those that references hold.
fn count_tracked(store: &Store, size: u32, clock: u64, choice: &Filter) -> u32
    requires { size ≡ length store.now.slots }
    ensures { result ≡ count_by (λ (slot : Option Held). option_map_or (is_meant_as clock choice.now true) slot false) store.now.slots }
{
    let mut count = 0;
    for slot in 0..size {
        if matches(store, clock, choice, true, slot) {
            count += 1;
        }
    }
    count
}

/// Removes the entries that a filter means, but for those that references hold.
fn remove_matching(store: &mut Store, size: u32, clock: u64, choice: &Filter)
    requires size { size ≡ length store.old.slots }
    requires stock { IsStock store.old }
    requires rising { IsRising store.old store.old.queue }
    ensures records { (tickets : List (Ticket × Key)) (expire : Option ℕ) → AreCounted store.old tickets
        → records_of expire store.new ≡ filter (λ entry. not (is_matched clock tickets choice.now false entry)) (records_of expire store.old) }
    ensures stock { IsStock store.new }
    ensures rising { IsRising store.new store.new.queue }
    ensures left { IsLeft store.old store.new }
    ensures columns { store.new.columns ≡ store.old.columns }
    ensures newest { store.new.newest ≡ store.old.newest }
    ensures slots { length store.new.slots ≡ length store.old.slots }
{
    for slot in 0..size {
        if !matches(store, clock, choice, false, slot) {
            continue;
        }
        store.remove(slot);
    }
}

impl StickTable {
    /// Removes the entries that a filter means, but for those that references hold, and tells how many went and how
    /// many stayed.
    fn clear_matching(&mut self, choice: &Filter) -> Reply
        ensures now { cleared self.old.now choice.now ≡ (result, self.new.now) }
        ensures base { self.new.base ≡ self.old.base }
    {
        let kept = count_tracked(&self.store, self.spec.size, self.clock, choice);
        let before = self.store.len();
        remove_matching(&mut self.store, self.spec.size, self.clock, choice);
        let removed = before.saturating_sub(self.store.len());
        Reply::Cleared {
            removed: u64::from(removed),
            kept: u64::from(kept),
        }
    }

    pub(crate) fn clear_where(&mut self, now: u64, choice: &Filter) -> Reply
        requires moment { now < 2 ^ 62 }
        requires life { self.old.now.events + length self.old.now.tickets < self.old.now.spec.life }
        ensures now { reply_to_clear_where (begun self.old.now now) choice.now ≡ (result, self.new.now) }
        ensures base { self.new.base ≡ self.old.base }
    {
        self.begin(now);
        match choice.not_stored(&self.spec.columns) {
            Some(field) => Reply::NotStored(field),
            None => self.clear_matching(choice),
        }
    }
}
