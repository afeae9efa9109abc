//! Events: whether they are refused, and what they are answered; `StickTable::step` and `step_twice` call it.
ghost use Rattle.std.specs.Prelude.{◌≡◌, IfOk, IsOk, OnErr, MatchOption, is_some, true, false, unwrap_or};
ghost use Rattle.std.specs.Option.{option_map_or};
ghost use Rattle.stick_model.specs.Limits.{IsTableEvent};
ghost use Rattle.stick_model.specs.Refusals.{IsRefused, has_life as has_life_for, takes_memory};
ghost use Rattle.stick_model.specs.State.{key_of};
ghost use Rattle.stick_model.specs.Step.{MayTrack, after, asks_rows, is_free_slot, is_out as is_event_out, slot_of};

use crate::StickTable;
use base_sequence::NoMemory;
use stick_model::{Event, Refusal, Reply, Ticket};

impl StickTable {
    fn is_ticket_out(&self, ticket: Ticket) -> bool
        ensures { result ≡ is_some (key_of ticket self.now.now.tickets) }
    {
        self.book.find(ticket).is_some()
    }

    /// Whether the ticket that an event names is out.
    fn is_out(&self, event: &Event) -> bool
        ensures { result ≡ is_event_out self.now.now event.now }
    {
        match event {
            Event::Look(_, ticket) | Event::Count(_, ticket, _) | Event::Release(_, ticket) =>
                self.is_ticket_out(*ticket),
            _ => true,
        }
    }

    fn has_life(&self, event: &Event) -> bool
        ensures { result ≡ has_life_for self.now.now event.now }
    {
        let taken = event.life_taken();
        let used = self.events + u64::from(self.book.len());
        used + taken <= self.spec.life
    }

    /// Why an event is refused whatever memory there is.
    pub(crate) fn refusal(&self, event: &Event) -> Option<Refusal>
        ensures { MatchOption result ((is_event_out self.now.now event.now ≡ true) × (has_life_for self.now.now event.now ≡ true)) (IsRefused self.now.now event.now) }
    {
        if !self.is_out(event) {
            return Some(Refusal::Stale);
        }
        if !self.has_life(event) {
            return Some(Refusal::Exhausted);
        }
        None
    }

    /// The reply to an event whose ticket is out, and for which there is life.
    pub(crate) fn answer(&mut self, event: &Event) -> Result<Reply, NoMemory>
        requires event { IsTableEvent event.now }
        requires out { is_event_out self.old.now event.now ≡ true }
        requires life { has_life_for self.old.now event.now ≡ true }
        ensures ok { IfOk result (λ reply. after self.old.now event.now (unwrap_or (slot_of reply) 0) ≡ (reply, self.new.now)) }
        ensures free { IfOk result (λ reply. MayTrack self.old.now event.now → option_map_or (is_free_slot self.old.now) (slot_of reply) true ≡ true) }
        ensures err { OnErr result (self.new ≡ self.old) }
        ensures memory { takes_memory event.now ≡ false → IsOk result }
        ensures base { self.new.base ≡ self.old.base }
    {
        match event {
            Event::Get(now, key) => self.get(*now, key),
            Event::Track(now, key) => self.track(*now, key),
            Event::Look(now, ticket) => self.look(*now, *ticket),
            Event::Count(now, ticket, act) => Ok(self.count(*now, *ticket, *act)),
            Event::Release(now, ticket) => Ok(self.release(*now, *ticket)),
            Event::Put(now, key, pairs) => self.put(*now, key, pairs.as_slice()),
            Event::Clear(now, key) => Ok(self.clear(*now, key)),
            Event::ClearWhere(now, choice) => Ok(self.clear_where(*now, choice)),
            Event::List(now, choice) => self.list(*now, choice),
            Event::Expire(now) => Ok(self.expire(*now)),
        }
    }

    /// The same, the reply given twice. Memory for both is taken before anything changes.
    pub(crate) fn answer_twice(&mut self, event: &Event) -> Result<(Reply, Reply), NoMemory>
        requires event { IsTableEvent event.now }
        requires out { is_event_out self.old.now event.now ≡ true }
        requires life { has_life_for self.old.now event.now ≡ true }
        ensures ok { IfOk result (λ replies. after self.old.now event.now (unwrap_or (slot_of replies.0) 0) ≡ (replies.0, self.new.now)) }
        ensures free { IfOk result (λ replies. MayTrack self.old.now event.now → option_map_or (is_free_slot self.old.now) (slot_of replies.0) true ≡ true) }
        ensures twice { IfOk result (λ replies. replies.1 ≡ replies.0) }
        ensures err { OnErr result (self.new ≡ self.old) }
        ensures memory { takes_memory event.now ≡ false → IsOk result }
        ensures base { self.new.base ≡ self.old.base }
    {
        match event {
            Event::Get(now, key) => self.get_twice(*now, key),
            Event::Track(now, key) => self.track_twice(*now, key),
            Event::Look(now, ticket) => self.look_twice(*now, *ticket),
            Event::List(now, choice) => self.list_twice(*now, choice),
            _ => self.change_twice(event),
        }
    }

    /// The reply to an event that asks for no rows, twice.
    fn change_twice(&mut self, event: &Event) -> Result<(Reply, Reply), NoMemory>
        requires event { IsTableEvent event.now }
        requires out { is_event_out self.old.now event.now ≡ true }
        requires life { has_life_for self.old.now event.now ≡ true }
        requires rows { asks_rows event.now ≡ false }
        ensures ok { IfOk result (λ replies. after self.old.now event.now (unwrap_or (slot_of replies.0) 0) ≡ (replies.0, self.new.now)) }
        ensures free { IfOk result (λ replies. MayTrack self.old.now event.now → option_map_or (is_free_slot self.old.now) (slot_of replies.0) true ≡ true) }
        ensures twice { IfOk result (λ replies. replies.1 ≡ replies.0) }
        ensures err { OnErr result (self.new ≡ self.old) }
        ensures memory { takes_memory event.now ≡ false → IsOk result }
        ensures base { self.new.base ≡ self.old.base }
    {
        let reply = self.answer(event)?;
        match reply.copy(self.alloc) {
            Ok(again) => Ok((reply, again)),
            Err(_) => unreachable!(),
        }
    }
}
