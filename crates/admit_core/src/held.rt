//! The references that a connection holds, one a slot; `Conn` keeps them here.
ghost use Rattle.std.specs.Prelude.{◌≡◌, ◌∷◌, [], Some, None, IsSome, slice_get};
ghost use Rattle.std.specs.Option.{option_map};
ghost use Rattle.rule_model.specs.declared.actions.Slot.TheVariants.{Sc0, Sc1, Sc2};
ghost use Rattle.admit_core.specs.Held.{held_at, held_with, holding, holding_of, nothing_held};

use rule_model::Slot;
use std::mem;

/// Up to three references, each with the number of its table. A reference may be one that can't be dropped.
#[derive(Drop)]
pub(crate) struct Held<R> {
    pub sc0: Option<(u32, R)>,
    pub sc1: Option<(u32, R)>,
    pub sc2: Option<(u32, R)>,
}

fn fill<R>(place: &mut Option<(u32, R)>, table: u32, reference: R)
    requires { place.old ≡ None }
    ensures { place.new ≡ Some (table, reference) }
{
    match mem::replace(place, Some((table, reference))) {
        None => {}
        Some(_held) => unreachable!(),
    }
}

fn empty<R>(place: &mut Option<(u32, R)>) -> (u32, R)
    requires { IsSome place.old }
    ensures value { place.old ≡ Some result }
    ensures left { place.new ≡ None }
{
    place.take().unwrap()
}

impl<R> Held<R> {
    #[inline(always)]
    pub(crate) fn new() -> Self
        ensures { result ≡ nothing_held }
    {
        Held {
            sc0: None,
            sc1: None,
            sc2: None,
        }
    }

    /// The table and the reference of a slot.
    pub(crate) fn get(&self, slot: Slot) -> Option<(u32, &R)>
        ensures { option_map (λ entry. (entry.0, entry.1.now)) result ≡ held_at self.now slot }
    {
        let held = match slot {
            Slot::Sc0 => &self.sc0,
            Slot::Sc1 => &self.sc1,
            Slot::Sc2 => &self.sc2,
        };
        match held {
            None => None,
            Some((table, reference)) => Some((*table, reference)),
        }
    }

    /// Puts a reference into an empty slot.
    pub(crate) fn put(&mut self, slot: Slot, table: u32, reference: R)
        requires { held_at self.old slot ≡ None }
        ensures { self.new ≡ held_with self.old slot (Some (table, reference)) }
    {
        match slot {
            Slot::Sc0 => fill(&mut self.sc0, table, reference),
            Slot::Sc1 => fill(&mut self.sc1, table, reference),
            Slot::Sc2 => fill(&mut self.sc2, table, reference),
        }
    }

    /// Takes the reference out of a slot.
    pub(crate) fn take(&mut self, slot: Slot) -> (u32, R)
        requires { IsSome (held_at self.old slot) }
        ensures value { held_at self.old slot ≡ Some result }
        ensures left { self.new ≡ held_with self.old slot None }
    {
        match slot {
            Slot::Sc0 => empty(&mut self.sc0),
            Slot::Sc1 => empty(&mut self.sc1),
            Slot::Sc2 => empty(&mut self.sc2),
        }
    }

    /// The slot that holds the reference of this number, from 0: sc0 first.
    pub(crate) fn nth(&self, number: u32) -> Option<Slot>
        ensures { result ≡ slice_get (holding self.now) number }
    {
        match (&self.sc0, number.checked_sub(1)) {
            (None, _) => self.nth_from_sc1(number),
            (Some(_), None) => Some(Slot::Sc0),
            (Some(_), Some(before)) => self.nth_from_sc1(before),
        }
    }

    /// The same of sc1 and sc2.
    fn nth_from_sc1(&self, number: u32) -> Option<Slot>
        ensures { result ≡ slice_get (holding_of self.now (Sc1 ∷ Sc2 ∷ [])) number }
    {
        match (&self.sc1, number.checked_sub(1)) {
            (None, _) => self.nth_from_sc2(number),
            (Some(_), None) => Some(Slot::Sc1),
            (Some(_), Some(before)) => self.nth_from_sc2(before),
        }
    }

    /// The same of sc2 alone.
    fn nth_from_sc2(&self, number: u32) -> Option<Slot>
        ensures { result ≡ slice_get (holding_of self.now (Sc2 ∷ [])) number }
    {
        match (&self.sc2, number) {
            (Some(_), 0) => Some(Slot::Sc2),
            _ => None,
        }
    }

    /// What it holds.
    #[inline(always)]
    pub(crate) fn end(self) -> (Option<(u32, R)>, Option<(u32, R)>, Option<(u32, R)>)
        ensures { result ≡ (self.sc0, self.sc1, self.sc2) }
    {
        let Held { sc0, sc1, sc2 } = self;
        (sc0, sc1, sc2)
    }
}
