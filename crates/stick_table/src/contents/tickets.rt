//! References: tickets with their keys, the oldest first; all parts of the plain table find and change them by it.
ghost use Rattle.std.specs.Prelude.{◌≡◌, ◌≢◌, ◌+◌, ◌≤◌, ◌<◌, ◌++◌, ◌∷◌, [], length, filter, not, MatchOption, IfOk, vec_len, vec_capacity, None, true};
ghost use Rattle.std.specs.Option.{option_copied};
ghost use Rattle.stick_model.specs.State.{same_ticket, key_of, refs as refs_of, is_tracked as is_key_tracked, is_free as is_slot_free};

use crate::contents::records::is_same;
use base_sequence::NoMemory;
use std::alloc::Global;
use stick_key::StickKey;
use stick_model::Ticket;

/// How many tickets of the key are out.
pub(crate) fn count_refs(tickets: &[(Ticket, StickKey)], key: &StickKey) -> usize
    ensures count { result ≡ refs_of key.now tickets.now }
    ensures within { result ≤ length tickets.now }
{
    let mut count = 0;
    for held in tickets {
        if is_same(key, &held.1) {
            count += 1;
        }
    }
    count
}

/// Whether a ticket of the key is out.
pub(crate) fn is_tracked(tickets: &[(Ticket, StickKey)], key: &StickKey) -> bool
    ensures { result ≡ is_key_tracked key.now tickets.now }
{
    count_refs(tickets, key) > 0
}

/// The key of a ticket that is out.
pub(crate) fn find_key<'a>(
    tickets: &'a [(Ticket, StickKey)],
    ticket: Ticket,
) -> Option<&'a StickKey>
    ensures { option_copied result ≡ key_of ticket tickets.now }
{
    for held in tickets {
        if ticket.number == held.0.number && ticket.slot == held.0.slot {
            return Some(&held.1);
        }
    }
    None
}

fn is_same_ticket(a: Ticket, b: Ticket) -> bool
    ensures { result ≡ same_ticket a b }
{
    a.number == b.number && a.slot == b.slot
}

/// Gives a ticket back.
pub(crate) fn remove_ticket(tickets: &mut Vec<(Ticket, StickKey)>, ticket: Ticket)
    ensures items { tickets.new.items ≡ filter (λ held. not (same_ticket ticket held.0)) tickets.old.items }
    ensures fewer { key_of ticket tickets.old.items ≢ None → vec_len tickets.new + 1 ≤ vec_len tickets.old }
{
    tickets.retain(|held| !is_same_ticket(ticket, held.0));
}

fn is_free(tickets: &[(Ticket, StickKey)], slot: u32) -> bool
    ensures { result ≡ is_slot_free slot tickets.now }
{
    for held in tickets {
        if held.0.slot == slot {
            return false;
        }
    }
    true
}

/// A slot that no ticket has.
pub(crate) fn free_slot(tickets: &[(Ticket, StickKey)], max_refs: u32) -> Option<u32>
    ensures { MatchOption result (max_refs ≤ length tickets.now)
        (λ slot. (length tickets.now < max_refs) × (slot < max_refs) × (is_slot_free slot tickets.now ≡ true)) }
{
    if tickets.len() >= max_refs as usize {
        return None;
    }
    // Mostly the slot after the newest's is free, and then it is found in one pass.
    let next = match tickets.last() {
        Some(newest) => newest.0.slot.wrapping_add(1),
        None => 0,
    };
    if next < max_refs && is_free(tickets, next) {
        return Some(next);
    }
    for slot in 0..max_refs {
        if is_free(tickets, slot) {
            return Some(slot);
        }
    }
    None
}

/// Adds a ticket, for which there is room.
pub(crate) fn push_ticket(tickets: &mut Vec<(Ticket, StickKey)>, ticket: Ticket, key: StickKey)
    requires { vec_len tickets.old < vec_capacity tickets.old }
    ensures items { tickets.new.items ≡ tickets.old.items ++ (ticket, key) ∷ [] }
    ensures len { vec_len tickets.new ≡ vec_len tickets.old + 1 }
{
    let _ = tickets.push((ticket, key));
}

/// Equal tickets with equal keys.
pub(crate) fn copy_tickets(
    alloc: Global,
    tickets: &[(Ticket, StickKey)],
) -> Result<Vec<(Ticket, StickKey)>, NoMemory>
    ensures { IfOk result (λ copy. copy.items ≡ tickets.now) }
{
    let mut copy = Vec::new(alloc);
    for held in tickets {
        copy.push((held.0, held.1.copy()?))?;
    }
    Ok(copy)
}
