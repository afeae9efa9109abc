//! Room for one more record, by a purge of the oldest; `changes` and `references` store records by it.
ghost use Rattle.std.specs.Prelude.{◌≡◌, ◌≤◌, ◌<◌, MatchBool, vec_len, vec_capacity, Some, None, max, unwrap_or, if◌then◌else◌};
ghost use Rattle.std.specs.Bool.{OnFalse};
ghost use Rattle.stick_model.specs.Room.{count_older as count_older_of, is_purged as is_purged_entry, purged, all_tracked as are_all_tracked, room_in, stored_in};
ghost use Rattle.stick_table.specs.Purging.{purge_limit as purge_limit_of};

use crate::contents::records::{find, put_record};
use crate::contents::tickets::is_tracked;
use stick_key::StickKey;
use stick_model::{Record, Spec, Ticket};

/// How many untracked records have a smaller stamp.
fn count_older(records: &[(StickKey, Record)], tickets: &[(Ticket, StickKey)], stamp: u64) -> usize
    ensures { result ≡ count_older_of tickets.now records.now stamp }
{
    let mut count = 0;
    for entry in records {
        if !is_tracked(tickets, &entry.0) && entry.1.stamp < stamp {
            count += 1;
        }
    }
    count
}

fn all_tracked(records: &[(StickKey, Record)], tickets: &[(Ticket, StickKey)]) -> bool
    ensures { result ≡ are_all_tracked tickets.now records.now }
{
    for entry in records {
        if !is_tracked(tickets, &entry.0) {
            return false;
        }
    }
    true
}

fn is_purged(
    records: &[(StickKey, Record)],
    tickets: &[(Ticket, StickKey)],
    purge: u32,
    entry: &(StickKey, Record),
) -> bool
    ensures { result ≡ is_purged_entry purge tickets.now records.now entry.now }
{
    !is_tracked(tickets, &entry.0) && count_older(records, tickets, entry.1.stamp) < purge as usize
}

/// The limit, raised to a stamp that counts.
fn raised(limit: Option<u64>, counts: bool, stamp: u64) -> Option<u64>
    ensures { result ≡ (if counts then Some (max (unwrap_or limit 0) stamp) else limit) }
{
    if counts {
        Some(limit.unwrap_or(0).max(stamp))
    } else {
        limit
    }
}

/// The greatest stamp among the records that are purged.
fn purge_limit(
    records: &[(StickKey, Record)],
    tickets: &[(Ticket, StickKey)],
    purge: u32,
) -> Option<u64>
    ensures { result ≡ purge_limit_of purge tickets.now records.now }
{
    let mut limit = None;
    for entry in records {
        limit = raised(
            limit,
            is_purged(records, tickets, purge, entry),
            entry.1.stamp,
        );
    }
    limit
}

/// Purges the oldest untracked records, and counts them.
fn drop_oldest(
    records: &mut Vec<(StickKey, Record)>,
    gone: &mut u64,
    tickets: &[(Ticket, StickKey)],
    purge: u32,
)
    ensures items { records.new.items ≡ purged purge tickets.now records.old.items }
    ensures capacity { vec_capacity records.new ≡ vec_capacity records.old }
    ensures shorter { vec_len records.new ≤ vec_len records.old }
{
    if let Some(limit) = purge_limit(records, tickets, purge) {
        let before = records.len();
        records.retain(|entry| is_tracked(tickets, &entry.0) || limit < entry.1.stamp);
        let fewer = before.saturating_sub(records.len());
        *gone = gone.wrapping_add(fewer as u64);
    }
}

/// Makes room for one more record, if that can be, and counts those that went for it.
fn make_room(
    records: &mut Vec<(StickKey, Record)>,
    gone: &mut u64,
    tickets: &[(Ticket, StickKey)],
    spec: &Spec,
) -> bool
    requires { 1 ≤ spec.now.purge }
    ensures room { MatchBool result
        (room_in spec.now tickets.now records.old.items ≡ Some records.new.items)
        (room_in spec.now tickets.now records.old.items ≡ None) }
    ensures full { OnFalse result (records.new.items ≡ records.old.items) }
    ensures capacity { vec_capacity records.new ≡ vec_capacity records.old }
    ensures shorter { vec_len records.new ≤ vec_len records.old }
{
    if records.len() < spec.size as usize {
        return true;
    }
    if spec.nopurge || all_tracked(records, tickets) {
        return false;
    }
    drop_oldest(records, gone, tickets, spec.purge);
    true
}

/// Stores a record, if there is room for it, and counts those that went to make it.
pub(crate) fn store(
    records: &mut Vec<(StickKey, Record)>,
    gone: &mut u64,
    tickets: &[(Ticket, StickKey)],
    spec: &Spec,
    key: StickKey,
    found: Record,
) -> bool
    requires place { vec_len records.old < vec_capacity records.old }
    requires purge { 1 ≤ spec.now.purge }
    ensures stored { MatchBool result
        (stored_in spec.now tickets.now records.old.items key found ≡ Some records.new.items)
        (stored_in spec.now tickets.now records.old.items key found ≡ None) }
    ensures full { OnFalse result (records.new.items ≡ records.old.items) }
{
    if find(records, &key).is_none() && !make_room(records, gone, tickets, spec) {
        return false;
    }
    put_record(records, key, found);
    true
}
