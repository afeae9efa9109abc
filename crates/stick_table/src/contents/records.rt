//! Records with their keys, in the order of the keys; all parts of the plain table find and change them by it.
ghost use Rattle.std.specs.Prelude.{◌≡◌, ◌≢◌, ◌+◌, ◌≤◌, ◌<◌, ◌++◌, ◌^◌, length, filter, not, take, drop, IfOk, vec_len, vec_capacity, slice_index_or, true, unwrap_or};
ghost use Rattle.std.specs.Option.{option_copied, option_and_then};
ghost use Rattle.std.specs.BTreeMap.{insert_entry};
ghost use Rattle.std.specs.Map.{set_value};
ghost use Rattle.std.specs.declared.cmp.Ordering.TheVariants.{Greater};
ghost use Rattle.stored_data.specs.Acts.{acted, answer as answer_of};
ghost use Rattle.stick_model.specs.Key.{key_cmp, same_key};
ghost use Rattle.stick_model.specs.declared.rows.Record.{Record};
ghost use Rattle.stick_model.specs.State.{record_at, outlives as record_outlives, stays, zero_record};

use crate::contents::tickets::is_tracked;
use base_sequence::NoMemory;
use std::alloc::Global;
use std::cmp::Ordering;
use stick_key::StickKey;
use stick_model::{Record, Ticket};
use stored_data::{Act, StoredSet, Values};

/// Whether two keys have the same bytes.
pub(crate) fn is_same(a: &StickKey, b: &StickKey) -> bool
    ensures { result ≡ same_key a.now b.now }
{
    a.cmp(b) == Ordering::Equal
}

fn outlives(found: &Record, clock: u64) -> bool
    ensures { result ≡ record_outlives clock found.now }
{
    match found.date {
        Some(date) => clock < date,
        None => true,
    }
}

/// Whether an entry is there when the clock has come to this moment.
pub(crate) fn is_live(
    tickets: &[(Ticket, StickKey)],
    clock: u64,
    entry: &(StickKey, Record),
) -> bool
    ensures { result ≡ stays clock tickets.now entry.now }
{
    outlives(&entry.1, clock) || is_tracked(tickets, &entry.0)
}

/// Drops the untracked records whose date the clock has reached.
pub(crate) fn drop_dead(
    records: &mut Vec<(StickKey, Record)>,
    tickets: &[(Ticket, StickKey)],
    clock: u64,
)
    ensures items { records.new.items ≡ filter (stays clock tickets.now) records.old.items }
    ensures capacity { vec_capacity records.new ≡ vec_capacity records.old }
    ensures shorter { vec_len records.new ≤ vec_len records.old }
{
    records.retain(|entry| is_live(tickets, clock, entry));
}

/// The record of the key.
pub(crate) fn find<'a>(records: &'a [(StickKey, Record)], key: &StickKey) -> Option<&'a Record>
    ensures { option_copied result ≡ record_at key.now records.now }
{
    for entry in records {
        if is_same(key, &entry.0) {
            return Some(&entry.1);
        }
    }
    None
}

/// The record of the key, if it is there when the clock has come to this moment.
pub(crate) fn find_live<'a>(
    records: &'a [(StickKey, Record)],
    tickets: &[(Ticket, StickKey)],
    clock: u64,
    key: &StickKey,
) -> Option<&'a Record>
    ensures { option_copied result ≡ record_at key.now (filter (stays clock tickets.now) records.now) }
{
    for entry in records {
        if is_same(key, &entry.0) && is_live(tickets, clock, entry) {
            return Some(&entry.1);
        }
    }
    None
}

/// The data of a record that is there when the clock has come to this moment, or of a new one.
pub(crate) fn live_values(
    alloc: Global,
    columns: &StoredSet,
    records: &[(StickKey, Record)],
    tickets: &[(Ticket, StickKey)],
    clock: u64,
    key: &StickKey,
) -> Result<Values, NoMemory>
    ensures { IfOk result (λ values. values
        ≡ (unwrap_or (record_at key.now (filter (stays clock tickets.now) records.now)) (zero_record columns.now)).values) }
{
    match find_live(records, tickets, clock, key) {
        Some(found) => found.values.copy(),
        None => Values::zero(alloc, columns),
    }
}

/// How many records are there when the clock has come to this moment.
pub(crate) fn count_live(
    records: &[(StickKey, Record)],
    tickets: &[(Ticket, StickKey)],
    clock: u64,
) -> usize
    ensures { result ≡ length (filter (stays clock tickets.now) records.now) }
{
    records
        .iter()
        .filter(|entry| is_live(tickets, clock, entry))
        .count()
}

/// The place of the first key that isn't below the key.
fn place_of(records: &[(StickKey, Record)], key: &StickKey) -> usize
    ensures within { result ≤ length records.now }
    ensures goes_behind { (found : Record) → insert_entry key_cmp records.now key.now found
        ≡ take result records.now ++ insert_entry key_cmp (drop result records.now) key.now found }
    ensures not_below { (d : _) → result < length records.now → key_cmp key.now (slice_index_or records.now result d).0 ≢ Greater }
{
    for (i, entry) in records.iter().enumerate() {
        if key.cmp(&entry.0) != Ordering::Greater {
            return i;
        }
    }
    records.len()
}

/// Sets the record of a key.
pub(crate) fn put_record(records: &mut Vec<(StickKey, Record)>, key: StickKey, found: Record)
    requires { vec_len records.old < vec_capacity records.old }
    ensures { records.new.items ≡ insert_entry key_cmp records.old.items key found }
{
    let place = place_of(records, &key);
    if place < records.len() && is_same(&key, &records[place].0) {
        let entry = &mut records[place];
        entry.1 = found;
    } else {
        let _ = records.insert(place, (key, found));
    }
}

/// Removes the record of a key.
pub(crate) fn remove_record(records: &mut Vec<(StickKey, Record)>, key: &StickKey)
    ensures { records.new.items ≡ filter (λ entry. not (same_key key.now entry.0)) records.old.items }
{
    records.retain(|entry| !is_same(key, &entry.0));
}

/// The place of a key's record, or the number of records.
fn position_of(records: &[(StickKey, Record)], key: &StickKey) -> usize
    ensures within { result ≤ length records.now }
    ensures found { record_at key.now (drop result records.now) ≡ record_at key.now records.now }
    ensures set { (found : Record) → set_value (same_key key.now) records.now found
        ≡ take result records.now ++ set_value (same_key key.now) (drop result records.now) found }
    ensures here { (d : _) → result < length records.now → same_key key.now (slice_index_or records.now result d).0 ≡ true }
{
    for (i, entry) in records.iter().enumerate() {
        if is_same(key, &entry.0) {
            return i;
        }
    }
    records.len()
}

/// Refreshes the record of a key.
pub(crate) fn touch(
    records: &mut [(StickKey, Record)],
    key: &StickKey,
    stamp: u64,
    date: Option<u64>,
)
    ensures { (z : _) → records.new ≡ set_value (same_key key.now) records.old
        (record (unwrap_or (record_at key.now records.old) z) { stamp = stamp; date = date }) }
{
    let place = position_of(records, key);
    if place < records.len() {
        let entry = &mut records[place];
        entry.1.stamp = stamp;
        entry.1.date = date;
    }
}

/// Does an act on the data of a key's record.
pub(crate) fn act_at(
    records: &mut [(StickKey, Record)],
    key: &StickKey,
    clock: u64,
    act: Act,
) -> Option<u64>
    requires clock { clock < 2 ^ 62 }
    ensures records { (z : Record) → set_value (same_key key.now) records.old
        (record (unwrap_or (record_at key.now records.old) z) { values = acted (unwrap_or (record_at key.now records.old) z).values clock act }) ≡ records.new }
    ensures told { result ≡ option_and_then (λ (kept : Record). answer_of kept.values clock act) (record_at key.now records.old) }
{
    let place = position_of(records, key);
    if place < records.len() {
        let entry = &mut records[place];
        entry.1.values.act(clock, act)
    } else {
        None
    }
}

/// Equal records with equal keys.
pub(crate) fn copy_records(
    alloc: Global,
    records: &[(StickKey, Record)],
) -> Result<Vec<(StickKey, Record)>, NoMemory>
    ensures { IfOk result (λ copy. copy.items ≡ records.now) }
{
    let mut copy = Vec::new(alloc);
    for entry in records {
        copy.push((entry.0.copy()?, entry.1.copy()?))?;
    }
    Ok(copy)
}
