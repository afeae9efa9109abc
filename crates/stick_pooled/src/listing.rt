//! What a table lists; `events` calls it for `List`.
ghost use Rattle.std.specs.Prelude.{◌≡◌, ℕ, ◌+◌, ◌<◌, ◌≤◌, ◌^◌, Some, false, IfOk, IsSome, OnOk, OnErr, Option, count_by, length};
ghost use Rattle.std.specs.Map.{values_of};
ghost use Rattle.std.specs.Option.{option_map_or};
ghost use Rattle.stick_pooled.specs.Stock.{Held, IsStock, held_at};
ghost use Rattle.stick_table.specs.Replies.{listed_reply};
ghost use Rattle.stick_model.specs.Gathered.{with_row};
ghost use Rattle.stick_model.specs.State.{row_of};
ghost use Rattle.stick_model.specs.Step.{begun, list as reply_to_list};
ghost use Rattle.stick_model.specs.declared.filters.Filter.TheVariants.{Key as OneKey};
ghost use Rattle.stick_pooled.specs.Shown.{moment_at, record_of, IsRising};
ghost use Rattle.stick_pooled.specs.Seen.{is_kept, listed_entries, listed_in, listed_row as row_listed, with_listed};

use crate::StickTable;
use crate::entry_store::Store;
use crate::expiry::is_alive;
use crate::filters::{is_listed, live_slot};
use crate::rows::left_at;
use base_sequence::NoMemory;
use std::alloc::Global;
use std::mem;
use stick_key::StickKey;
use stick_model::{Filter, Gathering, Reply, RowRoom, Rows, Spec};

/// How many entries are there when the clock has come to this moment. Those that have reached their date are the first of
/// the queue, so nothing is asked of the slots but of these.
fn count_live(store: &Store, expire: Option<u32>, clock: u64) -> u32
    requires clock { clock < 2 ^ 62 }
    requires rising { IsRising store.now store.now.queue }
    ensures { result ≡ count_by (λ (slot : Option Held). option_map_or (is_kept clock expire) slot false) store.now.slots }
{
    let mut live = store.len();
    let mut next = store.front();
    while let Some(slot) = next {
        if is_alive(expire, store.entry(slot).moment, clock) {
            return live;
        }
        live -= 1;
        next = store.after(slot);
    }
    live
}

/// Adds the row of a slot's entry.
#[inline(always)]
fn gather_row(
    expire: Option<u32>,
    store: &Store,
    clock: u64,
    slot: u32,
    rows: &mut Gathering,
) -> Result<(), NoMemory>
    requires there { IsSome (held_at store.now slot) }
    requires past { moment_at store.now slot ≤ clock }
    requires columns { rows.old.columns ≡ store.now.columns }
    requires clock { rows.old.clock ≡ clock }
    ensures { OnOk result ((held : Held) → held_at store.now slot ≡ Some held → rows.new
        ≡ with_row rows.old (row_of rows.old.columns clock held.entry.refs held.key (record_of expire held))) }
{
    let entry = store.entry(slot);
    let left = left_at(expire, entry.moment, clock);
    rows.push(store.key(slot), entry.refs, left, store.words(slot))
}

/// Adds the row of a slot's entry, where it has one that is there when the clock has come to this moment, and that a filter means.
#[inline(always)]
fn gather_slot(
    expire: Option<u32>,
    store: &Store,
    clock: u64,
    choice: &Filter,
    slot: u32,
    rows: &mut Gathering,
) -> Result<(), NoMemory>
    requires limit { clock < 2 ^ 62 }
    requires past { moment_at store.now slot ≤ clock }
    requires columns { rows.old.columns ≡ store.now.columns }
    requires clock { rows.old.clock ≡ clock }
    ensures { OnOk result (rows.new ≡ with_listed rows.old (row_listed rows.old.columns expire clock choice.now (held_at store.now slot))) }
{
    if !is_listed(store, expire, clock, choice, slot) {
        return Ok(());
    }
    gather_row(expire, store, clock, slot, rows)
}

/// The rows of what is listed, in the order of the slots, found by a walk over them all. So many rows have their place first, in
/// this room as far as it goes.
fn walk_rows(
    room: RowRoom,
    spec: &Spec,
    store: &Store,
    clock: u64,
    choice: &Filter,
    count: u32,
) -> Result<Gathering, NoMemory>
    requires clock { clock < 2 ^ 62 }
    requires size { spec.now.size ≡ length store.now.slots }
    requires columns { store.now.columns ≡ spec.now.columns }
    requires past { (slot : ℕ) → moment_at store.now slot ≤ clock }
    ensures { IfOk result (λ rows. rows.rows ≡ listed_in spec.now.columns spec.now.expire clock choice.now store.now.slots) }
{
    let mut rows = Gathering::in_room(room, &spec.columns, clock, count)?;
    for slot in 0..spec.size {
        gather_slot(spec.expire, store, clock, choice, slot, &mut rows)?;
    }
    Ok(rows)
}

/// The row of a key's entry, where it has one that is there when the clock has come to this moment.
fn find_row(
    alloc: Global,
    spec: &Spec,
    store: &Store,
    clock: u64,
    key: &StickKey,
) -> Result<Gathering, NoMemory>
    requires clock { clock < 2 ^ 62 }
    requires columns { store.now.columns ≡ spec.now.columns }
    requires past { (slot : ℕ) → moment_at store.now slot ≤ clock }
    requires stock { IsStock store.now }
    ensures { IfOk result (λ rows. rows.rows ≡ listed_in spec.now.columns spec.now.expire clock (OneKey key.now) store.now.slots) }
{
    let none = RowRoom::none(alloc);
    let mut rows = Gathering::in_room(none, &spec.columns, clock, 0)?;
    let Some(at) = live_slot(store, spec.expire, clock, key) else {
        return Ok(rows);
    };
    gather_row(spec.expire, store, clock, at, &mut rows)?;
    Ok(rows)
}

/// The rows of what is listed, in the order of the slots, of which so many are used. Only a filter that may mean any entry
/// costs a walk over the slots: a table is locked meanwhile. All entries are listed in this room.
fn gather_rows(
    alloc: Global,
    room: RowRoom,
    spec: &Spec,
    store: &Store,
    clock: u64,
    choice: &Filter,
    used: u32,
) -> Result<Gathering, NoMemory>
    requires clock { clock < 2 ^ 62 }
    requires size { spec.now.size ≡ length store.now.slots }
    requires columns { store.now.columns ≡ spec.now.columns }
    requires past { (slot : ℕ) → moment_at store.now slot ≤ clock }
    requires stock { IsStock store.now }
    ensures { IfOk result (λ rows. rows.rows ≡ listed_in spec.now.columns spec.now.expire clock choice.now store.now.slots) }
{
    match choice {
        Filter::Everything => walk_rows(room, spec, store, clock, choice, used),
        Filter::Nothing => {
            let none = RowRoom::none(alloc);
            Gathering::in_room(none, &spec.columns, clock, 0)
        }
        Filter::Key(key) => find_row(alloc, spec, store, clock, key),
        Filter::Compare(_, _, _) => {
            let none = RowRoom::none(alloc);
            walk_rows(none, spec, store, clock, choice, 0)
        }
    }
}

/// The rows of what is listed, in the order of the keys, of a table of which so many slots are used. They are gathered here; who
/// reads them makes them and sorts them.
fn list_rows(
    alloc: Global,
    room: RowRoom,
    spec: &Spec,
    store: &Store,
    clock: u64,
    choice: &Filter,
    used: u32,
) -> Result<Rows, NoMemory>
    requires clock { clock < 2 ^ 62 }
    requires size { spec.now.size ≡ length store.now.slots }
    requires columns { store.now.columns ≡ spec.now.columns }
    requires past { (slot : ℕ) → moment_at store.now slot ≤ clock }
    requires stock { IsStock store.now }
    ensures { IfOk result (λ rows. rows ≡ values_of (listed_entries spec.now.columns spec.now.expire clock choice.now store.now.slots)) }
{
    let rows = gather_rows(alloc, room, spec, store, clock, choice, used)?;
    Rows::gathered(alloc, rows)
}

impl StickTable {
    /// What a listing is answered in this room, once the clock has come to this moment.
    fn list_reply(&self, room: RowRoom, clock: u64, choice: &Filter) -> Result<Reply, NoMemory>
        requires past { self.now.now.clock ≤ clock }
        requires limit { clock < 2 ^ 62 }
        ensures { IfOk result (λ reply. reply ≡ listed_reply self.now.now clock choice.now) }
    {
        match choice.not_stored(&self.spec.columns) {
            Some(field) => Ok(Reply::NotStored(field)),
            None => {
                let used = count_live(&self.store, self.spec.expire, clock);
                let rows = list_rows(
                    self.alloc,
                    room,
                    &self.spec,
                    &self.store,
                    clock,
                    choice,
                    used,
                )?;
                Ok(Reply::Rows {
                    used: u64::from(used),
                    rows,
                })
            }
        }
    }

    pub(crate) fn list(&mut self, now: u64, choice: &Filter) -> Result<Reply, NoMemory>
        requires moment { now < 2 ^ 62 }
        requires life { self.old.now.events + length self.old.now.tickets < self.old.now.spec.life }
        ensures ok { IfOk result (λ reply. reply_to_list (begun self.old.now now) choice.now ≡ (reply, self.new.now)) }
        ensures err { OnErr result (self.new ≡ self.old) }
        ensures base { self.new.base ≡ self.old.base }
    {
        let clock = self.clock.max(now);
        let room = mem::replace(&mut self.room, RowRoom::none(self.alloc));
        let reply = self.list_reply(room, clock, choice)?;
        self.begin(now);
        Ok(reply)
    }

    pub(crate) fn list_twice(
        &mut self,
        now: u64,
        choice: &Filter,
    ) -> Result<(Reply, Reply), NoMemory>
        requires moment { now < 2 ^ 62 }
        requires life { self.old.now.events + length self.old.now.tickets < self.old.now.spec.life }
        ensures ok { IfOk result (λ replies. reply_to_list (begun self.old.now now) choice.now ≡ (replies.0, self.new.now)) }
        ensures twice { IfOk result (λ replies. replies.1 ≡ replies.0) }
        ensures err { OnErr result (self.new ≡ self.old) }
        ensures base { self.new.base ≡ self.old.base }
    {
        let clock = self.clock.max(now);
        let room = mem::replace(&mut self.room, RowRoom::none(self.alloc));
        let first = self.list_reply(room, clock, choice)?;
        let second = first.copy(self.alloc)?;
        self.begin(now);
        Ok((first, second))
    }
}
