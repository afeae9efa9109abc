//! The row of a slot's entry; `looks` and `listing` show it, and `tracked` fills one in that has its memory.
ghost use Rattle.std.specs.Prelude.{◌≡◌, ◌+◌, ◌-◌, ◌≤◌, [], length, Some, IfOk, IsSome, unwrap_or, vec_capacity};
ghost use Rattle.std.specs.Option.{option_map};
ghost use Rattle.stored_data.specs.Fields.{fields_of};
ghost use Rattle.stick_pooled.specs.Stock.{Held, held_at};
ghost use Rattle.stick_model.specs.State.{row_of};
ghost use Rattle.stick_pooled.specs.Shown.{moment_at, record_of};
ghost use Rattle.stick_pooled.specs.Seen.{cells_of};

use crate::entry_store::Store;
use base_sequence::{NoMemory, Sequence};
use std::alloc::Global;
use stick_key::StickKey;
use stick_model::{Cell, Cells, Row, Spec};
use stored_data::StoredSet;

/// The ms that are left at a clock of what was refreshed at a moment before it; 0 without `expire`.
pub(crate) fn left_at(expire: Option<u32>, moment: u64, clock: u64) -> u64
    requires { moment ≤ clock }
    ensures { result ≡ unwrap_or (option_map (λ life. moment + life) expire) 0 - clock }
{
    match expire {
        Some(life) => u64::from(life).saturating_sub(clock - moment),
        None => 0,
    }
}

/// The memory of a row's cells, with none in it.
pub(crate) fn room_for_cells(alloc: Global, columns: &StoredSet) -> Result<Vec<Cell>, NoMemory>
    ensures empty { IfOk result (λ cells. cells.items ≡ []) }
    ensures room { IfOk result (λ cells. vec_capacity cells ≡ length (fields_of columns.now)) }
{
    Vec::with_capacity(alloc, columns.fields().len())
}

/// What a row shows of the data of a slot's entry, which has so many references, in memory that was taken before.
#[inline(always)]
fn fill_cells(
    columns: &StoredSet,
    store: &Store,
    clock: u64,
    slot: u32,
    refs: u32,
    mut cells: Vec<Cell>,
) -> Cells
    requires there { IsSome (held_at store.now slot) }
    requires columns { store.now.columns ≡ columns.now }
    requires empty { cells.items ≡ [] }
    requires room { length (fields_of columns.now) ≤ vec_capacity cells }
    ensures { (held : Held) → held_at store.now slot ≡ Some held → result ≡ cells_of columns.now clock refs held.values }
{
    let words = store.words(slot);
    let fields = columns.fields();
    for place in 0..fields.len() {
        let shown = columns.shown(place, words, clock);
        cells.push_reserved(Cell {
            field: fields[place],
            value: shown.unwrap_or(u64::from(refs)),
        });
    }
    Sequence::from_vec(cells)
}

/// The row of a slot's entry, when the clock has come to this moment, in memory that was taken before.
///
/// It is put into its callers, as a row that comes back from a call is copied from reply to reply: 60 instructions of each event.
#[inline(always)]
pub(crate) fn fill_row(
    spec: &Spec,
    store: &Store,
    clock: u64,
    slot: u32,
    key: StickKey,
    cells: Vec<Cell>,
) -> Row
    requires there { IsSome (held_at store.now slot) }
    requires columns { store.now.columns ≡ spec.now.columns }
    requires past { moment_at store.now slot ≤ clock }
    requires own { option_map (λ (held : Held). held.key) (held_at store.now slot) ≡ Some key }
    requires empty { cells.items ≡ [] }
    requires room { length (fields_of spec.now.columns) ≤ vec_capacity cells }
    ensures { (held : Held) → held_at store.now slot ≡ Some held → result
        ≡ row_of spec.now.columns clock held.entry.refs held.key (record_of spec.now.expire held) }
{
    let entry = store.entry(slot);
    let shown = fill_cells(&spec.columns, store, clock, slot, entry.refs, cells);
    Row {
        key,
        refs: entry.refs,
        left: left_at(spec.expire, entry.moment, clock),
        cells: shown,
    }
}

/// The row of a slot's entry, when the clock has come to this moment.
#[inline(always)]
pub(crate) fn show_row(
    alloc: Global,
    spec: &Spec,
    store: &Store,
    clock: u64,
    slot: u32,
) -> Result<Row, NoMemory>
    requires there { IsSome (held_at store.now slot) }
    requires columns { store.now.columns ≡ spec.now.columns }
    requires past { moment_at store.now slot ≤ clock }
    ensures { IfOk result (λ row. (held : Held) → held_at store.now slot ≡ Some held → row
        ≡ row_of spec.now.columns clock held.entry.refs held.key (record_of spec.now.expire held)) }
{
    let key = store.key(slot).copy()?;
    let cells = room_for_cells(alloc, &spec.columns)?;
    Ok(fill_row(spec, store, clock, slot, key, cells))
}
