//! The rows that a plain table shows of its records; `looks` and `references` call it.
ghost use Rattle.std.specs.Prelude.{◌≡◌, ◌≤◌, ◌<◌, ◌^◌, length, IfOk};
ghost use Rattle.stick_model.specs.State.{row_of};
ghost use Rattle.stick_table.specs.Replies.{listed_rows};

use crate::contents::filters::passes;
use crate::contents::records::is_live;
use crate::contents::tickets::count_refs;
use base_sequence::{NoMemory, Sequence};
use std::alloc::Global;
use stick_key::StickKey;
use stick_model::{Cell, Filter, Record, Row, Rows, Ticket};
use stored_data::StoredSet;

/// What a row shows of a record.
pub(crate) fn make_row(
    alloc: Global,
    columns: &StoredSet,
    clock: u64,
    refs: u32,
    key: &StickKey,
    found: &Record,
) -> Result<Row, NoMemory>
    requires { clock < 2 ^ 62 }
    ensures { IfOk result (λ row. row ≡ row_of columns.now clock refs key.now found.now) }
{
    let key = key.copy()?;
    let mut cells = Vec::new(alloc);
    for field in columns.fields() {
        let value = found.values.get(*field, clock).unwrap_or(u64::from(refs));
        cells.push(Cell {
            field: *field,
            value,
        })?;
    }
    Ok(Row {
        key,
        refs,
        left: found.date.unwrap_or(0).saturating_sub(clock),
        cells: Sequence::from_vec(cells),
    })
}

/// The rows of the records that match, once the clock has come to this moment.
pub(crate) fn list_rows(
    alloc: Global,
    columns: &StoredSet,
    records: &[(StickKey, Record)],
    tickets: &[(Ticket, StickKey)],
    clock: u64,
    choice: &Filter,
) -> Result<Rows, NoMemory>
    requires clock { clock < 2 ^ 62 }
    requires tickets { length tickets.now ≤ 1048576 }
    ensures { IfOk result (λ rows. rows ≡ listed_rows columns.now tickets.now clock choice.now records.now) }
{
    let mut rows = Vec::new(alloc);
    for entry in records {
        if !is_live(tickets, clock, entry) {
            continue;
        }
        if !passes(tickets, clock, choice, entry) {
            continue;
        }
        let refs = count_refs(tickets, &entry.0) as u32;
        rows.push(make_row(alloc, columns, clock, refs, &entry.0, &entry.1)?)?;
    }
    Ok(Rows::from(Sequence::from_vec(rows)))
}
