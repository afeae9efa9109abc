//! The rows of a table beside the stamps of their entries; `oldest_first` sorts by them.

ghost use Rattle.std.specs.Prelude.{◌≡◌, ◌<◌, ◌^◌, ◌++◌, true, map, IfOk, IfErr, OnOk};
ghost use Rattle.stick_model.specs.State.{advance};
ghost use Rattle.stick_model.specs.Refusals.{IsRefused, has_life};
ghost use Rattle.stick_model.specs.declared.events.Event.TheVariants.{List as ListRows};
ghost use Rattle.stick_model.specs.declared.filters.Filter.TheVariants.{Everything};
ghost use Rattle.table_cli.specs.OldestFirst as spec;
ghost use Rattle.table_cli.specs.OldestFirst.{IsOldestFirst, row_of};

use base_sequence::NoMemory;
use std::alloc::Global;
use stick_key::StickKey;
use stick_model::{Event, Filter, Record, Refusal, Reply, Row, Rows};
use stick_table::{PlainTable, Table};

/// A row, and the number of the event that refreshed its entry last.
#[derive(Drop)]
pub(crate) struct Stamped {
    pub(crate) stamp: u64,
    pub(crate) row: Row,
}

/// Rows beside the stamps of entries, as far as both go.
fn beside(
    alloc: Global,
    entries: &[(StickKey, Record)],
    rows: Rows,
) -> Result<Vec<Stamped>, NoMemory>
    ensures { IfOk result (λ all. all.items ≡ spec.beside rows entries.now) }
{
    let mut all = Vec::new(alloc);
    let mut left = entries;
    for row in rows.into_sequence()?.into_vec() {
        let Some((entry, more)) = left.split_first() else {
            return Ok(all);
        };
        let stamp = entry.1.stamp;
        all.push(Stamped { stamp, row })?;
        left = more;
    }
    Ok(all)
}

/// The rows of a table at a moment, beside their stamps, in the order of their keys.
fn rows_of(alloc: Global, table: &mut PlainTable, moment: u64) -> Result<Vec<Stamped>, Refusal>
    requires { moment < 2 ^ 62 }
    ensures ok { IfOk result (λ rows. rows.items ≡ map (spec.stamped (advance table.old.now moment)) (advance table.old.now moment).records) }
    ensures lives { OnOk result (has_life table.old.now (ListRows moment Everything) ≡ true) }
    ensures err { IfErr result (IsRefused table.old.now (ListRows moment Everything)) }
{
    let reply = table.step(&Event::List(moment, Filter::Everything))?;
    let Reply::Rows { used: _, rows } = reply else {
        return Err(Refusal::Memory);
    };
    match beside(alloc, table.records(), rows) {
        Ok(all) => Ok(all),
        Err(_) => Err(Refusal::Memory),
    }
}

/// The rows of a table at a moment, beside their stamps, those with a lower stamp first.
pub(crate) fn oldest_first(
    alloc: Global,
    table: &mut PlainTable,
    moment: u64,
) -> Result<Vec<Stamped>, Refusal>
    requires { moment < 2 ^ 62 }
    ensures ok { IfOk result (λ rows. IsOldestFirst moment table.old.now rows.items) }
    ensures err { IfErr result (IsRefused table.old.now (ListRows moment Everything)) }
{
    let mut rows = match rows_of(alloc, table, moment) {
        Ok(rows) => rows,
        Err(refusal) => return Err(refusal),
    };
    match rows.sort_by_key(|one| one.stamp) {
        Ok(()) => Ok(rows),
        Err(_) => Err(Refusal::Memory),
    }
}

/// Appends the rows alone.
pub(crate) fn push_rows(rows: &mut Vec<Row>, all: Vec<Stamped>) -> Result<(), NoMemory>
    ensures { OnOk result (rows.new.items ≡ rows.old.items ++ map row_of all.items) }
{
    for one in all {
        let Stamped { stamp: _, row } = one;
        rows.push(row)?;
    }
    Ok(())
}
