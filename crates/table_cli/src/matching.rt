//! Which rows match several filters, by the values that they show; `show_matching` and `clear_matching` call it.

ghost use Rattle.std.specs.Prelude.{◌≡◌, filter, IfOk};
ghost use Rattle.table_cli.specs.Matching as spec;

use base_sequence::{NoMemory, Sequence};
use stick_model::{Cell, Filter, Reply, Row, Rows};
use stored_data::{Field, StoredSet};
use table_texts::Comparison;

/// The value of a field among these, where it is shown.
fn value_shown(cells: &[Cell], field: Field) -> Option<u64>
    ensures { result ≡ spec.value_shown cells.now field }
{
    for cell in cells {
        if cell.field.is(field) {
            return Some(cell.value);
        }
    }
    None
}

/// Whether a row shows a value that compares so.
fn is_match(row: &Row, one: Comparison) -> bool
    ensures { result ≡ spec.is_match row.now one }
{
    match value_shown(row.cells.as_slice(), one.field) {
        Some(value) => one.op.compares(value, one.bound),
        None => false,
    }
}

/// Whether a row matches all filters.
fn matches_all(row: &Row, all: &[Comparison]) -> bool
    ensures { result ≡ spec.matches_all all.now row.now }
{
    for one in all {
        if !is_match(row, *one) {
            return false;
        }
    }
    true
}

/// Keeps the rows that match all filters.
fn keep_matching(rows: &mut Vec<Row>, all: &[Comparison])
    ensures { rows.new.items ≡ filter (spec.matches_all all.now) rows.old.items }
{
    rows.retain(|row| matches_all(row, all));
}

/// Those of some rows that match all filters.
pub(crate) fn matching(rows: Rows, all: &[Comparison]) -> Result<Vec<Row>, NoMemory>
    ensures { IfOk result (λ kept. kept.items ≡ filter (spec.matches_all all.now) rows) }
{
    let mut kept = rows.into_sequence()?.into_vec();
    keep_matching(&mut kept, all);
    Ok(kept)
}

/// A reply with those of its rows alone that match all filters.
pub(crate) fn narrowed(reply: Reply, all: &[Comparison]) -> Result<Reply, NoMemory>
    ensures { IfOk result (λ left. left ≡ spec.narrowed all.now reply) }
{
    match reply {
        Reply::Rows { used, rows } => {
            let kept = matching(rows, all)?;
            let rows = Rows::from(Sequence::from_vec(kept));
            Ok(Reply::Rows { used, rows })
        }
        other => Ok(other),
    }
}

/// The filter by which a table itself picks entries.
pub(crate) fn first_filter(all: &[Comparison]) -> Filter
    ensures { result ≡ spec.first_filter all.now }
{
    match all.split_first() {
        Some((one, _more)) => Filter::Compare(one.field, one.op, one.bound),
        None => Filter::Everything,
    }
}

/// The filters that are left for its rows.
pub(crate) fn other_filters(all: &[Comparison]) -> &[Comparison]
    ensures { result.now ≡ spec.other_filters all.now }
{
    match all.split_first() {
        Some((_one, more)) => more,
        None => &[],
    }
}

/// Whether a table with these columns stores what each filter compares.
pub(crate) fn are_stored(columns: &StoredSet, all: &[Comparison]) -> bool
    ensures { result ≡ spec.are_stored columns.now all.now }
{
    for one in all {
        if !columns.stores(one.field) {
            return false;
        }
    }
    true
}
