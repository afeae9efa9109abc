//! Whether two rows, or the rows of two listings, are the same; `same_reply` calls it.
ghost use Rattle.std.specs.Prelude.{◌≡◌, ◌↔◌, IsTrue, IfOk};

use crate::equal_cells::same_cells;
use crate::listed_rows::Rows;
use crate::rows::Row;
use base_sequence::NoMemory;

/// Whether two rows show the same.
pub fn same_row(row: &Row, other: &Row) -> bool
    ensures { IsTrue result ↔ (row.now ≡ other.now) }
{
    row.key.bytes() == other.key.bytes()
        && row.refs == other.refs
        && row.left == other.left
        && same_cells(row.cells.as_slice(), other.cells.as_slice())
}

/// Whether two lists of rows are the same, row by row.
fn are_same(rows: &[Row], others: &[Row]) -> bool
    ensures { IsTrue result ↔ (rows.now ≡ others.now) }
{
    if rows.len() != others.len() {
        return false;
    }
    for place in 0..rows.len() {
        if !same_row(&rows[place], &others[place]) {
            return false;
        }
    }
    true
}

/// Whether two listings show the same rows. Only rows that a table gathered take memory.
pub fn same_rows(rows: &Rows, others: &Rows) -> Result<bool, NoMemory>
    ensures { IfOk result (λ same. IsTrue same ↔ (rows.now ≡ others.now)) }
{
    let Ok(some) = rows.read() else {
        return Err(NoMemory);
    };
    let Ok(other) = others.read() else {
        return Err(NoMemory);
    };
    Ok(are_same(some.as_slice(), other.as_slice()))
}
