//! Whether two lists of cells, or of columns, are the same; the comparisons of events, rows and specifications call it.
ghost use Rattle.std.specs.Prelude.{◌≡◌, ◌↔◌, IsTrue};

use crate::rows::Cell;
use stored_data::Column;

/// Whether two lists of cells are the same: the same fields in the same order, with the same values.
pub fn same_cells(cells: &[Cell], others: &[Cell]) -> bool
    ensures { IsTrue result ↔ (cells.now ≡ others.now) }
{
    cells == others
}

/// Whether two lists of columns are the same: the same data in the same order, with the same periods and counts.
pub fn same_columns(columns: &[Column], others: &[Column]) -> bool
    ensures { IsTrue result ↔ (columns.now ≡ others.now) }
{
    columns == others
}
