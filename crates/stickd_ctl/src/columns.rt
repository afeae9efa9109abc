//! Rows of texts as columns.

use base_sequence::NoMemory;
use std::alloc::Global;

/// Texts of a row.
pub(crate) type Texts = Vec<Vec<u8>>;

/// Adds a text behind as many blanks as make it so wide.
fn push_padded(text: &mut Vec<u8>, cell: &[u8], width: usize) -> Result<(), NoMemory> {
    for _place in cell.len()..width {
        text.push(b' ')?;
    }
    text.extend_from_slice(cell)?;
    Ok(())
}

/// The widths of columns: each as wide as the widest of its texts.
fn widths_of(alloc: Global, rows: &[Texts]) -> Result<Vec<usize>, NoMemory> {
    let mut widths: Vec<usize> = Vec::new(alloc);
    for row in rows {
        for (place, cell) in row.iter().enumerate() {
            match widths.get_mut(place) {
                Some(width) => *width = cell.len().max(*width),
                None => widths.push(cell.len())?,
            }
        }
    }
    Ok(widths)
}

/// A row's texts, each behind as many blanks as its column is wide, with a blank between columns.
fn row_line(alloc: Global, row: &[Vec<u8>], widths: &[usize]) -> Result<Vec<u8>, NoMemory> {
    let mut line = Vec::new(alloc);
    for (place, cell) in row.iter().enumerate() {
        if place > 0 {
            line.push(b' ')?;
        }
        let width = widths.get(place).copied().unwrap_or(0);
        push_padded(&mut line, cell, width)?;
    }
    Ok(line)
}

/// Rows as lines of columns, the texts at the right, each line cut to so many bytes.
pub(crate) fn columns(alloc: Global, rows: &[Texts], most: usize) -> Result<Vec<u8>, NoMemory> {
    let widths = widths_of(alloc, rows)?;
    let mut text = Vec::new(alloc);
    for row in rows {
        let mut line = row_line(alloc, row, &widths)?;
        line.truncate(most);
        text.extend_from_slice(&line)?;
        text.push(b'\n')?;
    }
    Ok(text)
}
