//! What a table keeps of a key, and what it shows of it; tables make rows, and rules and commands read them.
ghost use Rattle.std.specs.Prelude.{◌≡◌, IfOk};

use base_sequence::{NoMemory, Sequence};
use stick_key::StickKey;
use stored_data::{Field, Values};

/// A reference to an entry: the number of the event that made it, and a slot that no other outstanding reference has.
#[derive(Clone, Copy, Debug, PartialEq, Eq)]
pub struct Ticket {
    pub number: u64,
    pub slot: u32,
}

/// What a table keeps of a key: the number of the event that refreshed it last, the moment in ms at which it is gone
/// (none in a table without `expire`), and its data.
#[derive(Drop)]
pub struct Record {
    pub stamp: u64,
    pub date: Option<u64>,
    pub values: Values,
}

impl Record {
    /// An equal record.
    pub fn copy(&self) -> Result<Record, NoMemory>
        ensures { IfOk result (λ found. found ≡ self.now) }
    {
        Ok(Record {
            stamp: self.stamp,
            date: self.date,
            values: self.values.copy()?,
        })
    }
}

/// A field and its value.
#[derive(Clone, Copy, Debug, PartialEq, Eq)]
pub struct Cell {
    pub field: Field,
    pub value: u64,
}

/// Fields and their values: those that a row shows, or that are put.
pub type Cells = Sequence<Cell>;

/// What is shown of an entry: its key, how many references it has, the ms that are left of its life (0 where it has
/// no date), and the fields that its table stores, in their order.
#[derive(Drop)]
pub struct Row {
    pub key: StickKey,
    pub refs: u32,
    pub left: u64,
    pub cells: Cells,
}

impl Row {
    /// An equal row.
    pub fn copy(&self) -> Result<Row, NoMemory>
        ensures { IfOk result (λ row. row ≡ self.now) }
    {
        Ok(Row {
            key: self.key.copy()?,
            refs: self.refs,
            left: self.left,
            cells: self.cells.copy()?,
        })
    }
}
