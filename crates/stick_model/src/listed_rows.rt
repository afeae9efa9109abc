//! The rows of a listing; tables answer them, and `shard_book` and `table_texts` read them.

ghost use Rattle.std.specs.Prelude.{◌≡◌, ◌++◌, IfOk, OnOk};
ghost use Rattle.stick_model.specs.Gathered.{in_key_order};
ghost use Rattle.stick_model.specs.Listed.{each_in_order, of_all};

use crate::gathering::Gathering;
use crate::packed_row::PackedRow;
use crate::rows::Row;
use base_sequence::{NoMemory, Sequence};
use std::alloc::Global;
use std::marker::Model;

/// How the rows of a listing lie.
#[derive(Drop)]
enum Form {
    /// As they are shown.
    Shown(Sequence<Row>),
    /// As tables gathered them. Those of each are shown in the order of their keys, behind those of the table before.
    Packed(Vec<Gathering>),
    /// As tables gathered them. All are shown in the order of their keys.
    Merged(Vec<Gathering>),
}

/// The rows of a listing. Contracts see them as they are shown, in their order. Those that a table gathered are seen in the order
/// of their keys, and put in order only when they are read: a table gathers them under its lock, and whoever reads them does so
/// behind it.
#[derive(Drop)]
pub struct Rows {
    form: Form,
}

impl Model for Rows {
    ghost use Rattle.std.specs.Prelude.{List};
    ghost use Rattle.stick_model.specs.declared.rows.Row.{Row as ItsRow};

    ghost Value = { List ItsRow };

    ghost use Rattle.stick_model.specs.Listed.{rows_of};

    ghost view = { λ rows. rows_of rows.form };
}

impl From<Sequence<Row>> for Rows {
    ghost from_gives = { λ sequence rows. rows ≡ sequence };

    fn from(sequence: Sequence<Row>) -> Rows {
        Rows {
            form: Form::Shown(sequence),
        }
    }
}

/// Equal rows.
fn copy_rows(alloc: Global, rows: &[Row]) -> Result<Sequence<Row>, NoMemory>
    ensures { IfOk result (λ copy. copy ≡ rows.now) }
{
    let mut copy = Vec::new(alloc);
    for row in rows {
        copy.push(row.copy()?)?;
    }
    Ok(Sequence::from_vec(copy))
}

/// The rows in memory of their own.
fn make_rows(packed: Vec<PackedRow<'_>>) -> Result<Sequence<Row>, NoMemory>
    ensures { IfOk result (λ rows. rows ≡ packed.entry.items) }
{
    let alloc = *packed.allocator();
    let mut rows = Vec::new(alloc);
    for row in packed {
        rows.push(row.into_row(alloc)?)?;
    }
    Ok(Sequence::from_vec(rows))
}

/// The same rows in the order of their keys.
fn sort_rows(rows: Sequence<Row>) -> Result<Sequence<Row>, NoMemory>
    ensures { IfOk result (λ sorted. sorted ≡ in_key_order rows) }
{
    let mut rows = rows.into_vec();
    rows.sort_by(|a: &Row, b: &Row| a.key.cmp(&b.key))?;
    Ok(Sequence::from_vec(rows))
}

/// Puts rows in the order of their keys.
fn sort_packed(rows: &mut Vec<PackedRow<'_>>) -> Result<(), NoMemory>
    ensures { OnOk result (rows.new.items ≡ in_key_order rows.old.items) }
{
    rows.sort_by(|a: &PackedRow<'_>, b: &PackedRow<'_>| a.key().cmp(b.key()))?;
    Ok(())
}

/// The rows that tables gathered, those of each in the order of their keys.
fn sort_each<'a>(alloc: Global, parts: &'a [Gathering]) -> Result<Vec<PackedRow<'a>>, NoMemory>
    ensures { IfOk result (λ rows. rows.items ≡ each_in_order parts.now) }
{
    let mut rows = Vec::new(alloc);
    for part in parts {
        let mut own = Vec::new(alloc);
        part.push_rows(&mut own)?;
        sort_packed(&mut own)?;
        rows.append(&mut own)?;
    }
    Ok(rows)
}

/// The rows that tables gathered, all in the order of their keys.
fn sort_all<'a>(alloc: Global, parts: &'a [Gathering]) -> Result<Vec<PackedRow<'a>>, NoMemory>
    ensures { IfOk result (λ rows. rows.items ≡ in_key_order (of_all parts.now)) }
{
    let mut rows = Vec::new(alloc);
    for part in parts {
        part.push_rows(&mut rows)?;
    }
    sort_packed(&mut rows)?;
    Ok(rows)
}

/// Rows to read: lent, or made of those that tables gathered.
#[derive(Drop)]
pub enum Reading<'a> {
    Lent(&'a [Row]),
    Made(Sequence<Row>),
}

impl<'a> Reading<'a> {
    ghost use Rattle.std.specs.Prelude.{◌≡◌};
    ghost use Rattle.stick_model.specs.Reading.{rows_read};

    /// The rows, in the order in which they are shown.
    pub fn as_slice(&self) -> &[Row]
        ensures { result.now ≡ rows_read self.now }
    {
        match self {
            Reading::Lent(rows) => rows,
            Reading::Made(rows) => rows.as_slice(),
        }
    }
}

/// Rows to read where they lie, in the order in which they are shown.
#[derive(Drop)]
pub enum InPlace<'a> {
    Shown(&'a [Row]),
    Packed(Vec<PackedRow<'a>>),
}

impl Rows {
    ghost use Rattle.std.specs.Prelude.{◌≡◌, ◌++◌, IfOk};
    ghost use Rattle.stick_model.specs.Reading.{rows_in_place, rows_read};

    /// The rows that a table gathered.
    pub fn gathered(alloc: Global, gathering: Gathering) -> Result<Rows, NoMemory>
        ensures { IfOk result (λ rows. rows ≡ in_key_order gathering.rows) }
    {
        let mut parts = Vec::with_capacity(alloc, 1)?;
        parts.push(gathering)?;
        Ok(Rows {
            form: Form::Packed(parts),
        })
    }

    /// The rows to read where they lie. Only rows that a table gathered take memory, in which they are put in order: each a place,
    /// and none for what it shows.
    pub fn in_place(&self) -> Result<InPlace<'_>, NoMemory>
        ensures { IfOk result (λ rows. rows_in_place rows ≡ self.now) }
    {
        match &self.form {
            Form::Shown(rows) => Ok(InPlace::Shown(rows.as_slice())),
            Form::Packed(parts) => Ok(InPlace::Packed(sort_each(*parts.allocator(), parts)?)),
            Form::Merged(parts) => Ok(InPlace::Packed(sort_all(*parts.allocator(), parts)?)),
        }
    }

    /// The rows to read. Only rows that a table gathered take memory, which they are made in here.
    pub fn read(&self) -> Result<Reading<'_>, NoMemory>
        ensures { IfOk result (λ reading. rows_read reading ≡ self.now) }
    {
        match self.in_place()? {
            InPlace::Shown(rows) => Ok(Reading::Lent(rows)),
            InPlace::Packed(rows) => Ok(Reading::Made(make_rows(rows)?)),
        }
    }

    /// The rows as a sequence. Only rows that a table gathered take memory, which they are made in here.
    pub fn into_sequence(self) -> Result<Sequence<Row>, NoMemory>
        ensures { IfOk result (λ rows. rows ≡ self) }
    {
        match self.form {
            Form::Shown(rows) => Ok(rows),
            Form::Packed(parts) => make_rows(sort_each(*parts.allocator(), &parts)?),
            Form::Merged(parts) => make_rows(sort_all(*parts.allocator(), &parts)?),
        }
    }

    /// Equal rows.
    pub fn copy(&self, alloc: Global) -> Result<Rows, NoMemory>
        ensures { IfOk result (λ rows. rows ≡ self.now) }
    {
        let copy = match self.in_place()? {
            InPlace::Shown(rows) => copy_rows(alloc, rows)?,
            InPlace::Packed(rows) => make_rows(rows)?,
        };
        Ok(Rows::from(copy))
    }

    /// These rows, and others behind them. Those that tables gathered stay where they lie.
    pub fn followed_by(self, others: Rows) -> Result<Rows, NoMemory>
        ensures { IfOk result (λ all. all ≡ self ++ others) }
    {
        let form = match (self.form, others.form) {
            (Form::Packed(mut parts), Form::Packed(mut more)) => {
                parts.append(&mut more)?;
                Form::Packed(parts)
            }
            (first, second) => {
                let mut rows = Rows { form: first }.into_sequence()?.into_vec();
                let mut more = Rows { form: second }.into_sequence()?.into_vec();
                rows.append(&mut more)?;
                Form::Shown(Sequence::from_vec(rows))
            }
        };
        Ok(Rows { form })
    }

    /// The same rows in the order of their keys. Those that tables gathered take no memory.
    pub fn in_key_order(self) -> Result<Rows, NoMemory>
        ensures { IfOk result (λ rows. rows ≡ in_key_order self) }
    {
        match self.form {
            Form::Shown(rows) => Ok(Rows::from(sort_rows(rows)?)),
            Form::Packed(parts) => Ok(Rows {
                form: Form::Merged(parts),
            }),
            Form::Merged(parts) => Ok(Rows {
                form: Form::Merged(parts),
            }),
        }
    }
}
