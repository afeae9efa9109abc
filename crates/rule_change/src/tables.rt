//! What changes of the tables of a setup, by their names; `versions` asks it of what was read again.
ghost use Rattle.std.specs.Prelude.{◌≡◌, All, IfErr, IfOk, MatchOption, OnOk};
ghost use Rattle.std.specs.Option.{option_map};
ghost use Rattle.rule_change.specs.Changes.{ChangesFirst, IsAdded, IsFirstOf, IsKept, IsKnown, IsLost, IsMadeAlike, IsWhy, table_named};

use crate::equality::same_columns;
use crate::{Change, NotRenewed, Part};
use base_sequence::{NoMemory, Sequence};
use rule_model::NamedSpec;
use std::alloc::Global;
use stick_model::Spec;

/// The first part in which a table is made otherwise.
fn other_part(first: &Spec, read: &Spec) -> Option<Part>
    ensures { MatchOption result (IsMadeAlike first.now read.now) (λ part. ChangesFirst part first.now read.now) }
{
    if read.kind != first.kind {
        return Some(Part::Kind);
    }
    if read.size != first.size {
        return Some(Part::Size);
    }
    if read.expire != first.expire {
        return Some(Part::Expire);
    }
    if read.nopurge != first.nopurge {
        return Some(Part::Nopurge);
    }
    if !same_columns(read.columns.columns(), first.columns.columns()) {
        return Some(Part::Columns);
    }
    if read.purge != first.purge {
        return Some(Part::Purge);
    }
    None
}

/// The first table of this name.
fn table_named<'a>(tables: &'a [NamedSpec], name: &[u8]) -> Option<&'a NamedSpec>
    ensures { option_map (λ named. named.now) result ≡ table_named tables.now name.now }
{
    tables.iter().find(|named| named.name.as_slice() == name)
}

/// That a table is there among those that were read, and made alike.
fn keep_table(named: &NamedSpec, read: &[NamedSpec]) -> Result<(), NotRenewed>
    ensures ok { OnOk result (IsKept read.now named.now) }
    ensures err { IfErr result (IsWhy (IsLost read.now named.now)) }
{
    let Ok(name) = named.name.copy() else {
        return Err(NotRenewed::Memory);
    };
    let Some(other) = table_named(read, named.name.as_slice()) else {
        return Err(NotRenewed::Change(Change::TableGone(name)));
    };
    match other_part(&named.spec, &other.spec) {
        None => Ok(()),
        Some(part) => Err(NotRenewed::Change(Change::TableChanges(name, part))),
    }
}

/// That each table is there among those that were read, and made alike.
pub(crate) fn keep_tables(first: &[NamedSpec], read: &[NamedSpec]) -> Result<(), NotRenewed>
    ensures ok { OnOk result (All (IsKept read.now) first.now) }
    ensures err { IfErr result (IsWhy (IsFirstOf (IsKept read.now) (IsLost read.now) first.now)) }
{
    for named in first {
        if let Err(reason) = keep_table(named, read) {
            return Err(reason);
        }
    }
    Ok(())
}

/// That a table has the name of one of the first's.
fn know_table(named: &NamedSpec, first: &[NamedSpec]) -> Result<(), NotRenewed>
    ensures ok { OnOk result (IsKnown first.now named.now) }
    ensures err { IfErr result (IsWhy (IsAdded first.now named.now)) }
{
    if table_named(first, named.name.as_slice()).is_some() {
        return Ok(());
    }
    match named.name.copy() {
        Ok(name) => Err(NotRenewed::Change(Change::TableNew(name))),
        Err(_refused) => Err(NotRenewed::Memory),
    }
}

/// That each table that was read has the name of one of the first's.
pub(crate) fn know_tables(read: &[NamedSpec], first: &[NamedSpec]) -> Result<(), NotRenewed>
    ensures ok { OnOk result (All (IsKnown first.now) read.now) }
    ensures err { IfErr result (IsWhy (IsFirstOf (IsKnown first.now) (IsAdded first.now) read.now)) }
{
    for named in read {
        if let Err(reason) = know_table(named, first) {
            return Err(reason);
        }
    }
    Ok(())
}

/// The same tables once more, where there is memory.
pub(crate) fn copy_tables(
    alloc: Global,
    tables: &[NamedSpec],
) -> Result<Sequence<NamedSpec>, NoMemory>
    ensures { IfOk result (λ copied. copied ≡ tables.now) }
{
    let mut copied = Sequence::new(alloc);
    for named in tables {
        copied.push(NamedSpec {
            name: named.name.copy()?,
            spec: named.spec.copy()?,
        })?;
    }
    Ok(copied)
}
