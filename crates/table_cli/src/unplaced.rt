//! What is told of the lines that loading skipped; `tcp_proxy` and `stickd` say it.

ghost use Rattle.std.specs.Prelude.{◌≡◌, ◌<◌, ◌+◌, ◌^◌, map};
ghost use Rattle.table_cli.specs.SeenLines.{seen_fault, seen_load};
ghost use Rattle.table_cli.specs.Unplaced as spec;

use crate::load_fault::{LineFault, LoadFault};
use std::{io, str};

/// How many lines that don't fit are told one by one.
const TOLD: usize = 10;

/// How many entries of a table found their shards full, and the line of the first, 0 where none did.
#[derive(Clone, Copy, Debug, PartialEq, Eq)]
pub struct Unplaced {
    pub entries: u64,
    pub first: u64,
}

/// Whether a fault is that an entry of this table found no place.
fn lacks_room(table: &[u8], fault: &LineFault<'_>) -> bool
    ensures { result ≡ spec.lacks_room table.now (seen_fault fault.now) }
{
    match fault {
        LineFault::NoRoom(name) => *name == table,
        _ => false,
    }
}

impl Unplaced {
    /// One entry more, on this line.
    fn with_entry(self, line: u64) -> Unplaced
        requires { self.entries + 1 < 2 ^ 64 }
        ensures { result ≡ spec.with_entry self line }
    {
        let Unplaced { entries, first } = self;
        if entries == 0 {
            return Unplaced {
                entries: 1,
                first: line,
            };
        }
        Unplaced {
            entries: entries + 1,
            first,
        }
    }

    /// One line more that was skipped.
    fn with_fault(self, table: &[u8], found: &LoadFault<'_>) -> Unplaced
        requires { self.entries + 1 < 2 ^ 64 }
        ensures { result ≡ spec.with_fault table.now self (seen_load found.now) }
    {
        if lacks_room(table, &found.fault) {
            return self.with_entry(found.line);
        }
        self
    }
}

/// How many entries of a table found their shards full, of the lines that were skipped, and the line of the first.
pub fn unplaced_of(skipped: &[LoadFault<'_>], table: &[u8]) -> Unplaced
    ensures { result ≡ spec.unplaced table.now (map seen_load skipped.now) }
{
    let mut unplaced = Unplaced {
        entries: 0,
        first: 0,
    };
    for found in skipped {
        unplaced = unplaced.with_fault(table, found);
    }
    unplaced
}

/// Says on standard error how many entries of a table in a file found their shards full, if any did.
pub fn say_unplaced<R: Eprint>(
    rt: &R,
    path: &str,
    table: &[u8],
    skipped: &[LoadFault<'_>],
) -> io::Result<()> {
    let Unplaced { entries, first } = unplaced_of(skipped, table);
    if entries == 0 {
        return Ok(());
    }
    let name = str::from_utf8(table).unwrap_or("?");
    eprintln!(rt;
        "stickd: warning: {path}: table {name}: entries not loaded, as their shards are full: {entries}, the first on line {first}"
    )
}

/// Says on standard error which lines of a file were skipped that don't fit: the first ten, and how many where there are more.
pub fn say_misfits<R: Eprint>(rt: &R, path: &str, skipped: &[LoadFault<'_>]) -> io::Result<()> {
    let mut count = 0usize;
    for found in skipped {
        if matches!(found.fault, LineFault::NoRoom(_)) {
            continue;
        }
        count = count.saturating_add(1);
        if count <= TOLD {
            eprintln!(rt; "stickd: warning: {path}: {found}; the line is skipped")?;
        }
    }
    if count > TOLD {
        eprintln!(rt; "stickd: warning: {path}: {count} lines are skipped in all")?;
    }
    Ok(())
}
