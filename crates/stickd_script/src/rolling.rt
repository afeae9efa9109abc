//! The rolls of a script's books, so that records don't grow with the script; `server` calls it behind its lines.

ghost use Rattle.std.specs.Prelude.{◌≡◌, map, OnErr, OnOk};
ghost use Rattle.admit_drive.specs.Tables.{table_states};
ghost use Rattle.stickd_script.specs.Rolling.{RefusesRoll, TablesRoll, lines_between as specified_lines, roll_mark as specified_mark, rolled_named};

use base_sequence::NoMemory;
use shard_book::{Books, Keeper, Named};
use stick_table::Table;

/// The fewest calls that are recorded when a table rolls.
const FEWEST_CALLS: u32 = 65_536;

/// With how many recorded calls a table of a size rolls.
fn roll_mark(size: u32) -> u64
    ensures { result ≡ specified_mark size }
{
    u64::from(size.max(FEWEST_CALLS))
}

/// How many lines are served before the records are looked at again. A look goes over all shards; and a roll that was
/// refused for want of memory would be tried, and refused, at each look.
pub(crate) fn lines_between(refused: bool) -> u32
    ensures { result ≡ specified_lines refused }
{
    if refused { 65_536 } else { 64 }
}

/// Rolls the books of a table, if it is due. Where a book is refused, what isn't rolled stays as it was.
fn roll_table<T: Table>(named: &mut Named<Books<T>>) -> Result<(), NoMemory>
    ensures ok { OnOk result (named.new ≡ rolled_named named.old) }
    ensures name { OnErr result (named.new.name ≡ named.old.name) }
    ensures err { OnErr result (RefusesRoll named.old.keeper named.new.keeper) }
{
    if named.keeper.recorded() < roll_mark(named.keeper.size()) {
        return Ok(());
    }
    match named.keeper.roll() {
        Ok(()) => Ok(()),
        Err(error) => Err(error),
    }
}

/// Rolls the books of each table that is due, in order of declaration, up to the first of which a book is refused.
pub(crate) fn roll_tables<T: Table>(tables: &mut Vec<Named<Books<T>>>) -> Result<(), NoMemory>
    ensures ok { OnOk result (tables.new.items ≡ map rolled_named tables.old.items) }
    ensures rolls { TablesRoll (table_states tables.old.items) (table_states tables.new.items) }
{
    for place in 0..tables.as_slice().len() {
        match roll_table(&mut tables[place]) {
            Ok(()) => {}
            Err(error) => return Err(error),
        }
    }
    Ok(())
}
