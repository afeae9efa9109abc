//! The tables of a setup, as they are opened; `stickd_script` and `admit_world` call it.

ghost use Rattle.std.specs.Prelude.{◌≡◌, IfOk};
ghost use Rattle.admit_drive.specs.Tables.{CanOpen, empty_tables, table_states};

use base_sequence::NoMemory;
use rule_model::Setup;
use shard_book::{Books, Named};
use std::alloc::Global;
use stick_table::Table;

/// The tables of a setup, in order of declaration, each in the setup's number of empty shards.
pub fn open_tables<T: Table>(alloc: Global, setup: &Setup) -> Result<Vec<Named<Books<T>>>, NoMemory>
    requires { CanOpen setup.now }
    ensures opened { IfOk result (λ tables. table_states tables.items ≡ empty_tables setup.now) }
{
    let mut tables = Vec::new(alloc);
    for named in setup.tables.as_slice() {
        let keeper = Books::new(alloc, named.spec.copy()?, setup.shards)?;
        let name = named.name.copy()?;
        tables.push(Named { name, keeper })?;
    }
    Ok(tables)
}
