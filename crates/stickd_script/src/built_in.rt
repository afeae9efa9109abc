//! What is served without a configuration; `stickd_input` calls it.

ghost use Rattle.std.specs.Prelude.{◌≡◌, ◌≤◌, IfOk};
ghost use Rattle.admit_drive.specs.Tables.{CanOpen};
ghost use Rattle.stickd_script.specs.BuiltIn.{built_in as specified};

use base_sequence::{NoMemory, Sequence};
use rule_model::{Action, KeyExpression, LIFE, MAX_REFS, PURGE, Rule, Setup, Slot};
use std::alloc::Global;
use stick_key::KeyType;
use stick_table::Spec;
use stored_data::{Column, Datum, StoredSet};

/// The setup of a proxy without a configuration file: one table `t` for 100 IPv4 addresses, which stores gpc0, and
/// tracks where connections come from. The table is kept in so many shards.
pub fn built_in(alloc: Global, shards: u32) -> Result<Setup, NoMemory>
    requires some { 1 ≤ shards }
    requires few { shards ≤ 64 }
    ensures setup { IfOk result (λ setup. setup ≡ specified shards) }
    ensures opens { IfOk result CanOpen }
{
    let mut columns = StoredSet::new(alloc);
    columns.add(Column {
        datum: Datum::Gpc0,
        period: 0,
        count: 0,
    })?;
    let spec = Spec {
        kind: KeyType::Ip,
        size: 100,
        expire: None,
        nopurge: false,
        purge: PURGE,
        columns,
        max_refs: MAX_REFS,
        life: LIFE,
        seed: 0,
    };
    let mut setup = Setup::of_table(alloc, b"t", spec)?;
    let table = Sequence::from_slice(alloc, b"t")?;
    setup.rules.push(Rule {
        action: Action::Track {
            slot: Slot::Sc0,
            key: KeyExpression::Source,
            table,
        },
        unless: false,
        condition: None,
    })?;
    setup.shards = shards;
    Ok(setup)
}
