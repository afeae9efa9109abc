//! A proxy that limits the connections of each address.

ghost use Rattle.std.specs.Prelude.{◌≡◌, ◌≤◌, length, IfOk};
ghost use Rattle.stick_model.specs.Limits.{IsTableSpec};
ghost use Rattle.admit_drive.specs.Tables.{CanOpen};

use base_sequence::{NoMemory, Sequence};
use rule_addresses::Prefixes;
use rule_model::{
    Action, Criterion, Fetch, KeyExpression, Measure, NamedSpec, Operator, Pattern, Rule, Setup,
    Slot, Term,
};
use std::alloc::Global;
use stick_key::KeyType;
use stick_model::Spec;
use stored_data::{Column, Datum, StoredSet};

/// `tcp-request connection track-sc0 src table t`.
fn tracking(alloc: Global) -> Result<Rule, NoMemory> {
    let table = Sequence::from_slice(alloc, b"t")?;
    Ok(Rule {
        action: Action::Track {
            slot: Slot::Sc0,
            key: KeyExpression::Source,
            table,
        },
        unless: false,
        condition: None,
    })
}

/// `tcp-request connection reject if { sc0_conn_cur gt LIMIT }`.
fn refusing(alloc: Global, limit: u64) -> Result<Rule, NoMemory> {
    let pattern = Pattern::Compare(Operator::Gt, limit);
    let patterns = Sequence::from_slice(alloc, &[pattern])?;
    let measure = Measure::Tracked(Slot::Sc0, Fetch::Datum(Datum::ConnCur));
    let mut criteria = Sequence::new(alloc);
    criteria.push(Criterion::Matches(measure, patterns))?;
    let mut terms = Sequence::new(alloc);
    terms.push(Term {
        negated: false,
        criteria,
    })?;
    let mut condition = Sequence::new(alloc);
    condition.push(terms)?;
    Ok(Rule {
        action: Action::Reject,
        unless: false,
        condition: Some(condition),
    })
}

/// `stick-table type ip size 10 store conn_cur`, under the name `t`.
fn table(alloc: Global) -> Result<NamedSpec, NoMemory>
    ensures spec { IfOk result (λ named. IsTableSpec named.spec) }
    ensures size { IfOk result (λ named. named.spec.size ≡ 10) }
{
    let mut columns = StoredSet::new(alloc);
    columns.add(Column {
        datum: Datum::ConnCur,
        period: 0,
        count: 0,
    })?;
    let spec = Spec {
        kind: KeyType::Ip,
        size: 10,
        expire: None,
        nopurge: false,
        purge: 1,
        columns,
        max_refs: 10,
        life: 1_000_000,
        seed: 0,
    };
    let name = Sequence::from_slice(alloc, b"t")?;
    Ok(NamedSpec { name, spec })
}

/// A proxy with that table in so many shards, which refuses an address beyond a limit of current connections.
pub fn limiting(alloc: Global, shards: u32, limit: u64) -> Result<Setup, NoMemory>
    requires some { 1 ≤ shards }
    requires few { shards ≤ 4 }
    ensures opens { IfOk result (λ setup. CanOpen setup) }
    ensures shards { IfOk result (λ setup. setup.shards ≡ shards) }
    ensures tables { IfOk result (λ setup. length setup.tables ≡ 1) }
{
    let mut tables = Sequence::new(alloc);
    tables.push(table(alloc)?)?;
    let mut rules = Sequence::new(alloc);
    rules.push(tracking(alloc)?)?;
    rules.push(refusing(alloc, limit)?)?;
    Ok(Setup {
        tables,
        rules,
        bind: None,
        server: None,
        shards,
        prefixes: Prefixes::whole(),
    })
}
