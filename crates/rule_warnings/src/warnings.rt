//! The warnings of a start, in their order; `tcp_proxy` calls it for a run, and `stickd_input` for a check.

ghost use Rattle.std.specs.Prelude.{◌≡◌, ◌≤◌, ◌++◌, ◌∷◌, IfOk};
ghost use Rattle.std.specs.List.{filter_map};
ghost use Rattle.rule_warnings.specs.Warnings as spec;

use crate::descriptors::{StartPlan, descriptors_wanted};
use crate::limits::is_always_tracked;
use crate::no_effect::{and_one, and_rules, binds_ipv6};
use crate::room::failing;
use crate::warning::Warning;
use base_sequence::{NoMemory, Sequence};
use rule_addresses::{Address, Endpoint};
use rule_model::{NamedSpec, Setup, Slot};
use std::alloc::Global;
use stick_key::unmapped;

/// The greatest number of places of a shard whose lock isn't held for long: `100k`, as a configuration writes it.
const MOST_PLACES: u32 = 102_400;

/// The greatest number of shards.
const MOST_SHARDS: u32 = 64;

/// The address of the machine itself (RFC 4291, section 2.5.3).
const LOOPBACK: [u8; 16] = [0, 0, 0, 0, 0, 0, 0, 0, 0, 0, 0, 0, 0, 0, 0, 1];

/// The warning of too few descriptors, if there are.
fn descriptor_warning(plan: &StartPlan) -> Option<Warning>
    ensures { result ≡ spec.descriptor_warning plan.now }
{
    let Some(allowed) = plan.descriptors else {
        return None;
    };
    let wanted = descriptors_wanted(plan);
    if allowed < wanted {
        return Some(Warning::FewDescriptors {
            wanted,
            allowed,
            connections: plan.connections,
            threads: plan.threads,
        });
    }
    None
}

/// The warning of timeouts that aren't given, if one isn't.
fn timeout_warning(plan: &StartPlan) -> Option<Warning>
    ensures { result ≡ spec.timeout_warning plan.now }
{
    if plan.has_client_timeout && plan.has_server_timeout {
        return None;
    }
    Some(Warning::NoTimeout {
        client: !plan.has_client_timeout,
        server: !plan.has_server_timeout,
    })
}

/// Whether nobody but programs of the same machine can connect to an address.
fn is_loopback(address: Address) -> bool
    ensures { result ≡ spec.is_loopback address }
{
    match address {
        Address::V4(bytes) => bytes[0] == 127,
        Address::V6(bytes) => match unmapped(bytes) {
            Some(mapped) => mapped[0] == 127,
            None => bytes.as_slice() == LOOPBACK.as_slice(),
        },
    }
}

/// The warning of metrics that others may read, if they may.
fn metrics_warning(place: Option<Endpoint>) -> Option<Warning>
    ensures { result ≡ spec.metrics_warning place }
{
    match place {
        Some(place) if !is_loopback(place.address) => Some(Warning::OpenMetrics { place }),
        _ => None,
    }
}

/// The warning of a limit by a slot that fails open on a table, if it does.
#[tactic(auto, unfolding(crate::specs::Warnings::limit_warning))]
fn limit_warning(
    connections: u32,
    setup: &Setup,
    slot: Slot,
    named: &NamedSpec,
) -> Result<Option<Warning>, NoMemory>
    requires { 1 ≤ setup.now.shards }
    ensures { IfOk result (λ warning. warning ≡ spec.limit_warning connections setup.now slot named.now) }
{
    let rules = setup.rules.as_slice();
    let Some(shortage) = failing(connections, setup.shards, rules, slot, named) else {
        return Ok(None);
    };
    let is_always = is_always_tracked(named.name.as_slice(), slot, rules);
    Ok(Some(Warning::FailsOpen {
        slot,
        table: named.name.copy()?,
        is_always,
        shortage,
    }))
}

/// In how many shards none has too many places, of at most 64, for a table of so many.
fn shards_for(size: u32) -> Option<u32>
    ensures { result ≡ spec.shards_for size }
{
    if size <= MOST_SHARDS * MOST_PLACES {
        Some((size + (MOST_PLACES - 1)) / MOST_PLACES)
    } else {
        None
    }
}

/// The warning of large shards of a table, if they are.
fn shard_warning(shards: u32, named: &NamedSpec) -> Result<Option<Warning>, NoMemory>
    requires { 1 ≤ shards }
    ensures { IfOk result (λ warning. warning ≡ spec.shard_warning shards named.now) }
{
    let size = named.spec.size;
    if u64::from(shards) * u64::from(MOST_PLACES) >= u64::from(size) {
        return Ok(None);
    }
    let places = (u64::from(size) + (u64::from(shards) - 1)) / u64::from(shards);
    Ok(Some(Warning::WideShards {
        table: named.name.copy()?,
        places,
        shards: shards_for(size),
    }))
}

/// Warnings, and behind them those of limits by a slot on some of a setup's tables.
fn and_limits(
    warnings: Sequence<Warning>,
    connections: u32,
    setup: &Setup,
    slot: Slot,
    tables: &[NamedSpec],
) -> Result<Sequence<Warning>, NoMemory>
    requires { 1 ≤ setup.now.shards }
    ensures { IfOk result (λ all. all ≡ warnings ++ filter_map (spec.limit_warning connections setup.now slot) tables.now) }
{
    let mut all = warnings;
    for named in tables {
        let Some(warning) = limit_warning(connections, setup, slot, named)? else {
            continue;
        };
        all.push(warning)?;
    }
    Ok(all)
}

/// Warnings, and behind them those of large shards of some tables.
fn and_shards(
    warnings: Sequence<Warning>,
    shards: u32,
    tables: &[NamedSpec],
) -> Result<Sequence<Warning>, NoMemory>
    requires { 1 ≤ shards }
    ensures { IfOk result (λ all. all ≡ warnings ++ filter_map (spec.shard_warning shards) tables.now) }
{
    let mut all = warnings;
    for named in tables {
        let Some(warning) = shard_warning(shards, named)? else {
            continue;
        };
        all.push(warning)?;
    }
    Ok(all)
}

/// Warnings, and behind them those of the rules and the tables, where clients come with IPv6 addresses or with IPv4 ones alone.
fn and_tables(
    warnings: Sequence<Warning>,
    takes_ipv6: bool,
    setup: &Setup,
    connections: u32,
) -> Result<Sequence<Warning>, NoMemory>
    requires { 1 ≤ setup.now.shards }
    ensures { IfOk result (λ all. all ≡ warnings ++ spec.table_warnings_where takes_ipv6 connections setup.now) }
{
    let tables = setup.tables.as_slice();
    let warnings = and_rules(warnings, takes_ipv6, setup)?;
    let warnings = and_limits(warnings, connections, setup, Slot::Sc0, tables)?;
    let warnings = and_limits(warnings, connections, setup, Slot::Sc1, tables)?;
    let warnings = and_limits(warnings, connections, setup, Slot::Sc2, tables)?;
    and_shards(warnings, setup.shards, tables)
}

/// What is to be said of the rules and the tables of a setup, for so many connections at once at most: what rules say that comes
/// to nothing, in their order; limits that let in what their table has no room for, by `sc0`, `sc1` and `sc2`; then large shards;
/// each in order of declaration. Clients come to the setup's own bind.
pub fn table_warnings(
    alloc: Global,
    setup: &Setup,
    connections: u32,
) -> Result<Sequence<Warning>, NoMemory>
    requires { 1 ≤ setup.now.shards }
    ensures { IfOk result (λ warnings. warnings ≡ spec.table_warnings connections setup.now) }
{
    let takes_ipv6 = binds_ipv6(setup.bind);
    and_tables(Sequence::new(alloc), takes_ipv6, setup, connections)
}

/// What is to be said as the proxy of a setup starts: of descriptors, of timeouts, of metrics, and of its rules and tables, by where it
/// really listens.
pub fn warnings_of(
    alloc: Global,
    setup: &Setup,
    plan: StartPlan,
) -> Result<Sequence<Warning>, NoMemory>
    requires { 1 ≤ setup.now.shards }
    ensures { IfOk result (λ warnings. warnings ≡ spec.warnings_of setup.now plan) }
{
    let warnings = and_one(Sequence::new(alloc), descriptor_warning(&plan))?;
    let warnings = and_one(warnings, timeout_warning(&plan))?;
    let warnings = and_one(warnings, metrics_warning(plan.metrics))?;
    and_tables(warnings, plan.takes_ipv6, setup, plan.connections)
}
