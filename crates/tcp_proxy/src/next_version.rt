//! Whether the rules of a text can follow those of the start; `rereading` asks it of the file of the start.

ghost use Rattle.std.specs.Prelude.{◌≡◌, ◌≤◌, Ok as Read, IfErr, IfOk};
ghost use Rattle.rule_change.specs.Versions.{IsVersionOf, renewed};
ghost use Rattle.rule_config.specs.Config.{config_of};
ghost use Rattle.tcp_proxy.specs.Reloading.{IsChangeOf, IsFaultOf, purge_of, served_anew};

use base_sequence::NoMemory;
use rule_change::{NotRenewed, renew};
use rule_config::{ConfigFault, read_config};
use rule_model::{Config, ReadError, Setup};
use std::alloc::Global;
use thiserror::Error;

/// Why the rules of a text can't follow those of the start.
#[derive(Debug, Drop, Error)]
pub(crate) enum Unfit {
    /// It has a fault, this one first.
    #[error("{0}")]
    Faulty(ConfigFault),
    /// It changes what takes a restart.
    #[error("{0}")]
    Changed(NotRenewed),
    #[error("out of memory.")]
    Memory,
}

/// How many of its oldest entries a full table removes at once: of each table as many, as the program was told at its start.
fn purge_of(setup: &Setup) -> u32
    ensures purge { result ≡ purge_of setup.now.tables }
    ensures bounds { (1 ≤ result) × (result ≤ 1024) }
{
    match setup.tables.as_slice().first() {
        Some(named) => named.spec.purge.clamp(1, 1_024),
        None => 1,
    }
}

/// What a configuration serves by the options of the start.
fn serve_anew(alloc: Global, first: &Setup, config: &Config) -> Result<Setup, NoMemory>
    requires { (1 ≤ first.now.shards) × (first.now.shards ≤ 64) }
    ensures { IfOk result (λ setup. setup ≡ served_anew first.now config.now) }
{
    let setup = config.proxy(alloc, first.shards)?;
    Ok(
        setup
            .with_purge(purge_of(first))
            .with_prefixes(first.prefixes),
    )
}

/// The configuration that a text says.
pub(crate) fn read_rules(alloc: Global, text: &[u8]) -> Result<Config, Unfit>
    ensures config { IfOk result (λ config. config_of text.now ≡ Read config) }
    ensures fault { IfErr result (IsFaultOf text.now) }
{
    match read_config(alloc, text) {
        Ok(config) => Ok(config),
        Err(
            ConfigFault {
                line: _,
                kind: ReadError::OutOfMemory,
            },
        ) => Err(Unfit::Memory),
        Err(fault) => Err(Unfit::Faulty(fault)),
    }
}

/// The rules of a configuration, over the tables of the first setup. Where they can't follow its rules, why.
pub(crate) fn version_of(alloc: Global, first: &Setup, config: &Config) -> Result<Setup, Unfit>
    requires { (1 ≤ first.now.shards) × (first.now.shards ≤ 64) }
    ensures renewed { IfOk result (λ setup. setup ≡ renewed first.now (served_anew first.now config.now)) }
    ensures version { IfOk result (IsVersionOf first.now) }
    ensures change { IfErr result (IsChangeOf first.now config.now) }
{
    let Ok(read) = serve_anew(alloc, first, config) else {
        return Err(Unfit::Memory);
    };
    match renew(alloc, first, read) {
        Ok(setup) => Ok(setup),
        Err(reason) => Err(Unfit::Changed(reason)),
    }
}
