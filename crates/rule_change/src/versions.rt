//! The versions of a setup: `tcp_proxy` makes the next one by `renew`, and `tcp_relay` asks `is_version_of` before it judges by one.
ghost use Rattle.std.specs.Prelude.{◌≡◌, ◌↔◌, IfErr, IfOk, IsTrue, MatchResult, OnOk};
ghost use Rattle.rule_change.specs.Changes.{IsFirstChange, IsRenewable, IsWhy, ServesAlike};
ghost use Rattle.rule_change.specs.Versions.{IsVersionOf, renewed};

use crate::equality::{same_endpoint, same_prefixes, same_tables};
use crate::tables::{copy_tables, keep_tables, know_tables};
use crate::{Change, NotRenewed};
use rule_model::Setup;
use std::alloc::Global;

/// Whether a setup may judge where the first was opened: it has the first's tables in their order, made with all that they were made
/// with, the first's shards, prefixes and `bind`, and it has a server.
pub fn is_version_of(first: &Setup, setup: &Setup) -> bool
    ensures { IsTrue result ↔ IsVersionOf first.now setup.now }
{
    same_tables(setup.tables.as_slice(), first.tables.as_slice())
        && setup.shards == first.shards
        && same_prefixes(setup.prefixes, first.prefixes)
        && same_endpoint(setup.bind, first.bind)
        && setup.server.is_some()
}

/// That clients come where they came, that there is a server, and that shards and prefixes are what they were.
fn serve_alike(first: &Setup, read: &Setup) -> Result<(), Change>
    ensures { MatchResult result (λ _. ServesAlike first.now read.now) (IsFirstChange first.now read.now) }
{
    if read.bind.is_none() {
        return Err(Change::NoBind);
    }
    if read.server.is_none() {
        return Err(Change::NoServer);
    }
    if !same_endpoint(read.bind, first.bind) {
        return Err(Change::Bind);
    }
    if read.shards != first.shards {
        return Err(Change::Shards);
    }
    if !same_prefixes(read.prefixes, first.prefixes) {
        return Err(Change::Prefixes);
    }
    Ok(())
}

/// That nothing changes which stays until a restart.
fn change_nothing(first: &Setup, read: &Setup) -> Result<(), NotRenewed>
    ensures ok { OnOk result (IsRenewable first.now read.now) }
    ensures err { IfErr result (IsWhy (IsFirstChange first.now read.now)) }
{
    if let Err(change) = serve_alike(first, read) {
        return Err(NotRenewed::Change(change));
    }
    let tables = first.tables.as_slice();
    if let Err(reason) = keep_tables(tables, read.tables.as_slice()) {
        return Err(reason);
    }
    if let Err(reason) = know_tables(read.tables.as_slice(), tables) {
        return Err(reason);
    }
    Ok(())
}

/// The next version of a setup: the first, with the rules and the server of what was read again. Rules name tables by their names, so
/// the order of sections may change. What stays until a restart is compared, and the first change of it is the error.
pub fn renew(alloc: Global, first: &Setup, read: Setup) -> Result<Setup, NotRenewed>
    ensures ok { IfOk result (λ setup. setup ≡ renewed first.now read) }
    ensures version { IfOk result (IsVersionOf first.now) }
    ensures same { OnOk result (IsRenewable first.now read) }
    ensures err { IfErr result (IsWhy (IsFirstChange first.now read)) }
{
    if let Err(reason) = change_nothing(first, &read) {
        return Err(reason);
    }
    let Ok(tables) = copy_tables(alloc, first.tables.as_slice()) else {
        return Err(NotRenewed::Memory);
    };
    let Setup {
        tables: _,
        rules,
        bind: _,
        server,
        shards: _,
        prefixes: _,
    } = read;
    Ok(Setup {
        tables,
        rules,
        bind: first.bind,
        server,
        shards: first.shards,
        prefixes: first.prefixes,
    })
}
