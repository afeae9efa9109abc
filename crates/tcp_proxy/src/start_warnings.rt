//! What a start warns of, and a start that is only tried; `running` calls them.

ghost use Rattle.std.specs.Prelude.{◌≡◌, is_some};
ghost use Rattle.std.specs.List.{list_any};
ghost use Rattle.admit_drive.specs.Tables.{CanOpen};
ghost use Rattle.tcp_proxy.specs.Places as spec;
ghost use Rattle.tcp_proxy.specs.Trust as trust_spec;

use crate::binding::BindFault;
use crate::plan::Plan;
use crate::running::report;
use crate::shared::ProxyRuntime;
use crate::sockets::check_groups;
use crate::trust::{Reach, is_misplaced, is_open};
use log::{Log, warn};
use rule_addresses::{Address, Endpoint};
use rule_model::Setup;
use rule_warnings::{StartPlan, Warning, allowed_descriptors, warnings_of};
use std::alloc::Global;
use std::io;
use std::rt::Files;
use tcp_relay::FaultKind;

/// What is said where others than programs of the same machine say by which address they are judged.
const MISPLACED_TRUST: &str =
    "--accept-proxy believes everybody, and others than programs of this machine can connect: whoever does says by which address the rules judge it. Name the proxies' own addresses, or put a firewall before it.";

/// Looks at what a start looks at before it binds its sockets, and says what a start would warn of by the file's `bind` and those of the
/// plan. Answers whether it would go on.
pub(crate) fn check_start<R: ProxyRuntime + Files + AllocGlobal + Eprint>(
    alloc: Global,
    rt: &R,
    setup: &Setup,
    bind: Endpoint,
    plan: Plan<'_>,
) -> io::Result<bool>
    requires can_open { CanOpen setup.now }
{
    match check_groups(rt, plan) {
        Ok(()) => warn_of_start(alloc, rt, setup, plan, planned_reach(bind, plan.more_binds)),
        Err(BindFault::Said) => Ok(false),
        Err(BindFault::Unsaid(reason)) => Err(reason),
    }
}

/// Who can connect where the program listens at this and at those.
fn planned_reach(bind: Endpoint, more: &[Endpoint]) -> Reach
    ensures ipv6 { result.takes_ipv6 ≡ spec.takes_ipv6 bind more.now }
    ensures open { result.is_open ≡ trust_spec.is_open bind more.now }
{
    Reach {
        takes_ipv6: takes_ipv6(bind, more),
        is_open: is_open(bind, more),
    }
}

/// Whether clients come with IPv6 addresses to this or to one of those.
fn takes_ipv6(bind: Endpoint, more: &[Endpoint]) -> bool
    ensures { result ≡ spec.takes_ipv6 bind more.now }
{
    if is_ipv6(bind) {
        return true;
    }
    has_ipv6(more)
}

/// Whether one of these is an address of IPv6.
fn has_ipv6(binds: &[Endpoint]) -> bool
    ensures { result ≡ list_any spec.is_ipv6 binds.now }
{
    for bind in binds {
        if is_ipv6(*bind) {
            return true;
        }
    }
    false
}

fn is_ipv6(bind: Endpoint) -> bool
    ensures { result ≡ spec.is_ipv6 bind }
{
    matches!(bind.address, Address::V6(_))
}

/// Says what a start warns of, by who can connect. Answers whether there was memory for that; where there wasn't, it is said.
pub(crate) fn warn_of_start<R: Log>(
    alloc: Global,
    rt: &R,
    setup: &Setup,
    plan: Plan<'_>,
    reach: Reach,
) -> io::Result<bool>
    requires can_open { CanOpen setup.now }
{
    let start = start_plan(plan, allowed_descriptors(), reach.takes_ipv6);
    match warnings_of(alloc, setup, start) {
        Ok(warnings) => {
            say_warnings(rt, warnings.as_slice());
            if is_misplaced(plan.limits.proxies, reach) {
                warn!(rt; "{MISPLACED_TRUST}");
            }
            Ok(true)
        }
        Err(_refused) => {
            report(rt, FaultKind::NoMemory)?;
            Ok(false)
        }
    }
}

/// Says on standard error what may surprise whoever starts it so, a warning a line. Whether that can be said changes nothing.
fn say_warnings<R: Log>(rt: &R, warnings: &[Warning]) {
    for warning in warnings {
        warn!(rt; "{warning}");
    }
}

/// What a run is warned of by, where the process may have so many descriptors, and clients come with IPv6 addresses or with IPv4 ones
/// alone.
fn start_plan(plan: Plan<'_>, descriptors: Option<u64>, takes_ipv6: bool) -> StartPlan
    ensures numbers { (result.connections ≡ plan.entry.limits.connections) × (result.threads ≡ plan.entry.threads) × (result.socket_clients ≡ plan.entry.socket.clients) }
    ensures descriptors { result.descriptors ≡ descriptors }
    ensures client { result.has_client_timeout ≡ is_some plan.entry.limits.timeouts.client }
    ensures server { result.has_server_timeout ≡ is_some plan.entry.limits.timeouts.server }
    ensures metrics { result.metrics ≡ plan.entry.watch.metrics }
    ensures ipv6 { result.takes_ipv6 ≡ takes_ipv6 }
{
    StartPlan {
        connections: plan.limits.connections,
        threads: plan.threads,
        socket_clients: plan.socket.clients,
        descriptors,
        has_client_timeout: plan.limits.timeouts.client.is_some(),
        has_server_timeout: plan.limits.timeouts.server.is_some(),
        metrics: plan.watch.metrics,
        takes_ipv6,
    }
}
