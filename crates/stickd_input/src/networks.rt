//! The networks of those who are believed to say for whom they connect, as a list with commas names them; `stickd` reads
//! `--accept-proxy` by it.

ghost use Rattle.std.specs.Prelude.{◌≡◌, ◌≤◌, Some, IfOk, IfErr, length, map};
ghost use Rattle.rule_addresses.specs.Addresses.{network_of};
ghost use Rattle.stickd_input.specs.Networks as spec;

use base_lines::Parts;
use rule_addresses::{Network, read_network};
use std::alloc::Global;

/// How many networks a list may name.
const MOST_NETWORKS: usize = 64;

/// Why a list names no networks.
#[derive(Clone, Copy, Debug, PartialEq, Eq)]
pub enum NetworksFault<'a> {
    /// This part of it is neither an address nor a network.
    Wrong(&'a [u8]),
    /// It has more than 64 parts.
    Many,
    NoMemory,
}

/// The networks that a list names, 1 to 64, with a comma between any two. An address is the network of itself.
pub fn read_networks<'a>(alloc: Global, list: &'a [u8]) -> Result<Vec<Network>, NetworksFault<'a>>
    ensures each { IfOk result (λ networks. map (λ network. Some network) networks.items ≡ map network_of (spec.listed list.now)) }
    ensures few { IfOk result (λ networks. length networks.items ≤ 64) }
    ensures fault { IfErr result (λ fault. spec.IsFault list.now fault) }
{
    let mut parts = Parts::new(list, b',');
    let mut networks = Vec::new(alloc);
    while let Some(part) = parts.next() {
        if networks.len() >= MOST_NETWORKS {
            return Err(NetworksFault::Many);
        }
        let Some(network) = read_network(part) else {
            return Err(NetworksFault::Wrong(part));
        };
        if networks.push(network).is_err() {
            return Err(NetworksFault::NoMemory);
        }
    }
    Ok(networks)
}
