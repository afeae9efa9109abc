//! Where clients come in, and whoever is believed to say for whom it connects, as `stickd run` is asked; `run_plan` and `main` call it.

ghost use Rattle.std.specs.Prelude.{◌≡◌, ◌≤◌, Some, IfOk, length, map};
ghost use Rattle.rule_addresses.specs.Addresses.{bind_of};

use crate::bad_word::{BadWord, read_timeout};
use clap::ArgMatches;
use rule_addresses::{Endpoint, Network, read_bind};
use std::alloc::Global;
use std::str;
use stickd_input::{ACCEPT_PROXY, BIND, HEADER, NetworksFault, PROXIES_ONLY, read_networks};
use tcp_relay::Proxies;

/// How often `--bind` may be given.
const MOST_BINDS: usize = 16;

/// How long a proxy's header may take where that isn't said, in ms.
const HEADER_TIME: u64 = 5_000;

/// Where clients come in besides the `bind` of the configuration.
pub(crate) fn read_binds<'a>(
    alloc: Global,
    arguments: &ArgMatches<'a>,
) -> Result<Vec<Endpoint>, BadWord<'a>> {
    match arguments.get_strs(BIND) {
        Some(words) => read_each(alloc, words),
        None => Ok(Vec::new(alloc)),
    }
}

/// The endpoints that these words say, each of which it has to.
fn read_each<'a>(alloc: Global, words: &[&'a str]) -> Result<Vec<Endpoint>, BadWord<'a>>
    ensures each { IfOk result (λ binds. map (λ bind. Some bind) binds.items ≡ map (λ word. bind_of word.now) words.now) }
    ensures few { IfOk result (λ binds. length binds.items ≤ 16) }
{
    if words.len() > MOST_BINDS {
        return Err(BadWord::ManyBinds);
    }
    let mut binds = Vec::new(alloc);
    for word in words {
        let Some(bind) = read_bind(word.as_bytes()) else {
            return Err(BadWord::Bind { option: BIND, word });
        };
        if binds.push(bind).is_err() {
            return Err(BadWord::Memory);
        }
    }
    Ok(binds)
}

/// Whoever is believed to say for whom it connects: nobody, unless that is said.
pub(crate) fn read_believed<'a>(
    alloc: Global,
    arguments: &ArgMatches<'a>,
) -> Result<Vec<Network>, BadWord<'a>> {
    let Some(word) = arguments.get_str(ACCEPT_PROXY) else {
        return Ok(Vec::new(alloc));
    };
    match read_networks(alloc, word.as_bytes()) {
        Ok(networks) => Ok(networks),
        // What stands between the commas of a text is one too.
        Err(NetworksFault::Wrong(part)) => {
            Err(BadWord::Network(str::from_utf8(part).unwrap_or(word)))
        }
        Err(NetworksFault::Many) => Err(BadWord::ManyNetworks),
        Err(NetworksFault::NoMemory) => Err(BadWord::Memory),
    }
}

/// Which proxies are believed, where one is: by these networks. What is said of proxies wants some.
pub(crate) fn read_proxies<'a, 'n>(
    arguments: &ArgMatches<'a>,
    networks: &'n [Network],
) -> Result<Option<Proxies<'n>>, BadWord<'a>> {
    let timeout = read_timeout(arguments, HEADER)?;
    let excludes_others = arguments.get_flag(PROXIES_ONLY);
    if !networks.is_empty() {
        return Ok(Some(Proxies {
            networks,
            excludes_others,
            timeout: timeout.unwrap_or(HEADER_TIME),
        }));
    }
    if excludes_others {
        return Err(BadWord::NoProxies(PROXIES_ONLY));
    }
    if timeout.is_some() {
        return Err(BadWord::NoProxies(HEADER));
    }
    Ok(None)
}
