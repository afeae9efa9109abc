//! From whom a header of the PROXY protocol is expected; `Limits` has it, and `receiving` asks it of each client that comes.

ghost use Rattle.std.specs.Prelude.{◌≡◌};
ghost use Rattle.std.specs.List.{list_any};
ghost use Rattle.rule_addresses.specs.Matching.{holds};
ghost use Rattle.tcp_relay.specs.Arrivals.{expects, trust_of};

use rule_addresses::{Address, Network};

/// The proxies that are believed to say, by the PROXY protocol, for whom they connect.
#[derive(Clone, Copy, Debug)]
pub struct Proxies<'a> {
    /// Whoever connects from one of these networks begins by a header.
    pub networks: &'a [Network],
    /// Whether all others are reset, and nothing of them is read.
    pub excludes_others: bool,
    /// How many ms a header may take from the accept on, at least one.
    pub timeout: u64,
}

/// What a client does first.
#[derive(Clone, Copy, Debug, PartialEq, Eq)]
pub(crate) enum Expecting {
    /// It is a client like any, whatever it sends.
    Direct,
    /// It begins by a header.
    Header,
    /// It is reset unread, as it is no trusted proxy.
    Refused,
}

/// Whether one of the networks holds an address.
fn hold(networks: &[Network], source: Address) -> bool
    ensures { result ≡ list_any (λ network. holds network source) networks.now }
{
    networks.iter().any(|network| network.holds(&source))
}

/// What a client does first that connects from this address.
pub(crate) fn expected_of(proxies: Option<Proxies<'_>>, source: Address) -> Expecting
    ensures { result ≡ expects (trust_of proxies.entry) source }
{
    let Some(proxies) = proxies else {
        return Expecting::Direct;
    };
    if hold(proxies.networks, source) {
        Expecting::Header
    } else if proxies.excludes_others {
        Expecting::Refused
    } else {
        Expecting::Direct
    }
}
