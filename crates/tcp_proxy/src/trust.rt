//! Who is believed to say for whom it connects, and who can connect; `start_warnings` warns by it.

ghost use Rattle.std.specs.Prelude.{◌≡◌, ◌&&◌};
ghost use Rattle.std.specs.List.{list_any};
ghost use Rattle.tcp_proxy.specs.Trust as spec;

use rule_addresses::{Address, Endpoint, Network};
use tcp_relay::Proxies;

/// The IPv4 addresses of the machine itself (RFC 1122, section 3.2.1.3).
const LOCAL_V4: Network = Network {
    address: Address::V4([127, 0, 0, 0]),
    length: 8,
};

/// Its IPv6 address (RFC 4291, section 2.5.3).
const LOCAL_V6: Network = Network {
    address: Address::V6([0, 0, 0, 0, 0, 0, 0, 0, 0, 0, 0, 0, 0, 0, 0, 1]),
    length: 128,
};

/// Who can connect, by where the program listens.
#[derive(Clone, Copy, Debug, PartialEq, Eq)]
pub(crate) struct Reach {
    /// Whether clients come with IPv6 addresses, those of IPv4 with mapped ones.
    pub takes_ipv6: bool,
    /// Whether others can than programs of the same machine.
    pub is_open: bool,
}

/// Whether others can connect to a place than programs of the same machine.
fn is_open_at(place: Endpoint) -> bool
    ensures { result ≡ spec.is_open_at place }
{
    !LOCAL_V4.holds(&place.address) && !LOCAL_V6.holds(&place.address)
}

/// Whether others can connect to this place, or to one of those.
pub(crate) fn is_open(bind: Endpoint, more: &[Endpoint]) -> bool
    ensures { result ≡ spec.is_open bind more.now }
{
    is_open_at(bind) || has_open(more)
}

/// Whether they can to one of these.
fn has_open(places: &[Endpoint]) -> bool
    ensures { result ≡ list_any spec.is_open_at places.now }
{
    places.iter().any(|place| is_open_at(*place))
}

/// Whether one of the networks holds all addresses of its family.
fn hold_all(networks: &[Network]) -> bool
    ensures { result ≡ list_any spec.holds_all networks.now }
{
    networks.iter().any(|network| network.length == 0)
}

/// Whether everybody is believed to say for whom it connects.
fn believes_all(proxies: Option<Proxies<'_>>) -> bool
    ensures { result ≡ spec.believes_all proxies.entry }
{
    match proxies {
        Some(proxies) => hold_all(proxies.networks),
        None => false,
    }
}

/// Whether others than programs of the same machine can say by which address the rules judge them.
pub(crate) fn is_misplaced(proxies: Option<Proxies<'_>>, reach: Reach) -> bool
    ensures { result ≡ reach.is_open && spec.believes_all proxies.entry }
{
    reach.is_open && believes_all(proxies)
}
