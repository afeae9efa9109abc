//! The families of addresses that headers tell.
ghost use Rattle.std.specs.Prelude.{◌≡◌};
ghost use Rattle.proxy_header.specs.Written.{family_of};

use crate::Ends;
use rule_addresses::Address;

/// Of which family both addresses of a header are.
#[derive(Clone, Copy)]
pub(crate) enum Family {
    Ipv4,
    Ipv6,
}

/// The family of both ends, if they are of one.
pub(crate) fn family_of(ends: &Ends) -> Option<Family>
    ensures { result ≡ family_of ends.now }
{
    match (ends.source, ends.destination) {
        (Address::V4(_), Address::V4(_)) => Some(Family::Ipv4),
        (Address::V6(_), Address::V6(_)) => Some(Family::Ipv6),
        _ => None,
    }
}
