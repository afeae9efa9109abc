//! Which keys of a table are addresses that a set of the kernel holds; `address_sets` calls it.

ghost use Rattle.std.specs.Prelude.{◌≡◌};
ghost use Rattle.std.specs.List.{list_any};
ghost use Rattle.stick_key.specs.AddressOf.{dotted_of, ipv6_of};
ghost use Rattle.stickd_ctl.specs.AddressSets as spec;
ghost use Rattle.stickd_ctl.specs.AddressSets.{is_host};

use crate::lines::{after, is_row, key_of};
use stick_key::{read_ipv4, read_ipv6};

/// What stands before an IPv4 address where keys are IPv6 addresses (RFC 4291, 2.5.5.2).
const MAPPED: &[u8] = b"::ffff:";

/// Which addresses a set holds.
#[derive(Clone, Copy, Debug, PartialEq, Eq)]
pub enum Family {
    V4,
    V6,
}

/// A key without what stands before an IPv4 address among IPv6 ones.
fn unmapped(key: &[u8]) -> &[u8]
    ensures { result.now ≡ spec.unmapped key.now }
{
    match after(key, MAPPED) {
        Some(rest) => rest,
        None => key,
    }
}

/// Whether a byte isn't 0.
fn is_some_byte(byte: u8) -> bool
    ensures { result ≡ spec.is_some_byte byte }
{
    byte != 0
}

/// Whether not all bytes of an address are 0.
fn is_some_address(address: &[u8]) -> bool
    ensures { result ≡ list_any spec.is_some_byte address.now }
{
    address.iter().any(|byte| is_some_byte(*byte))
}

/// Whether a text is an IPv4 address that a host can have.
fn is_ipv4_host(text: &[u8]) -> bool
    ensures { result ≡ is_host (dotted_of text.now) }
{
    match read_ipv4(text) {
        Some(address) => is_some_address(&address),
        None => false,
    }
}

/// Whether a text is an IPv6 address that a host can have.
fn is_ipv6_host(text: &[u8]) -> bool
    ensures { result ≡ is_host (ipv6_of text.now) }
{
    match read_ipv6(text) {
        Some(address) => is_some_address(&address),
        None => false,
    }
}

/// Whether a key is an address of this family. 0.0.0.0 and :: are none, which no host has and no ipset holds.
fn is_address(family: Family, key: &[u8]) -> bool
    ensures { result ≡ spec.is_address family key.now }
{
    let is_ipv4 = is_ipv4_host(unmapped(key));
    match family {
        Family::V4 => is_ipv4,
        Family::V6 => !is_ipv4 && is_ipv6_host(key),
    }
}

/// The address that a key of this family is.
pub(crate) fn address_of(family: Family, key: &[u8]) -> &[u8]
    ensures { result.now ≡ spec.address_text family key.now }
{
    match family {
        Family::V4 => unmapped(key),
        Family::V6 => key,
    }
}

/// Whether a line is one of an entry whose key is an address of this family.
pub fn is_member(family: Family, line: &[u8]) -> bool
    ensures { result ≡ spec.is_member family line.now }
{
    is_row(line) && is_address(family, key_of(line))
}

/// Whether a line is one of an entry whose key is an address of neither family.
pub(crate) fn is_left_out(line: &[u8]) -> bool
    ensures { result ≡ spec.is_left_out line.now }
{
    is_row(line) && !is_member(Family::V4, line) && !is_member(Family::V6, line)
}
