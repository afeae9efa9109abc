//! Headers of version 2, which are binary; `hear` calls it for bytes that begin with the signature.
ghost use Rattle.std.specs.Prelude.{◌≡◌, ◌+◌, ◌≤◌, length};
ghost use Rattle.proxy_header.specs.Binary as spec;

use crate::{Ends, Heard};
use rule_addresses::Address;

/// How a header of version 2 begins.
pub(crate) const SIGNATURE: [u8; 12] = [
    0x0d, 0x0a, 0x0d, 0x0a, 0x00, 0x0d, 0x0a, 0x51, 0x55, 0x49, 0x54, 0x0a,
];

/// How many bytes the fixed part of a header has.
const FIXED: usize = 16;

/// How many bytes a header may have.
const LONGEST: usize = 4096;

/// Whether a byte says version 2, and one of the commands LOCAL and PROXY.
fn is_command(byte: u8) -> bool
    ensures { result ≡ spec.is_command byte }
{
    byte == 0x20 || byte == 0x21
}

/// Whether a byte names a family of addresses and a transport protocol that there are.
fn is_kind(byte: u8) -> bool
    ensures { result ≡ spec.is_kind byte }
{
    byte / 16 < 4 && byte % 16 < 3
}

/// The number in two bytes at a place, the higher one first.
fn number_at(bytes: &[u8], place: usize) -> u16
    requires { place + 2 ≤ length bytes.now }
    ensures { result ≡ spec.number_at bytes.now place }
{
    u16::from_be_bytes([bytes[place], bytes[place + 1]])
}

/// The IPv4 address at a place.
fn ipv4_at(bytes: &[u8], place: usize) -> Address
    requires { place + 4 ≤ length bytes.now }
    ensures { result ≡ spec.ipv4_at bytes.now place }
{
    let mut address = [0; 4];
    address.copy_from_slice(&bytes[place..place + 4]);
    Address::V4(address)
}

/// The IPv6 address at a place.
fn ipv6_at(bytes: &[u8], place: usize) -> Address
    requires { place + 16 ≤ length bytes.now }
    ensures { result ≡ spec.ipv6_at bytes.now place }
{
    let mut address = [0; 16];
    address.copy_from_slice(&bytes[place..place + 16]);
    Address::V6(address)
}

/// Two IPv4 addresses and their ports.
fn ipv4_ends(bytes: &[u8]) -> Ends
    requires { 28 ≤ length bytes.now }
    ensures { result ≡ spec.ipv4_ends bytes.now }
{
    Ends {
        source: ipv4_at(bytes, 16),
        destination: ipv4_at(bytes, 20),
        source_port: number_at(bytes, 24),
        destination_port: number_at(bytes, 26),
    }
}

/// Two IPv6 addresses and their ports.
fn ipv6_ends(bytes: &[u8]) -> Ends
    requires { 52 ≤ length bytes.now }
    ensures { result ≡ spec.ipv6_ends bytes.now }
{
    Ends {
        source: ipv6_at(bytes, 16),
        destination: ipv6_at(bytes, 32),
        source_port: number_at(bytes, 48),
        destination_port: number_at(bytes, 50),
    }
}

/// What a whole header says that has so many bytes.
fn hear_whole(bytes: &[u8], whole: usize) -> Heard
    requires fixed { 16 ≤ whole }
    requires there { whole ≤ length bytes.now }
    ensures { result ≡ spec.heard_whole bytes.now whole }
{
    if bytes[12] == 0x21 && bytes[13] == 0x11 {
        if whole < 28 {
            return Heard::Wrong;
        }
        return Heard::Told {
            length: whole,
            ends: Some(ipv4_ends(bytes)),
        };
    }
    if bytes[12] == 0x21 && bytes[13] == 0x21 {
        if whole < 52 {
            return Heard::Wrong;
        }
        return Heard::Told {
            length: whole,
            ends: Some(ipv6_ends(bytes)),
        };
    }
    Heard::Told {
        length: whole,
        ends: None,
    }
}

/// What bytes say that begin with the signature.
#[tactic(auto, unfolding(crate::specs::Binary::heard_binary))]
pub(crate) fn hear_binary(bytes: &[u8]) -> Heard
    ensures { result ≡ spec.heard_binary bytes.now }
{
    if bytes.len() > 12 && !is_command(bytes[12]) {
        return Heard::Wrong;
    }
    if bytes.len() > 13 && !is_kind(bytes[13]) {
        return Heard::Wrong;
    }
    if bytes.len() < FIXED {
        return Heard::Unfinished;
    }
    let whole = FIXED + usize::from(number_at(bytes, 14));
    if whole > LONGEST {
        return Heard::Wrong;
    }
    if bytes.len() < whole {
        return Heard::Unfinished;
    }
    hear_whole(bytes, whole)
}
