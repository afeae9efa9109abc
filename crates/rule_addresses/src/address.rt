//! Addresses, and what is made of them; scripts and `tcp_relay` make them of clients, and `endpoint` and `network` read them.
ghost use Rattle.std.specs.Prelude.{◌≡◌};
ghost use Rattle.rule_addresses.specs.Addresses.{address_of};

use stick_key::{read_ipv4, read_ipv6};

/// An IP address: its bytes, the highest one first.
#[derive(Clone, Copy, Debug)]
pub enum Address {
    V4([u8; 4]),
    V6([u8; 16]),
}

/// The addresses whose first bits are those of this one.
#[derive(Clone, Copy, Debug)]
pub struct Network {
    pub address: Address,
    /// How many bits are compared: at most 32 of an IPv4 address, and 128 of an IPv6 one.
    pub length: u8,
}

/// An address and a port, where something listens.
#[derive(Clone, Copy, Debug)]
pub struct Endpoint {
    pub address: Address,
    pub port: u16,
}

/// The address that an IPv4 or an IPv6 text spells, if any.
#[tactic(auto, unfolding(crate::specs::Addresses::address_of))]
pub fn read_address(text: &[u8]) -> Option<Address>
    ensures { result ≡ address_of text.now }
{
    match read_ipv4(text) {
        Some(bytes) => Some(Address::V4(bytes)),
        None => Some(Address::V6(read_ipv6(text)?)),
    }
}
