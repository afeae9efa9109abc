//! Networks, of whose addresses the first bits are compared; `rule_words` reads them, and `rule_eval` looks for clients in them.
ghost use Rattle.std.specs.Prelude.{◌≡◌, ◌-◌, ◌/◌, ◌^◌, ◌==◌};
ghost use Rattle.std.specs.Int.{from_be_bytes, w32, w128};
ghost use Rattle.rule_addresses.specs.Addresses.{bits_of, network_at, network_of};
ghost use Rattle.rule_addresses.specs.Matching.{agree, holds};

use crate::{Address, Network, read_address};
use base_lines::{Parts, read_number};
use stick_key::unmapped;

/// How many bits an address has.
fn bits_of(address: Address) -> u8
    ensures { result ≡ bits_of address }
{
    match address {
        Address::V4(_) => 32,
        Address::V6(_) => 128,
    }
}

/// The network of the addresses that agree with this one in so many bits, if it has as many.
fn network_at(address: Address, length: u64) -> Option<Network>
    ensures { result ≡ network_at address length }
{
    if length > u64::from(bits_of(address)) {
        return None;
    }
    Some(Network {
        address,
        length: length as u8,
    })
}

/// The network that a text spells, if any: an address, or an address, a slash and a decimal number of bits up to 32 or
/// 128. Without a number, all bits are compared. Bits behind those that are compared may be set.
#[tactic(auto, unfolding(crate::specs::Addresses::network_of))]
pub fn read_network(text: &[u8]) -> Option<Network>
    ensures { result ≡ network_of text.now }
{
    let mut parts = Parts::new(text, b'/');
    let address = read_address(parts.next()?)?;
    let Some(digits) = parts.next() else {
        return network_at(address, u64::from(bits_of(address)));
    };
    if parts.next().is_some() {
        return None;
    }
    network_at(address, read_number(digits)?)
}

/// A number without so many of its last bits.
#[tactic(auto, using(crate::proofs::BitLemmas::no_bits))]
fn without_last(number: u128, count: u8) -> u128
    ensures { result ≡ number / 2 ^ count }
{
    number.checked_shr(u32::from(count)).unwrap_or(0)
}

/// Whether two numbers of so many bits agree in the first of them.
fn agree(bits: u8, length: u8, pattern: u128, source: u128) -> bool
    ensures { result ≡ agree bits length pattern source }
{
    let rest = bits.saturating_sub(length);
    without_last(pattern, rest) == without_last(source, rest)
}

/// Whether two IPv4 addresses agree in their first bits.
fn agree_v4(length: u8, pattern: [u8; 4], source: [u8; 4]) -> bool
    ensures { result ≡ agree 32 length (from_be_bytes w32 pattern) (from_be_bytes w32 source) }
{
    let pattern = u128::from(u32::from_be_bytes(pattern));
    let source = u128::from(u32::from_be_bytes(source));
    agree(32, length, pattern, source)
}

/// Whether two IPv6 addresses agree in their first bits.
fn agree_v6(length: u8, pattern: [u8; 16], source: [u8; 16]) -> bool
    ensures { result ≡ agree 128 length (from_be_bytes w128 pattern) (from_be_bytes w128 source) }
{
    agree(
        128,
        length,
        u128::from_be_bytes(pattern),
        u128::from_be_bytes(source),
    )
}

impl Network {
    /// Whether the network holds an address: whether that agrees with its own in the bits that are compared. A network of
    /// IPv4 addresses also holds the IPv6 addresses in `::ffff:0:0/96` that stand for its own; one of IPv6 addresses holds no IPv4 address.
    #[tactic(auto, unfolding(crate::specs::Matching::holds))]
    pub fn holds(&self, source: &Address) -> bool
        ensures { result ≡ holds self.now source.now }
    {
        match (self.address, *source) {
            (Address::V4(pattern), Address::V4(source)) => agree_v4(self.length, pattern, source),
            (Address::V4(pattern), Address::V6(source)) => match unmapped(source) {
                Some(source) => agree_v4(self.length, pattern, source),
                None => false,
            },
            (Address::V6(_), Address::V4(_)) => false,
            (Address::V6(pattern), Address::V6(source)) => agree_v6(self.length, pattern, source),
        }
    }
}
