//! How much of a source counts where it is a key; `rule_model` keeps it in a setup, and `rule_eval` masks sources by it.
ghost use Rattle.std.specs.Prelude.{◌≡◌, ◌+◌, ◌-◌, ◌*◌, ◌/◌, ◌^◌, if◌then◌else◌};
ghost use Rattle.stick_key.specs.Ipv6Printed.{is_mapped};
ghost use Rattle.rule_addresses.specs.Prefix.{byte_prefix, first_bits, kept_bits, masked, whole};

use crate::Address;
use stick_key::unmapped;

/// How many of its first bits a source keeps where it is a key; the rest are zeros there.
#[derive(Clone, Copy, Debug)]
pub struct Prefixes {
    /// Of an IPv4 source, and of the IPv4 address for which one in `::ffff:0:0/96` stands: all from 32 on.
    pub ipv4: u8,
    /// Of any other IPv6 source: all from 128 on.
    pub ipv6: u8,
}

/// The first bits of a byte, so many of them, with zeros behind them.
fn byte_prefix(byte: u8, count: usize) -> u8
    ensures { result ≡ byte_prefix count byte }
{
    let rest = 8u32.saturating_sub(count.min(8) as u32);
    ((u32::from(byte) >> rest) << rest) as u8
}

/// Puts zeros behind the first bits of bytes, as many as are to be kept.
fn keep_first(bytes: &mut [u8], count: usize)
    ensures { bytes.new ≡ first_bits count bytes.old }
{
    if count / 8 >= bytes.len() {
        return;
    }
    let mut left = count;
    for byte in bytes.iter_mut() {
        *byte = byte_prefix(*byte, left);
        left = left.saturating_sub(8);
    }
}

impl Prefixes {
    /// Sources are keys as they are.
    pub fn whole() -> Self
        ensures { result ≡ whole }
    {
        Prefixes {
            ipv4: 32,
            ipv6: 128,
        }
    }

    /// How many bits of an IPv6 address are kept.
    fn kept_of_v6(self, bytes: [u8; 16]) -> usize
        ensures { result ≡ (if is_mapped bytes then 96 + self.ipv4 else self.ipv6) }
    {
        match unmapped(bytes) {
            Some(_) => 96 + usize::from(self.ipv4),
            None => usize::from(self.ipv6),
        }
    }

    /// The address with zeros behind the bits that are kept. An IPv6 address in `::ffff:0:0/96` stands for an IPv4 one, and
    /// keeps of it what that keeps: the number for IPv6 doesn't cut it.
    #[tactic(auto, unfolding(crate::specs::Prefix::masked))]
    pub fn masked(self, address: Address) -> Address
        ensures { result ≡ masked self address }
    {
        match address {
            Address::V4(mut bytes) => {
                keep_first(&mut bytes, usize::from(self.ipv4));
                Address::V4(bytes)
            }
            Address::V6(mut bytes) => {
                let kept = self.kept_of_v6(bytes);
                keep_first(&mut bytes, kept);
                Address::V6(bytes)
            }
        }
    }
}
