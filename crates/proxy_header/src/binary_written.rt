//! Headers of version 2 written; `write` calls it.
ghost use Rattle.std.specs.Prelude.{◌≡◌, ◌+◌, ◌≤◌, ◌++◌, length};
ghost use Rattle.proxy_header.specs.Written.{block_of, bytes_of, written_binary};

use crate::Ends;
use crate::binary::SIGNATURE;
use crate::family::{Family, family_of};
use crate::header_bytes::HeaderBytes;
use rule_addresses::Address;

/// Writes an address.
fn push_address(header: &mut HeaderBytes, address: &Address)
    requires { length header.old + 16 ≤ 107 }
    ensures bytes { header.new ≡ header.old ++ bytes_of address.now }
    ensures room { length header.new ≤ length header.old + 16 }
{
    match address {
        Address::V4(bytes) => header.push(bytes),
        Address::V6(bytes) => header.push(bytes),
    }
}

/// Writes both addresses and both ports.
fn push_ends(header: &mut HeaderBytes, ends: &Ends)
    requires { length header.old + 36 ≤ 107 }
    ensures { header.new ≡ header.old ++ block_of ends.now }
{
    push_address(header, &ends.source);
    push_address(header, &ends.destination);
    header.push(&ends.source_port.to_be_bytes());
    header.push(&ends.destination_port.to_be_bytes());
}

/// The header of version 2 that tells these ends, where they are of one family.
pub(crate) fn written_binary(ends: &Ends) -> HeaderBytes
    ensures { result ≡ written_binary ends.now }
{
    let mut header = HeaderBytes::new();
    header.push(&SIGNATURE);
    match family_of(ends) {
        Some(Family::Ipv4) => header.push(&[0x21, 0x11, 0, 12]),
        Some(Family::Ipv6) => header.push(&[0x21, 0x21, 0, 36]),
        None => {
            header.push(&[0x21, 0x00, 0, 0]);
            return header;
        }
    }
    push_ends(&mut header, ends);
    header
}
