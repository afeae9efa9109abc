//! An address in the bytes that the system reads; `ServerSocket` connects by it.

ghost use Rattle.std.specs.Prelude.{◌≡◌, ◌≤◌, pos};
ghost use Rattle.tcp_link.specs.Addresses.{family, fields, head_v6, padded, socket_address};
ghost use Rattle.std.specs.declared.net.socket_addr.SocketAddr.TheVariants.{V4, V6};

use libc::net::{_SS_SIZE, AF_INET, AF_INET6};
use std::net::{SocketAddr, SocketAddrV4, SocketAddrV6};

/// The family of an address (socket(2)).
pub(crate) fn family(address: SocketAddr) -> i32
    ensures { result ≡ pos (family address) }
{
    match address {
        SocketAddr::V4(_) => AF_INET,
        SocketAddr::V6(_) => AF_INET6,
    }
}

/// The bytes of an address, and how many of them the system reads (ip(7), ipv6(7)).
pub(crate) fn encode(address: SocketAddr) -> ([u8; _SS_SIZE], u32)
    ensures bytes { result ≡ socket_address address }
    ensures size { result.1 ≤ 128 }
{
    match address {
        SocketAddr::V4(address) => (encode_v4(address), 16),
        SocketAddr::V6(address) => (encode_v6(address), 28),
    }
}

/// The bytes of an IPv4 address: family, port, address.
fn encode_v4(address: SocketAddrV4) -> [u8; _SS_SIZE]
    ensures { result ≡ padded (fields (V4 address)) }
{
    let [high, low] = address.port().to_be_bytes();
    let [a, b, c, d] = address.ip().octets();
    let mut bytes = [0u8; _SS_SIZE];
    bytes[..8].copy_from_slice(&[2, 0, high, low, a, b, c, d]);
    bytes
}

/// The bytes of an IPv6 address: family, port, flow, address, scope.
fn encode_v6(address: SocketAddrV6) -> [u8; _SS_SIZE]
    ensures { result ≡ padded (fields (V6 address)) }
{
    let mut bytes = [0u8; _SS_SIZE];
    bytes[..8].copy_from_slice(&head_v6(address));
    bytes[8..24].copy_from_slice(&address.ip().octets());
    bytes[24..28].copy_from_slice(&address.scope_id().to_ne_bytes());
    bytes
}

/// What stands before an IPv6 address: family, port, flow.
fn head_v6(address: SocketAddrV6) -> [u8; 8]
    ensures { result ≡ head_v6 address }
{
    let [high, low] = address.port().to_be_bytes();
    let [a, b, c, d] = address.flowinfo().to_ne_bytes();
    [10, 0, high, low, a, b, c, d]
}
