//! The addresses of the standard library and of rules, converted; `tcp_proxy` binds by it, and `arrival` samples the client.

ghost use Rattle.std.specs.Prelude.{◌≡◌};
ghost use Rattle.std.specs.Net.Socket.{socket_ip, socket_port, IsPlainSocket};
ghost use Rattle.tcp_relay.specs.Addresses.{IsAddress, address_of};
ghost use Rattle.tcp_relay.specs.Arrivals.{samples_by};

use proxy_header::Ends;
use rule_addresses::{Address, Endpoint};
use rule_eval::Samples;
use std::net::{IpAddr, Ipv4Addr, Ipv6Addr, SocketAddr};

/// An address as rules know it.
pub(crate) fn read_ip(ip: IpAddr) -> Address
    ensures { result ≡ address_of ip }
{
    match ip {
        IpAddr::V4(ip) => Address::V4(ip.octets()),
        IpAddr::V6(ip) => Address::V6(ip.octets()),
    }
}

/// An address as the standard library knows it.
fn make_ip(address: Address) -> IpAddr
    ensures { IsAddress result address }
{
    match address {
        Address::V4(bytes) => IpAddr::V4(Ipv4Addr::from_octets(bytes)),
        Address::V6(bytes) => IpAddr::V6(Ipv6Addr::from_octets(bytes)),
    }
}

/// Where an endpoint is, to connect to it.
pub fn socket_address(endpoint: Endpoint) -> SocketAddr
    ensures ip { IsAddress (socket_ip result) endpoint.address }
    ensures port { IsPlainSocket result endpoint.port }
{
    SocketAddr::new(make_ip(endpoint.address), endpoint.port)
}

/// What rules are told of a connection that comes from there, to this port, and of which a header tells these ends, if any.
pub(crate) fn samples(told: Option<Ends>, peer: SocketAddr, port: u16) -> Samples
    ensures { result ≡ samples_by told peer port }
{
    if let Some(ends) = told {
        return Samples {
            src: ends.source,
            src_port: ends.source_port,
            dst_port: ends.destination_port,
        };
    }
    Samples {
        src: read_ip(peer.ip()),
        src_port: peer.port(),
        dst_port: port,
    }
}
