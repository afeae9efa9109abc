//! What a server is told of its client before anything else; `turning` has it made for each admitted client.

ghost use Rattle.std.specs.Prelude.{◌≡◌, ◌≤◌, IfSome, vec_len};
ghost use Rattle.tcp_relay.specs.Greetings.{Greets, ends_of};

use crate::addresses::read_ip;
use proxy_header::{Ends, Version, write};
use std::alloc::Global;
use std::net::{SocketAddr, TcpStream};

/// The ends of a connection that comes from a peer to a place here.
fn ends_of(peer: SocketAddr, here: SocketAddr) -> Ends
    ensures { result ≡ ends_of peer here }
{
    Ends {
        source: read_ip(peer.ip()),
        destination: read_ip(here.ip()),
        source_port: peer.port(),
        destination_port: here.port(),
    }
}

/// What the server of a client from this peer is told first: the header of this version (The PROXY protocol, section 2), or nothing without
/// one. The ends that the client's own header tells are told on. None where the system doesn't say where the client came to, as it is
/// gone, or where there is no memory.
pub(crate) fn greeting_of(
    alloc: Global,
    told_by: Option<Version>,
    client: &TcpStream,
    peer: SocketAddr,
    told: Option<Ends>,
) -> Option<Vec<u8>>
    ensures header { IfSome result (λ greeting. Greets told_by told peer greeting.items) }
    ensures room { IfSome result (λ greeting. vec_len greeting ≤ 107) }
{
    let mut greeting = Vec::new(alloc);
    let Some(version) = told_by else {
        return Some(greeting);
    };
    let ends = match told {
        Some(ends) => ends,
        None => ends_of(peer, client.local_addr().ok()?),
    };
    let header = write(version, &ends);
    greeting.extend_from_slice(header.left()).ok()?;
    Some(greeting)
}
