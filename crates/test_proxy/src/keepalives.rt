//! What the system is told of silent peers.

ghost use Rattle.libc.specs.Net.{SockOption};

use libc::net as system;
use std::net::{Net, TcpListener, TcpStream};
use std::os::fd::{AsRawFd, RawFd};
use tcp_link::{Keepalive, Liveness, UserTimeout};

/// A number that a socket has for an option of TCP. None where the system doesn't tell.
fn option(socket: RawFd, level: i32, name: i32) -> Option<u32>
    requires { SockOption level name }
{
    let mut value = [0u8; 16];
    let mut size = 4u32;
    if unsafe { system::getsockopt(socket, level, name, &mut value, &mut size) } < 0 {
        return None;
    }
    let [a, b, c, d, ..] = value;
    Some(u32::from_ne_bytes([a, b, c, d]))
}

/// What a socket says of silent peers: whether they are asked, when, how soon again, how often, and how long bytes may stay
/// unacknowledged, where 0 is as long as the system lets them.
fn keepalive(socket: RawFd) -> Option<[u32; 5]> {
    Some([
        option(socket, system::SOL_SOCKET, system::SO_KEEPALIVE)?,
        option(socket, system::IPPROTO_TCP, system::TCP_KEEPIDLE)?,
        option(socket, system::IPPROTO_TCP, system::TCP_KEEPINTVL)?,
        option(socket, system::IPPROTO_TCP, system::TCP_KEEPCNT)?,
        option(socket, system::IPPROTO_TCP, system::TCP_USER_TIMEOUT)?,
    ])
}

/// What the sockets say that a listener accepts which was told so.
fn accepted<R: Net<Listener = TcpListener, Stream = TcpStream>>(
    rt: &R,
    liveness: Liveness,
) -> Option<[u32; 5]> {
    let listener = TcpListener::bind(rt, "127.0.0.1:0").ok()?;
    liveness.apply(rt, &listener).ok()?;
    let address = listener.local_addr().ok()?;
    let _here = TcpStream::connect(rt, address).ok()?;
    let (there, _address) = listener.accept().ok()?;
    keepalive(there.as_raw_fd())
}

/// That silent peers are asked after so many ms.
fn asking(time: u64) -> Liveness {
    Liveness {
        keepalive: Some(Keepalive::of(time)),
        user_timeout: None,
    }
}

/// That bytes may stay unacknowledged for so many ms.
fn giving_up(time: u64) -> Liveness {
    Liveness {
        keepalive: None,
        user_timeout: Some(UserTimeout::of(time)),
    }
}

#[test]
fn accepted_sockets_ask_silent_peers(rt: HostRuntime) {
    assert!(rt; accepted(&rt, asking(0)) == Some([1, 1, 1, 3, 0]));
    assert!(rt; accepted(&rt, asking(3_000)) == Some([1, 3, 1, 3, 0]));
    assert!(rt; accepted(&rt, asking(3_001)) == Some([1, 4, 2, 3, 0]));
    assert!(rt; accepted(&rt, asking(60_000)) == Some([1, 60, 20, 3, 0]));
    assert!(rt; accepted(&rt, asking(u64::MAX)) == Some([1, 32_767, 10_923, 3, 0]));
}

#[test]
fn accepted_sockets_give_silent_peers_up(rt: HostRuntime) {
    let Some(told) = accepted(&rt, giving_up(1_500)) else {
        panic!(rt; "no client was accepted");
    };
    assert!(rt; told[0] == 0 && told[4] == 1_500);
    let longest = Some([0, told[1], told[2], told[3], 0x7fff_ffff]);
    assert!(rt; accepted(&rt, giving_up(u64::MAX)) == longest);
}
