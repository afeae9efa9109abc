//! Where connections come in; `sockets` has it bound with the rest.

ghost use Rattle.std.specs.Prelude.{◌≡◌};
ghost use Rattle.tcp_proxy.specs.Backlog.{fewer_than};

use crate::binding::{BindFault, say_no_memory, say_unbound};
use crate::handing::say_unserved;
use crate::plan::Plan;
use crate::shared::ProxyRuntime;
use base_lines::read_number;
use log::{Log, warn};
use rule_addresses::Endpoint;
use std::alloc::Global;
use std::net::TcpListener;
use std::os::fd::AsRawFd;
use std::rt::Files;
use std::{fs, io};
use tcp_relay::{Listener, socket_address};
use tcp_watch::{Purpose, take_tcp};

/// Where the system says how many connections wait at most, whatever a listener asks (listen(2)).
const MOST_WAITING: &str = "/proc/sys/net/core/somaxconn";

/// Where clients come in: first those listeners that are the service manager's, of which there are so many.
#[derive(Drop)]
pub(crate) struct BoundListeners {
    pub each: Vec<Listener>,
    pub handed: usize,
}

/// The listeners that are handed over, or else that of a `bind`, and those that the plan has besides.
pub(crate) fn bind_listeners<R: ProxyRuntime + Files + AllocGlobal + Eprint>(
    alloc: Global,
    rt: &R,
    bind: Endpoint,
    plan: Plan<'_>,
) -> Result<BoundListeners, BindFault> {
    let mut each = Vec::new(alloc);
    take_all(rt, plan, &mut each)?;
    let handed = each.len();
    if handed == 0 {
        add_bound(rt, bind, plan, &mut each)?;
    } else if !listens_at(each.as_slice(), handed, bind) {
        let wanted = socket_address(bind);
        warn!(rt; "no socket that was handed over listens on {wanted}, as bind says, and so nothing does");
    }
    for further in plan.more_binds {
        if !listens_at(each.as_slice(), handed, *further) {
            add_bound(rt, *further, plan, &mut each)?;
        }
    }
    if plan.is_backlog_asked {
        warn_of_backlog(rt, plan.backlog);
    }
    Ok(BoundListeners { each, handed })
}

/// One listener more.
fn add<R: Log>(rt: &R, listener: Listener, listeners: &mut Vec<Listener>) -> Result<(), BindFault> {
    match listeners.push(listener) {
        Ok(()) => Ok(()),
        Err(_refused) => Err(say_no_memory(rt)),
    }
}

/// Takes each listener that is handed over for clients.
fn take_all<R: ProxyRuntime + Files + AllocGlobal + Eprint>(
    rt: &R,
    plan: Plan<'_>,
    listeners: &mut Vec<Listener>,
) -> Result<(), BindFault> {
    for socket in plan.manager.handed.as_slice() {
        if socket.is_for(Purpose::Clients) {
            match take_listener(rt, socket.number, plan) {
                Ok(listener) => add(rt, listener, listeners)?,
                Err(reason) => return Err(say_unserved(rt, socket, reason)),
            }
        }
    }
    Ok(())
}

/// Whether one of the first so many listeners is at an address.
fn listens_at(listeners: &[Listener], count: usize, place: Endpoint) -> bool {
    let wanted = socket_address(place);
    for listener in listeners.iter().take(count) {
        match listener.socket.local_addr() {
            Ok(address) if address == wanted => return true,
            _ => {}
        }
    }
    false
}

/// Binds one listener more.
fn add_bound<R: ProxyRuntime + Files + AllocGlobal + Eprint>(
    rt: &R,
    bind: Endpoint,
    plan: Plan<'_>,
    listeners: &mut Vec<Listener>,
) -> Result<(), BindFault> {
    match bind_listener(rt, bind, plan) {
        Ok(socket) => add(rt, listener_of(socket, bind.port), listeners),
        Err(reason) => Err(say_unbound(rt, socket_address(bind), reason)),
    }
}

/// The listener of a number that was handed over, whose clients are asked as the plan says whether they are still there. They come to
/// its own port, whatever the `bind` says.
fn take_listener<R: ProxyRuntime + Files + AllocGlobal + Eprint>(
    rt: &R,
    number: u32,
    plan: Plan<'_>,
) -> io::Result<Listener> {
    let socket = take_tcp(number)?;
    plan.limits.liveness.apply(rt, &socket)?;
    let port = socket.local_addr()?.port();
    Ok(listener_of(socket, port))
}

/// A listener whose clients come to this port.
fn listener_of(socket: TcpListener, port: u16) -> Listener
    ensures port { result.port ≡ port }
{
    Listener { socket, port }
}

/// A socket that listens, of whose clients so many may wait to be accepted as the plan says, and are asked as it says whether they are
/// still there. std's own queue has 128 places; listening once more widens it.
fn bind_listener<R: ProxyRuntime + Files + AllocGlobal + Eprint>(
    rt: &R,
    bind: Endpoint,
    plan: Plan<'_>,
) -> io::Result<TcpListener> {
    let listener = TcpListener::bind(rt, socket_address(bind))?;
    plan.limits.liveness.apply(rt, &listener)?;
    let places = i32::try_from(plan.backlog).unwrap_or(i32::MAX);
    if libc::net::listen(listener.as_raw_fd(), places) != 0 {
        return Err(io::Error::from_raw_os_error(os::errno()));
    }
    Ok(listener)
}

/// How many clients the system lets wait, where it lets fewer than were asked for.
pub(crate) fn fewer_places(asked: u32, most: Option<u64>) -> Option<u64>
    ensures { result ≡ fewer_than asked most }
{
    match most {
        Some(most) if most < u64::from(asked) => Some(most),
        _ => None,
    }
}

/// What the system says of how many connections wait at most. None where that can't be read.
fn read_most_waiting<R: ProxyRuntime + Files + AllocGlobal + Eprint>(rt: &R) -> Option<u64> {
    let text = fs::read(rt, MOST_WAITING).ok()?;
    read_number(text.as_slice().trim_ascii())
}

/// Warns where the system lets fewer connections wait than were asked for.
fn warn_of_backlog<R: ProxyRuntime + Files + AllocGlobal + Eprint>(rt: &R, backlog: u32) {
    if let Some(most) = fewer_places(backlog, read_most_waiting(rt)) {
        warn!(rt; "--backlog {backlog} is more than the system allows, which is {most}: sysctl net.core.somaxconn={backlog} allows it");
    }
}
