//! Where connections and commands come in, and those that look at the proxy; `running` binds all by it.

use crate::binding::{BindFault, say_no_memory, say_unbound};
use crate::handing::{check_handed, say_unserved};
use crate::listeners::{BoundListeners, bind_listeners};
use crate::plan::{MOST_STATS_SOCKETS, Plan, StatsPlan};
use crate::shared::ProxyRuntime;
use crate::trust::Reach;
use base_clock::Start;
use base_lines::read_number;
use log::{Log, error, info};
use rule_addresses::Endpoint;
use std::alloc::Global;
use std::net::TcpListener;
use std::os::fd::OwnedFd;
use std::os::unix::net::UnixListener;
use std::rt::Files;
use std::time::Instant;
use std::{fs, io};
use table_socket::{
    Access, BoundSocket, FileId, bind_socket, group_number, patient_tcp, patient_unix, remove_own,
};
use tcp_relay::{Listener, socket_address};
use tcp_watch::{HandedSocket, Purpose, first_handed, take_unix};

/// A Unix socket that listens, and the file that the proxy made for it, if it did.
#[derive(Drop)]
pub(crate) struct Socket {
    pub listener: UnixListener,
    file: Option<FileId>,
}

/// Where connections and commands come in, and those that look at the proxy.
#[derive(Drop)]
pub(crate) struct Sockets {
    pub listeners: BoundListeners,
    pub socket: Socket,
    /// The stats sockets, by their numbers.
    pub stats: Vec<Socket>,
    pub metrics: Option<TcpListener>,
    /// Where the clocks begin.
    pub start: Start,
}

/// Binds all, or takes what is handed over. None where one can't be bound, which is said on standard error.
pub(crate) fn bind_sockets<R: ProxyRuntime + Files + AllocGlobal + Eprint>(
    alloc: Global,
    rt: &R,
    bind: Endpoint,
    plan: Plan<'_>,
) -> io::Result<Option<Sockets>> {
    match bind_all(alloc, rt, bind, plan) {
        Ok(sockets) => Ok(Some(sockets)),
        Err(BindFault::Said) => Ok(None),
        Err(BindFault::Unsaid(reason)) => Err(reason),
    }
}

/// Binds all. Where one can't be bound, the files of those before it are removed.
fn bind_all<R: ProxyRuntime + Files + AllocGlobal + Eprint>(
    alloc: Global,
    rt: &R,
    bind: Endpoint,
    plan: Plan<'_>,
) -> Result<Sockets, BindFault> {
    let handed = plan.manager.handed.as_slice();
    check_handed(rt, handed)?;
    let access = access_of(rt, plan.socket.mode, plan.socket.group)?;
    let listeners = bind_listeners(alloc, rt, bind, plan)?;
    let metrics = match plan.watch.metrics {
        Some(place) => Some(bind_metrics(rt, place)?),
        None => None,
    };
    let stats = bind_each_stats(alloc, rt, plan)?;
    match bind_last(rt, plan, access) {
        Ok((start, socket)) => {
            say_places(rt, listeners.each.as_slice(), plan);
            Ok(Sockets {
                listeners,
                socket,
                stats,
                metrics,
                start,
            })
        }
        Err(fault) => {
            remove_stats(rt, plan, stats.as_slice());
            Err(fault)
        }
    }
}

/// Binds the stats sockets. Where one can't be bound, the files of those before it are removed.
fn bind_each_stats<R: ProxyRuntime + Files + AllocGlobal + Eprint>(
    alloc: Global,
    rt: &R,
    plan: Plan<'_>,
) -> Result<Vec<Socket>, BindFault> {
    let Ok(mut stats) = Vec::with_capacity(alloc, MOST_STATS_SOCKETS) else {
        return Err(say_no_memory(rt));
    };
    match add_stats(rt, plan, &mut stats) {
        Ok(()) => Ok(stats),
        Err(fault) => {
            remove_stats(rt, plan, stats.as_slice());
            Err(fault)
        }
    }
}

/// Binds one stats socket after another, by their numbers.
fn add_stats<R: ProxyRuntime + Files + AllocGlobal + Eprint>(
    rt: &R,
    plan: Plan<'_>,
    stats: &mut Vec<Socket>,
) -> Result<(), BindFault> {
    for number in 0..MOST_STATS_SOCKETS {
        let Some(socket) = bind_stats_at(rt, plan, number)? else {
            return Ok(());
        };
        // There is room for all of them.
        let _ = stats.push(socket);
    }
    Ok(())
}

/// Binds the stats socket of this number, or takes the first one where it is handed over. None where there are fewer.
fn bind_stats_at<R: ProxyRuntime + Files + AllocGlobal + Eprint>(
    rt: &R,
    plan: Plan<'_>,
    number: usize,
) -> Result<Option<Socket>, BindFault> {
    let handed = plan.manager.handed.as_slice();
    match (
        first_handed(handed, Purpose::Stats),
        plan.watch.stats_at(number),
    ) {
        (Some(socket), _) if number == 0 => Ok(Some(take_socket(rt, socket)?)),
        (_, Some(stats)) => Ok(Some(bind_stats(rt, stats)?)),
        (_, None) => Ok(None),
    }
}

/// Binds the command socket, and reads the clock.
fn bind_last<R: ProxyRuntime + Files + AllocGlobal + Eprint>(
    rt: &R,
    plan: Plan<'_>,
    access: Access,
) -> Result<(Start, Socket), BindFault> {
    let start = Start::at(Instant::now(rt)?);
    let commands = first_handed(plan.manager.handed.as_slice(), Purpose::Commands);
    let socket = match commands {
        Some(socket) => take_socket(rt, socket)?,
        None => bind_unix(rt, plan.socket.path, access)?,
    };
    Ok((start, socket))
}

/// Removes the files that were made for stats sockets.
fn remove_stats<R: ProxyRuntime + Files + AllocGlobal + Eprint>(
    rt: &R,
    plan: Plan<'_>,
    stats: &[Socket],
) {
    for number in 0..stats.len() {
        if let Some(planned) = plan.watch.stats_at(number) {
            stats[number].remove_file(rt, planned.path);
        }
    }
}

/// Says where a listener is. Whether that can be said changes nothing.
fn say_listener<R: Log>(rt: &R, listener: &Listener) {
    if let Ok(address) = listener.socket.local_addr() {
        info!(rt; "listening on {address}");
    }
}

/// Says where clients come in, and who is answered: at the first listener last.
fn say_places<R: ProxyRuntime + Files + AllocGlobal + Eprint>(
    rt: &R,
    listeners: &[Listener],
    plan: Plan<'_>,
) {
    for further in listeners.iter().skip(1) {
        say_listener(rt, further);
    }
    for number in 0..MOST_STATS_SOCKETS {
        if let Some(stats) = plan.watch.stats_at(number) {
            let path = stats.path;
            info!(rt; "stats on {path}");
        }
    }
    if let Some(place) = plan.watch.metrics {
        let address = socket_address(place);
        info!(rt; "metrics on http://{address}/metrics");
    }
    if let Some(first) = listeners.first() {
        if let Ok(address) = first.socket.local_addr() {
            let path = plan.socket.path;
            info!(rt; "listening on {address}, for commands on {path}");
        }
    }
}

/// Binds a Unix socket at a path.
fn bind_unix<R: ProxyRuntime + Files + AllocGlobal + Eprint>(
    rt: &R,
    path: &str,
    access: Access,
) -> Result<Socket, BindFault> {
    match bind_socket(rt, path, access) {
        Ok(BoundSocket { listener, file }) => Ok(Socket {
            listener,
            file: Some(file),
        }),
        Err(reason) => Err(say_unbound(rt, path, reason)),
    }
}

/// Binds the stats socket.
fn bind_stats<R: ProxyRuntime + Files + AllocGlobal + Eprint>(
    rt: &R,
    stats: StatsPlan<'_>,
) -> Result<Socket, BindFault> {
    let access = access_of(rt, stats.mode, stats.group)?;
    bind_unix(rt, stats.path, access)
}

/// Takes a Unix socket that the service manager hands over, whose file is the manager's own.
fn take_socket<R: ProxyRuntime + Files + AllocGlobal + Eprint>(
    rt: &R,
    socket: &HandedSocket,
) -> Result<Socket, BindFault> {
    match take_patient(socket.number) {
        Ok(listener) => Ok(Socket {
            listener,
            file: None,
        }),
        Err(reason) => Err(say_unserved(rt, socket, reason)),
    }
}

/// The Unix socket of a number that was handed over, at which clients are waited for as at the proxy's own.
fn take_patient(number: u32) -> io::Result<UnixListener> {
    patient_unix(OwnedFd::from(take_unix(number)?))
}

/// Binds the listener at which metrics are scraped.
fn bind_metrics<R: ProxyRuntime + Files + AllocGlobal + Eprint>(
    rt: &R,
    place: Endpoint,
) -> Result<TcpListener, BindFault> {
    match bind_patient(rt, place) {
        Ok(listener) => Ok(listener),
        Err(reason) => Err(say_unbound(rt, socket_address(place), reason)),
    }
}

/// A TCP listener at which clients are waited for no longer than a patience each time.
fn bind_patient<R: ProxyRuntime + Files + AllocGlobal + Eprint>(
    rt: &R,
    place: Endpoint,
) -> io::Result<TcpListener> {
    patient_tcp(OwnedFd::from(TcpListener::bind(rt, socket_address(place))?))
}

impl Socket {
    /// Removes the file that was made for the socket at this path.
    fn remove_file<R: ProxyRuntime + Files + AllocGlobal + Eprint>(&self, rt: &R, path: &str) {
        if let Some(file) = self.file {
            remove_own(rt, path, file);
        }
    }
}

impl Sockets {
    /// Who can connect, by the addresses at which listeners really are.
    pub fn reach(&self) -> Reach {
        Reach {
            takes_ipv6: self.takes_ipv6(),
            is_open: self.is_open(),
        }
    }

    /// Whether a listener is at an address that programs of other machines reach. Where that can't be told, it counts as one.
    fn is_open(&self) -> bool {
        let mut listeners = self.listeners.each.iter();
        listeners.any(|listener| match listener.socket.local_addr() {
            Ok(address) => !address.ip().to_canonical().is_loopback(),
            Err(_) => true,
        })
    }

    /// Whether clients come with IPv6 addresses, those of IPv4 with mapped ones: whether a listener is at an address of IPv6.
    fn takes_ipv6(&self) -> bool {
        let mut listeners = self.listeners.each.iter();
        listeners.any(|listener| match listener.socket.local_addr() {
            Ok(address) => address.is_ipv6(),
            Err(_) => false,
        })
    }

    /// Removes the files that were made.
    pub fn remove_files<R: ProxyRuntime + Files + AllocGlobal + Eprint>(
        &self,
        rt: &R,
        plan: Plan<'_>,
    ) {
        self.socket.remove_file(rt, plan.socket.path);
        remove_stats(rt, plan, self.stats.as_slice());
    }
}

/// Who may connect to a Unix socket. A group that isn't there is said.
fn access_of<R: ProxyRuntime + Files + AllocGlobal + Eprint>(
    rt: &R,
    mode: u32,
    group: Option<&str>,
) -> Result<Access, BindFault> {
    let Some(word) = group else {
        return Ok(Access { mode, group: None });
    };
    match find_group(rt, word) {
        Some(group) => Ok(Access {
            mode,
            group: Some(group),
        }),
        None => {
            error!(rt; "there is no group '{word}'");
            Err(BindFault::Said)
        }
    }
}

/// Whether the groups are there that the sockets are to have. One that isn't is said.
pub(crate) fn check_groups<R: ProxyRuntime + Files + AllocGlobal + Eprint>(
    rt: &R,
    plan: Plan<'_>,
) -> Result<(), BindFault> {
    access_of(rt, plan.socket.mode, plan.socket.group)?;
    for number in 0..MOST_STATS_SOCKETS {
        if let Some(stats) = plan.watch.stats_at(number) {
            access_of(rt, stats.mode, stats.group)?;
        }
    }
    Ok(())
}

/// The number of a group that is named by its number, or else by its name in /etc/group.
fn find_group<R: ProxyRuntime + Files + AllocGlobal + Eprint>(rt: &R, word: &str) -> Option<u32> {
    if let Some(number) = read_number(word.as_bytes()) {
        return u32::try_from(number).ok();
    }
    let text = fs::read(rt, "/etc/group").ok()?;
    group_number(&text, word.as_bytes())
}
