//! What the threads of the proxy share; `running` makes it, and `serving` and `service_threads` read it.

ghost use Rattle.std.specs.Prelude.{◌≡◌, ◌≤◌, is_some, true};
ghost use Rattle.tcp_relay.specs.Serving.{AreTablesOf};

use crate::running_program::Running;
use base_clock::Start;
use base_console::Lines;
use base_latch::Latch;
use log::Log;
use rule_model::Setup;
use shard_locks::Shards;
use shard_record::Naming;
use std::alloc::Global;
use std::net::{Net, TcpListener, TcpStream};
use std::os::unix::net::UnixListener;
use std::sync::Wait;
use std::thread::Threads;
use std::time::Clock;
use stick_table::Table;
use tcp_relay::{Limits, Listener, Versions};
use tcp_watch::Level;

/// What the threads of the proxy ask of the system: sockets, threads, locks, a clock, and a log for which nobody waits. What the proxy asks beside that while
/// it starts and ends stands in each bound apart: a bound that holds both isn't known to be safe to send to a thread.
pub trait ProxyRuntime: Net<Listener = TcpListener, Stream = TcpStream>
    + Threads
    + Wait
    + Clock
    + Log
    + Lines
    + Sync {}

impl<
    R: Net<Listener = TcpListener, Stream = TcpStream>
        + Threads
        + Wait
        + Clock
        + Log
        + Lines
        + Sync,
> ProxyRuntime for R {}

/// What the threads of the proxy share, each by reference: the tables of its setup, its sockets, and whether it stops.
#[derive(Drop)]
pub(crate) struct Shared<'a, T: Table, J: Naming, R> {
    pub alloc: Global,
    pub rt: &'a R,
    pub setup: &'a Setup,
    /// The rules that follow those of the setup.
    pub versions: &'a Versions,
    pub tables: &'a [Shards<T, J>],
    pub listeners: &'a [Listener],
    pub socket: &'a UnixListener,
    /// How long a client of the socket may send or take nothing, in ms.
    pub silence: u64,
    /// What a client of the socket may do.
    pub level: Level,
    /// How many threads serve connections.
    pub threads: u32,
    pub limits: Limits<'a>,
    /// The number of connections after which the proxy stops, if it does.
    pub stop_after: Option<u64>,
    /// A shard's record begins again once it has so many calls.
    pub roll_at: u64,
    /// Where the threads' clocks begin.
    pub start: Start,
    /// What is known of the run, and who looks at it.
    pub running: &'a Running<'a, R>,
    pub stop: &'a Latch,
    ghost are_tables: { AreTablesOf setup.now tables.now },
    ghost has_server: { is_some setup.now.server ≡ true },
    ghost few: { (1 ≤ threads) × (threads ≤ 64) },
}
