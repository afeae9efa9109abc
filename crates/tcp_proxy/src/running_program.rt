//! What is known of the running proxy beside its tables, and how it is stopped; `service_threads` and `reporting` tell of it.

ghost use Rattle.std.specs.Prelude.{◌≡◌};
ghost use Rattle.tcp_proxy.specs.Draining.{shutdown_of};

use crate::asks::drain_time;
use crate::places::Places;
use crate::plan::{About, MOST_STATS_SOCKETS, WatchPlan};
use crate::reloading::{Reloaded, Reloads};
use crate::reporting::Reports;
use crate::rereading::NotReloaded;
use crate::sockets::Socket;
use base_clock::{Clock, RunningClock, Start};
use base_sequence::NoMemory;
use log::{Log, info, warn};
use rule_warnings::allowed_descriptors;
use std::alloc::Global;
use std::net::{Net, TcpListener};
use std::os::unix::net::UnixListener;
use std::sync::Wait;
use std::sync::atomic::{AtomicBool, AtomicU64, Ordering};
use std::{array, time};
use tcp_relay::{Control, Listener};
use tcp_stats::{Count, Counts, ProcessFacts, Rate, Snapshot, TableFacts};
use tcp_watch::{Level, Notice, Notifier, ProcessStatus, Program, Shutdown, ask_process};

/// What the threads beside the listener count. Each adds to it, and readers see it at any time.
#[derive(Drop)]
pub(crate) struct ServiceCounts {
    commands: AtomicU64,
    rolls: AtomicU64,
    expiries: AtomicU64,
    refusals: AtomicU64,
    reloads: AtomicU64,
    reloads_refused: AtomicU64,
}

impl ServiceCounts {
    /// Nothing is counted yet.
    pub fn new() -> ServiceCounts {
        ServiceCounts {
            commands: AtomicU64::new(0),
            rolls: AtomicU64::new(0),
            expiries: AtomicU64::new(0),
            refusals: AtomicU64::new(0),
            reloads: AtomicU64::new(0),
            reloads_refused: AtomicU64::new(0),
        }
    }

    /// The word of a count. None of one that the workers have.
    fn word(&self, count: Count) -> Option<&AtomicU64> {
        match count {
            Count::Commands => Some(&self.commands),
            Count::Rolls => Some(&self.rolls),
            Count::Expiries => Some(&self.expiries),
            Count::Refusals => Some(&self.refusals),
            Count::Reloads => Some(&self.reloads),
            Count::ReloadsRefused => Some(&self.reloads_refused),
            _ => None,
        }
    }

    /// So many more.
    pub fn add(&self, count: Count, more: u64) {
        if let Some(word) = self.word(count) {
            word.fetch_add(more, Ordering::SeqCst);
        }
    }

    /// All that was counted so far.
    fn read(&self) -> Counts {
        let mut counts = Counts::new();
        for count in Count::ALL {
            if let Some(word) = self.word(count) {
                counts.add(count, word.load(Ordering::SeqCst));
            }
        }
        counts
    }
}

/// A rate that one thread sets and others read.
#[derive(Drop)]
pub(crate) struct RateCell {
    last: AtomicU64,
    most: AtomicU64,
}

impl RateCell {
    /// None came yet.
    pub fn new() -> RateCell {
        RateCell {
            last: AtomicU64::new(0),
            most: AtomicU64::new(0),
        }
    }

    /// The rate, as it was set last.
    pub fn read(&self) -> Rate {
        Rate {
            last: self.last.load(Ordering::SeqCst),
            most: self.most.load(Ordering::SeqCst),
        }
    }

    /// A second is over in which so many came.
    pub fn note_second(&self, count: u64) {
        let rate = self.read().after_second(count);
        self.last.store(rate.last, Ordering::SeqCst);
        self.most.store(rate.most, Ordering::SeqCst);
    }
}

/// What is counted and told while the proxy runs.
#[derive(Drop)]
pub(crate) struct Board {
    pub service: ServiceCounts,
    /// How many threads beside the listener are at work.
    at_work: AtomicU64,
    /// Those of each stats socket, by its number.
    places: [Places; MOST_STATS_SOCKETS],
    /// Clients accepted in a second.
    pub connections: RateCell,
    /// Clients admitted in a second.
    pub sessions: RateCell,
    /// Whether somebody asked for the end, and waits for it.
    pub stop_asked: AtomicBool,
}

impl Board {
    /// Nothing has happened yet, where each stats socket has so many places.
    pub fn new(places: u32) -> Board {
        Board {
            service: ServiceCounts::new(),
            at_work: AtomicU64::new(0),
            places: array::from_fn(|_| Places::new(places)),
            connections: RateCell::new(),
            sessions: RateCell::new(),
            stop_asked: AtomicBool::new(false),
        }
    }

    /// The places of the stats socket of this number.
    pub fn places(&self, number: usize) -> Option<&Places> {
        self.places.get(number)
    }

    /// One thread more is at work.
    pub fn begin_work(&self) {
        self.at_work.fetch_add(1, Ordering::SeqCst);
    }

    /// One thread less is.
    pub fn end_work(&self) {
        self.at_work.fetch_sub(1, Ordering::SeqCst);
    }

    /// How many threads are.
    pub fn at_work(&self) -> u64 {
        self.at_work.load(Ordering::SeqCst)
    }
}

/// The running proxy, as its service threads see it.
#[derive(Drop)]
pub(crate) struct Running<'a, R> {
    pub alloc: Global,
    pub rt: &'a R,
    pub about: About<'a>,
    /// The name of the machine, and the address of the server at the start.
    pub node: &'a str,
    pub server: &'a str,
    /// The rules, and how they are renewed.
    pub reloads: Reloads<'a>,
    /// How many threads serve connections, and how many connections they hold at most.
    pub threads: u32,
    pub connections: u32,
    pub control: Control<'a>,
    pub board: &'a Board,
    pub listeners: &'a [Listener],
    /// How many listeners, the first ones, are the service manager's, who goes on listening there.
    pub handed: usize,
    /// How long open connections go on once the proxy drains, in ms.
    pub drain: u64,
    pub notifier: Option<&'a Notifier>,
    /// Who looks at it: on the stats sockets, by HTTP, and by what is said.
    pub stats: &'a [Socket],
    pub watch: WatchPlan<'a>,
    pub metrics: Option<&'a TcpListener>,
    pub reports: Reports<'a>,
    /// Where a signal that stops the run may wait, if one may.
    pub status: Option<&'a ProcessStatus>,
    /// Where its clocks begin.
    pub start: Start,
    /// When the program began, in ms since 1970, where that can be told.
    pub started: Option<u64>,
}

impl<'a, R: Net + time::Clock> Running<'a, R> {
    /// The moment, in ms.
    fn now(&self) -> u64 {
        RunningClock::new(self.rt, self.start).now()
    }

    /// The stats socket of this number, and what its clients may do: all, unless it is said otherwise.
    pub fn stats_at(&self, number: usize) -> Option<(&'a UnixListener, Level)> {
        let socket = self.stats.get(number)?;
        let level = match self.watch.stats_at(number) {
            Some(planned) => planned.level,
            None => Level::Admin,
        };
        Some((&socket.listener, level))
    }

    /// Tells the service manager, if there is one.
    pub fn notify(&self, text: &[u8]) {
        if let Some(notifier) = self.notifier {
            notifier.send(text);
        }
    }

    /// Tells the service manager that the proxy ends, where that wasn't told as it began to drain.
    pub fn say_stopping(&self) {
        if !self.control.drain.has_begun() {
            self.notify(Notice::Stopping.bytes());
        }
    }

    /// What all threads have counted so far.
    pub fn counts(&self) -> Counts {
        let mut counts = self.board.service.read();
        for cells in self.control.cells {
            counts = counts.with(&cells.read());
        }
        counts
    }

    /// Begins to drain for so many ms: no client is accepted any more, and the listeners refuse those that come. At the service
    /// manager's listeners they wait for the next program.
    pub fn begin_drain(&self, drain: u64) {
        let until = self.now().saturating_add(drain);
        self.control.drain.begin(until);
        for listener in self.listeners.iter().skip(self.handed) {
            listener.refuse(self.rt);
        }
        self.notify(Notice::Stopping.bytes());
    }
}

impl<'a, R: Log + Wait> Running<'a, R> {
    /// Has whoever comes from now on be judged by the rules as their file has them now, unless it drains. Appends the answer.
    fn renew_rules(&self, answer: &mut Vec<u8>) -> Result<Reloaded, NotReloaded<'a>> {
        if self.control.drain.has_begun() {
            return Err(NotReloaded::Stopping);
        }
        self.reloads.renew(self.alloc, self.rt, answer)
    }
}

impl<'r, R: Net + time::Clock + Log + Wait> Program for Running<'r, R> {
    fn snapshot<'a>(&'a self, tables: &'a [TableFacts<'a>]) -> Snapshot<'a> {
        let counts = self.counts();
        Snapshot {
            version: self.about.version,
            release_date: self.about.release_date,
            pid: u32::try_from(libc::getpid()).unwrap_or(0),
            node: self.node,
            uptime_ms: self.now().saturating_sub(u64::from(self.start.moment)),
            threads: u64::from(self.threads),
            is_draining: self.control.drain.has_begun(),
            limit: u64::from(self.connections),
            open: self.control.gauge.open(),
            most: self.control.gauge.most(),
            connection_rate: self.board.connections.read(),
            session_rate: self.board.sessions.read(),
            counts,
            frontend: self.about.frontend,
            server: self.reloads.server().unwrap_or(self.server),
            server_name: self.about.server,
            rules_version: self.reloads.version() as u64,
            tables,
        }
    }

    fn process(&self) -> ProcessFacts {
        ask_process(allowed_descriptors(), self.started)
    }

    fn shut_down(&self, frontend: &[u8]) -> Shutdown {
        let shutdown = answer_shutdown(
            self.about.frontend.as_bytes(),
            frontend,
            self.control.drain.has_begun(),
        );
        if shutdown == Shutdown::Begun {
            self.begin_drain(self.drain);
        }
        shutdown
    }

    fn stop(&self, drain: Option<u64>) {
        self.board.stop_asked.store(true, Ordering::SeqCst);
        let is_draining = self.control.drain.has_begun();
        self.begin_drain(drain_time(drain, self.drain, is_draining));
    }

    fn reload(&self, answer: &mut Vec<u8>) -> Result<(), NoMemory> {
        match self.renew_rules(answer) {
            Ok(reloaded) => {
                self.board.service.add(Count::Reloads, 1);
                info!(self.rt; "reloaded: {reloaded}");
            }
            Err(reason) => {
                self.board.service.add(Count::ReloadsRefused, 1);
                warn!(self.rt; "not reloaded: {reason}");
                let text = format!(in self.alloc; "Not reloaded: {reason}")?;
                answer.clear();
                answer.extend_from_slice(text.as_bytes())?;
            }
        }
        Ok(())
    }
}

/// What becomes of the wish that a frontend takes no more clients, where the program's has this name, and may drain already.
pub(crate) fn answer_shutdown(own: &[u8], named: &[u8], is_draining: bool) -> Shutdown
    ensures { result ≡ shutdown_of own.now named.now is_draining }
{
    if named != own {
        return Shutdown::NoSuch;
    }
    if is_draining {
        return Shutdown::Already;
    }
    Shutdown::Begun
}
