//! What a run counts by, is drained by, and tells others by; `running` makes it before the threads start.

ghost use Rattle.std.specs.Prelude.{◌≤◌};

use crate::plan::Plan;
use crate::reloading::Reloads;
use crate::reporting::Reports;
use crate::running_program::{Board, Running};
use crate::shared::ProxyRuntime;
use crate::sockets::Sockets;
use base_latch::Latch;
use base_sequence::NoMemory;
use log::{Log, warn};
use rule_model::Setup;
use std::alloc::Global;
use std::rt::Files;
use std::sync::Mutex;
use std::sync::atomic::Ordering;
use std::time::{Clock, SystemTime};
use std::{fs, io, str};
use tcp_relay::{Control, Drain, StartGate, Versions, socket_address};
use tcp_stats::{Cells, Gauge, LastTimes};
use tcp_watch::{Level, Notifier, ProcessStatus, StopSignal};

/// Why a run has nothing to count and to be stopped by.
#[derive(Debug, Drop, thiserror::Error)]
pub(crate) enum InstrumentFault {
    #[error("out of memory")]
    NoMemory,
    #[error("what wakes threads can't be had: {0}")]
    NoLatch(io::Error),
}

impl From<NoMemory> for InstrumentFault {
    fn from(_refused: NoMemory) -> InstrumentFault {
        InstrumentFault::NoMemory
    }
}

impl From<io::Error> for InstrumentFault {
    fn from(reason: io::Error) -> InstrumentFault {
        InstrumentFault::NoLatch(reason)
    }
}

/// Where the system says the machine's name.
const HOSTNAME: &str = "/proc/sys/kernel/hostname";

/// What a run counts by, is drained by, and tells others by.
#[derive(Drop)]
pub(crate) struct Instruments {
    alloc: Global,
    board: Board,
    /// The rules that follow those of the start, and who has them follow.
    versions: Versions,
    newest: Mutex<Option<Vec<u8>>>,
    /// Of each thread that serves connections, where somebody looks.
    cells: Vec<Cells>,
    /// Who was the last that something went wrong for, where somebody looks.
    lasts: Option<LastTimes>,
    notes_rejected: bool,
    gauge: Gauge,
    drain: Drain,
    start_gate: StartGate,
    /// Set once the threads beside the listener are to end.
    stop: Latch,
    notifier: Option<Notifier>,
    /// The status of the process, where the system tells it.
    status: Option<ProcessStatus>,
    node: Vec<u8>,
    server: String,
    /// When the program began, in ms since 1970, where that can be told.
    started: Option<u64>,
}

/// The cells of so many threads.
fn cells_of(alloc: Global, threads: u32) -> Result<Vec<Cells>, NoMemory> {
    let mut cells = Vec::new(alloc);
    for _ in 0..threads {
        cells.push(Cells::new())?;
    }
    Ok(cells)
}

/// Where it is noted who was the last that something went wrong for, if anybody looks.
fn lasts_where(is_watched: bool) -> Option<LastTimes> {
    if is_watched {
        Some(LastTimes::new())
    } else {
        None
    }
}

/// The socket to the service manager, where it takes messages. Where there is none to be had, that is said.
fn open_notifier<R: ProxyRuntime + Files + AllocGlobal + Eprint>(
    rt: &R,
    plan: Plan<'_>,
) -> Option<Notifier> {
    match Notifier::open(plan.manager.notify?) {
        Ok(notifier) => Some(notifier),
        Err(reason) => {
            warn!(rt; "the service manager can't be told: {reason}");
            None
        }
    }
}

/// The name of the machine. Empty where the system doesn't say it.
fn read_node<R: ProxyRuntime + Files + AllocGlobal + Eprint>(alloc: Global, rt: &R) -> Vec<u8> {
    match fs::read(rt, HOSTNAME) {
        Ok(name) => name,
        Err(_) => Vec::new(alloc),
    }
}

/// The moment, in ms since 1970. None where no clock tells it.
fn moment_since_1970(rt: &impl Clock) -> Option<u64> {
    let now = SystemTime::now(rt).ok()?;
    let passed = now.duration_since(SystemTime::UNIX_EPOCH).ok()?;
    u64::try_from(passed.as_millis()).ok()
}

/// The address of the server, as it is told.
fn server_text(alloc: Global, setup: &Setup) -> Result<String, NoMemory> {
    match setup.server {
        Some(server) => {
            let address = socket_address(server);
            Ok(format!(in alloc; "{address}")?)
        }
        None => Ok(String::new(alloc)),
    }
}

impl Instruments {
    /// Those of a run.
    pub fn new<R: ProxyRuntime + Files + AllocGlobal + Eprint>(
        alloc: Global,
        rt: &R,
        setup: &Setup,
        plan: Plan<'_>,
    ) -> Result<Instruments, InstrumentFault> {
        let watched = if plan.is_watched() { plan.threads } else { 0 };
        Ok(Instruments {
            alloc,
            board: Board::new(plan.stats_places()),
            versions: Versions::new(alloc)?,
            newest: Mutex::new(None),
            cells: cells_of(alloc, watched)?,
            lasts: lasts_where(plan.is_watched()),
            notes_rejected: plan.watch.log_rejected,
            gauge: Gauge::new(),
            drain: Drain::open()?,
            start_gate: StartGate::new(),
            stop: Latch::open()?,
            notifier: open_notifier(rt, plan),
            status: ProcessStatus::open().ok(),
            node: read_node(alloc, rt),
            server: server_text(alloc, setup)?,
            started: moment_since_1970(rt),
        })
    }

    /// Whether a signal is known to be blocked, or not. None where the system doesn't tell.
    fn blocks(&self, stop: StopSignal) -> Option<bool> {
        let status = self.status.as_ref()?;
        Some(status.blocks(stop))
    }

    /// Whether a signal that stops the run may wait for it, as it is blocked (`env --block-signal`).
    pub fn awaits_signals(&self) -> bool {
        self.blocks(StopSignal::Terminate) == Some(true)
            || self.blocks(StopSignal::Interrupt) == Some(true)
    }

    /// Warns where SIGTERM isn't blocked, and ends the program at once.
    pub fn warn_of_signals<R: Log>(&self, rt: &R) {
        if self.blocks(StopSignal::Terminate) == Some(false) {
            warn!(rt; "SIGTERM isn't blocked: kill and docker stop end the program at once, its connections too, and nothing is saved; env --block-signal=TERM,INT stickd run .. has it drain");
        }
    }

    /// Whether somebody asked for the end of the run, and waits for it.
    pub fn is_stop_asked(&self) -> bool {
        self.board.stop_asked.load(Ordering::SeqCst)
    }

    /// What ends the threads beside the listener.
    pub fn stop(&self) -> &Latch {
        &self.stop
    }

    /// What the threads that serve connections publish in, and are drained by.
    pub fn control(&self) -> Control<'_> {
        Control {
            cells: self.cells.as_slice(),
            lasts: self.lasts.as_ref(),
            notes_rejected: self.notes_rejected,
            gauge: &self.gauge,
            drain: &self.drain,
            start: &self.start_gate,
        }
    }

    /// The rules that follow those of the start.
    pub fn versions(&self) -> &Versions {
        &self.versions
    }

    /// The status of the process, where a signal that stops the run may wait in it.
    fn watched_status(&self) -> Option<&ProcessStatus> {
        if self.awaits_signals() {
            self.status.as_ref()
        } else {
            None
        }
    }

    /// The run, as its service threads see it.
    pub fn running<'a, R>(
        &'a self,
        rt: &'a R,
        setup: &'a Setup,
        plan: Plan<'a>,
        sockets: &'a Sockets,
    ) -> Running<'a, R>
        requires { (1 ≤ setup.now.shards) × (setup.now.shards ≤ 64) }
    {
        Running {
            alloc: self.alloc,
            rt,
            about: plan.watch.about,
            node: str::from_utf8(self.node.as_slice().trim_ascii()).unwrap_or("?"),
            server: self.server.as_str(),
            reloads: Reloads {
                source: plan.source,
                first: setup,
                first_text: plan.text,
                versions: &self.versions,
                connections: plan.limits.connections,
                newest: &self.newest,
            },
            threads: plan.threads,
            connections: plan.limits.connections,
            control: self.control(),
            board: &self.board,
            listeners: sockets.listeners.each.as_slice(),
            handed: sockets.listeners.handed,
            drain: plan.drain,
            notifier: self.notifier.as_ref(),
            stats: sockets.stats.as_slice(),
            watch: plan.watch,
            metrics: sockets.metrics.as_ref(),
            reports: reports_of(plan),
            status: self.watched_status(),
            start: sockets.start,
            started: self.started,
        }
    }
}

/// What is said and looked for.
fn reports_of(plan: Plan<'_>) -> Reports<'_> {
    Reports {
        report: plan.watch.report,
        says_troubles: plan.is_watched(),
        says_rejected: plan.watch.log_rejected,
        alive: plan.manager.watchdog,
        keep: plan.keep,
    }
}
