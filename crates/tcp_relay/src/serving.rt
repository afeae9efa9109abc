//! The workers of some listeners, each on a thread of its own; `tcp_proxy` calls `serve`.

ghost use Rattle.std.specs.Prelude.{◌≡◌, ◌≤◌, IfErr, IfOk, is_some, length, true, false, vec_len};
ghost use Rattle.tcp_relay.specs.Accepting.{most_of};
ghost use Rattle.tcp_relay.specs.Arrivals.{trust_of};
ghost use Rattle.tcp_relay.specs.Seating.{stores_current};
ghost use Rattle.tcp_relay.specs.Serving.{AreSeats, AreTablesOf, IsCause, IsFault, IsServed, IsUnserved};
ghost use Rattle.tcp_relay.specs.declared.served.FaultKind.TheVariants.{NoMemory as MemoryFault};

use crate::acceptor::Acceptor;
use crate::addresses::socket_address;
use crate::buffers::Buffers;
use crate::connection_counter::ConnectionCounter;
use crate::gathering::{gather, seat_workers};
use crate::listener_turn::{ListenerTurn, TurnParts, WorkerTurn};
use crate::listeners::{Listener, Listeners};
use crate::reserved::{Reserved, reserve};
use crate::rules::Rules;
use crate::shared::Shared;
use crate::shares::share_of;
use crate::start_gate::{StartGate, StartPhase};
use crate::sweep::Sweep;
use crate::turning::{EventLoop, turn_all};
use crate::versions::Versions;
use crate::watch::Watch;
use crate::width::Width;
use crate::worker::Worker;
use crate::{Control, Drain, FaultKind, Gate, Limits, ServeFault, ServeRuntime, Served};
use base_clock::{Clock, RunningClock, Start};
use rule_model::Setup;
use shard_locks::{Shards, SharedSeat};
use shard_record::Naming;
use std::alloc::Global;
use std::marker::{Brand, PhantomData};
use std::net::Net;
use std::thread;
use std::time::Duration;
use stick_table::Table;

/// How many ms lie between two looks of a worker whether all others run.
const START_LOOK: u64 = 1;

/// One worker's connections: until the last number is drawn, or a drain has begun, and all its connections have ended; or it
/// can't wait for them.
fn serve_each<'a, T: Table, J: Naming, R: ServeRuntime, G: Gate, W: Width>(
    shared: &Shared<'a, R, G, W>,
    worker: &mut Worker<'a, T, J, R, W>,
) {
    let (Some(buffers), Some(watch)) = (worker.buffers.take(), worker.watch.take()) else {
        worker.tally.has_failed = true;
        return;
    };
    let Buffers {
        mut events,
        mut buffer,
        waits,
    } = buffers;
    let mut clock = RunningClock::new(shared.rt, shared.start);
    let sweep = Sweep::new(clock.now());
    let mut event_loop = EventLoop {
        rules: Rules::first(shared.setup, shared.server),
        turn: WorkerTurn::new(&shared.counter.listener_turn, watch.worker()),
        watch,
        acceptor: Acceptor::new(),
        clock,
        sweep,
        waits,
        next: 0,
    };
    for _turn in shared.rt.forever() {
        event_loop
            .acceptor
            .draw(shared.counter, shared.rt, worker.keeps);
        let is_idle = event_loop.in_hand(worker.places.open()) == 0;
        if event_loop.acceptor.number().is_none() && is_idle {
            break;
        }
        if !turn_all(shared, worker, &mut event_loop, &mut events, &mut buffer) {
            worker.tally.has_failed = true;
            break;
        }
    }
    event_loop.turn.finish(shared.rt);
}

/// A watch of the listeners and of a drain for the next worker, of this number. None where the system refuses it.
fn watch_one(
    rt: &impl Net,
    listeners: &Listeners<'_>,
    drain: &Drain,
    number: u32,
    parts: &mut TurnParts,
) -> Option<Watch> {
    let watch = Watch::new(rt, listeners.watched()?, drain, number).ok()?;
    let registry = watch.registry().try_clone().ok()?;
    if parts.add(registry) {
        Some(watch)
    } else {
        None
    }
}

/// Has each worker watch the listeners and the drain, before the connections of one take the descriptors that another needs for that. One that
/// can't has failed.
fn watch_each<T: Table, J: Naming, R, W: Width>(
    rt: &impl Net,
    listeners: &Listeners<'_>,
    drain: &Drain,
    workers: &mut [Worker<'_, T, J, R, W>],
    parts: &mut TurnParts,
) {
    let mut number = 0u32;
    for worker in workers.iter_mut() {
        worker.watch = watch_one(rt, listeners, drain, number, parts);
        if worker.watch.is_none() {
            worker.tally.has_failed = true;
        }
        number = number.wrapping_add(1);
    }
}

/// Waits until all workers run. Whether they do: where one can't be started, none serves.
fn await_start<R: ServeRuntime>(rt: &R, start: &StartGate) -> bool {
    for _look in rt.forever() {
        match start.phase() {
            StartPhase::Starting => thread::sleep(rt, Duration::from_millis(START_LOOK)),
            StartPhase::Over => return true,
            StartPhase::GivenUp => return false,
        }
    }
    false
}

/// One worker's connections, once all workers run.
fn serve_started<'a, T: Table, J: Naming, R: ServeRuntime, G: Gate, W: Width>(
    shared: &Shared<'a, R, G, W>,
    worker: &mut Worker<'a, T, J, R, W>,
) {
    if await_start(shared.rt, shared.control.start) {
        serve_each(shared, worker);
    }
}

/// The same. There are as many workers afterwards.
fn watch_all<T: Table, J: Naming, R, W: Width>(
    rt: &impl Net,
    listeners: &Listeners<'_>,
    drain: &Drain,
    workers: &mut Vec<Worker<'_, T, J, R, W>>,
    parts: &mut TurnParts,
)
    ensures workers { vec_len workers.new ≡ vec_len workers.old }
{
    watch_each(rt, listeners, drain, workers.as_mut_slice(), parts);
}

/// Whether a worker has failed.
fn has_failed<T: Table, J: Naming, R, W: Width>(workers: &[Worker<'_, T, J, R, W>]) -> bool {
    for worker in workers {
        if worker.tally.has_failed {
            return true;
        }
    }
    false
}

/// Starts a thread for each worker, and waits until all have ended. Answers whether all could be started; after the first that can't, none
/// is started, and none has served. Nor is any started where one can't watch the listeners, which has failed then.
fn run_each<
    'a,
    T: Table + Send,
    J: Naming + Send + Sync,
    R: ServeRuntime,
    G: Gate + Sync,
    W: Width + Send + Sync,
>(shared: &Shared<'a, R, G, W>, workers: &mut [Worker<'a, T, J, R, W>]) -> bool {
    if has_failed(workers) {
        return true;
    }
    thread::scope(thread::scope_env(), shared.rt, |scope| {
        let mut all = true;
        let each = workers.iter_mut();
        for worker in each {
            let started = scope.spawn(move || serve_started(shared, worker));
            if started.is_err() {
                all = false;
                break;
            }
        }
        shared.control.start.end(all);
        all
    })
}

/// The same. There are as many workers afterwards.
fn run_all<
    'a,
    T: Table + Send,
    J: Naming + Send + Sync,
    R: ServeRuntime,
    G: Gate + Sync,
    W: Width + Send + Sync,
>(shared: &Shared<'a, R, G, W>, workers: &mut Vec<Worker<'a, T, J, R, W>>) -> bool
    ensures workers { vec_len workers.new ≡ vec_len workers.old }
{
    run_each(shared, workers.as_mut_slice())
}

/// What serving comes to: a fault where a thread couldn't be started, which is told first, or couldn't wait for
/// connections.
fn told<J: Naming>(
    served: Served<J>,
    all_started: bool,
    has_failed: bool,
) -> Result<Served<J>, ServeFault<J>>
    ensures ok { IfOk result (λ kept. (kept ≡ served) × (all_started ≡ true) × (has_failed ≡ false)) }
    ensures fault { IfErr result (λ fault. (fault.served ≡ served) × IsCause all_started has_failed fault.kind) }
{
    if !all_started {
        return Err(ServeFault {
            kind: FaultKind::Thread,
            served,
        });
    }
    if has_failed {
        return Err(ServeFault {
            kind: FaultKind::Waiting,
            served,
        });
    }
    Ok(served)
}

/// Serves by workers that are known to be of as many tables as there are, in as many shards each as they are.
fn serve_wide<
    W: Width + Send + Sync,
    T: Table + Send,
    J: Naming + Send + Sync,
    R: ServeRuntime,
    G: Gate + Sync,
>(
    alloc: Global,
    rt: &R,
    listeners: &[Listener],
    tables: &[Shards<T, J>],
    mut seats: Vec<Vec<SharedSeat<J>>>,
    setup: &Setup,
    versions: &Versions,
    gate: &G,
    threads: u32,
    limits: Limits<'_>,
    stop_after: Option<u64>,
    start: Start,
    control: Control<'_>,
) -> Result<Served<J>, ServeFault<J>>
    requires width { W.tables ≡ length tables.now }
    requires shards { W.shards ≡ setup.now.shards }
    requires judges { setup.now ≡ W.setup }
    requires current { W.current ≡ stores_current setup.now }
    requires most { W.most ≡ most_of limits.connections threads }
    requires trust { W.trust ≡ trust_of limits.proxies }
    requires server { is_some setup.now.server ≡ true }
    requires tables { AreTablesOf setup.now tables.now }
    requires seats { AreSeats (length tables.now) threads seats }
    requires threads { (1 ≤ threads) × (threads ≤ 64) }
    ensures ok { IfOk result (λ served. IsServed (length tables.now) threads (most_of limits.entry.connections threads) served) }
    ensures err { IfErr result (λ fault. IsFault (length tables.now) threads (most_of limits.entry.connections threads) seats fault) }
{
    let Some(server) = setup.server else {
        unreachable!();
    };
    let connections = limits.connections as usize;
    let most = share_of(connections, threads as usize, 0);
    let waits = if limits.proxies.is_some() { most } else { 0 };
    let Ok(room) = reserve::<T, J, R, W>(alloc, threads as usize, tables.len(), most, waits) else {
        return Err(without_memory(alloc, seats));
    };
    let Reserved {
        workers: mut seated,
        mut parts,
        rooms,
        refs,
    } = room;
    seat_workers(rt, tables, &mut seats, &mut seated, rooms, connections);
    let listeners = Listeners::new(rt, listeners);
    watch_all(rt, &listeners, control.drain, &mut seated, &mut parts);
    let listener_turn = ListenerTurn::new(listeners.watched(), parts);
    let counter = ConnectionCounter::new(stop_after, listener_turn);
    let mut workers = seated;
    let shared = Shared {
        alloc,
        rt,
        listeners: &listeners,
        counter: &counter,
        setup,
        server: socket_address(server),
        versions,
        timeouts: limits.timeouts,
        retries: limits.retries,
        liveness: limits.liveness,
        told_by: limits.told_by,
        proxies: limits.proxies,
        gate,
        control,
        start,
        of: PhantomData,
    };
    let all_started = run_all(&shared, &mut workers);
    let (served, has_failed) = gather(workers, seats, refs);
    told(served, all_started, has_failed)
}

/// The fault of missing memory, with the seats as they were.
fn without_memory<J: Naming>(alloc: Global, seats: Vec<Vec<SharedSeat<J>>>) -> ServeFault<J>
    ensures kind { result.kind ≡ MemoryFault }
    ensures unserved { IsUnserved seats result.served }
{
    ServeFault {
        kind: FaultKind::NoMemory,
        served: Served {
            admitted: 0,
            rejected: 0,
            unaccepted: 0,
            seats,
            refs: Vec::new(alloc),
        },
    }
}

/// Serves the clients that connect to some listeners, each of which is asked in turn, on so many threads, over the tables of a setup, each
/// asked by the threads' seats of it. A thread waits for all its connections at once, and holds as many as the limits say. Each is judged
/// by the setup's rules, or by those of the last version that has followed, and then passes the gate. If it is admitted, its bytes go to
/// that version's server and back until both directions have ended or a peer has been silent for too long; it is counted, and gives its
/// references back. Moments are ms from the start on. Before a
/// connection is accepted its number is drawn, from 1 on; where serving stops after so many none above it is drawn, and each
/// thread ends with the last of its connections. Without, it goes on until a drain begins.
///
/// Meanwhile others see by `control` what was counted so far, and how many connections are open. Once they begin a drain there,
/// no client is accepted any more; an idle thread ends at once. At the moment that the drain says, what is still open is
/// closed. `Listener::refuse` has clients refused at once in place of waiting in vain.
///
/// Where the system hasn't what a further connection takes, such as descriptors, that is counted, and tried again after a
/// while. A reference whose release is refused stays held, and is handed back; its thread accepts no connection more. All memory
/// that the threads' lists need is taken before the first starts. Whatever comes of it, all seats come back, and the references
/// that are still held.
pub fn serve<T: Table + Send, J: Naming + Send + Sync, R: ServeRuntime, G: Gate + Sync>(
    alloc: Global,
    rt: &R,
    listeners: &[Listener],
    tables: &[Shards<T, J>],
    seats: Vec<Vec<SharedSeat<J>>>,
    setup: &Setup,
    versions: &Versions,
    gate: &G,
    threads: u32,
    limits: Limits<'_>,
    stop_after: Option<u64>,
    start: Start,
    control: Control<'_>,
) -> Result<Served<J>, ServeFault<J>>
    requires server { is_some setup.now.server ≡ true }
    requires tables { AreTablesOf setup.now tables.now }
    requires seats { AreSeats (length tables.now) threads seats }
    requires threads { (1 ≤ threads) × (threads ≤ 64) }
    // All seats come back, of each table as many as there are threads.
    ensures ok { IfOk result (λ served. IsServed (length tables.now) threads (most_of limits.entry.connections threads) served) }
    ensures err { IfErr result (λ fault. IsFault (length tables.now) threads (most_of limits.entry.connections threads) seats fault) }
{
    serve_wide::<Brand, T, J, R, G>(
        alloc, rt, listeners, tables, seats, setup, versions, gate, threads, limits, stop_after,
        start, control,
    )
}
