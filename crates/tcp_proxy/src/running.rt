//! A run of the proxy: tables opened, sockets bound, threads started, and in the end tables settled; `stickd` calls `run_pooled`.

ghost use Rattle.std.specs.Prelude.{◌≡◌, ◌≤◌, length, is_some, true};
ghost use Rattle.admit_drive.specs.Tables.{CanOpen};
ghost use Rattle.tcp_relay.specs.Serving.{AreSeats, AreTablesOf};
ghost use Rattle.tcp_proxy.specs.Opened.{HasPlaces, book_spec};

use crate::ending::{Left, give_up_all, settle_all};
use crate::instruments::Instruments;
use crate::keeping::{can_save, load_where, longest_life, save_where};
use crate::last_words::say_last_word;
use crate::opening::{CallRecord, OpenTables, open_record, open_recorded};
use crate::plan::Plan;
use crate::service_threads::{NOBODY, ServiceThread, make_service_threads};
use crate::serving::serve_all;
use crate::shared::{ProxyRuntime, Shared};
use crate::sockets::{Sockets, bind_sockets};
use crate::start_warnings::{check_start, warn_of_start};
use base_console::{Lines, PATIENCE};
use base_sequence::NoMemory;
use log::{Log, error, info};
use rule_addresses::Endpoint;
use rule_model::Setup;
use shard_locks::{Shards, SharedSeat};
use shard_record::Naming;
use std::alloc::Global;
use std::io;
use std::marker::Brand;
use std::random::RandomSource;
use std::rt::Files;
use stick_pooled::StickTable;
use stick_table::Table;
use tcp_relay::{FaultKind, ServeFault, Served};

/// The seats of each table, and one more of each.
fn with_more<J: Naming>(
    mut seats: Vec<Vec<SharedSeat<J>>>,
    more: Vec<SharedSeat<J>>,
) -> Result<Vec<Vec<SharedSeat<J>>>, NoMemory> {
    for (place, seat) in more.into_iter().enumerate() {
        if let Some(of_table) = seats.get_mut(place) {
            of_table.push(seat)?;
        }
    }
    Ok(seats)
}

/// All seats of each table, with those of the threads beside the listener.
fn all_seats<J: Naming>(
    mut seats: Vec<Vec<SharedSeat<J>>>,
    service_threads: Vec<ServiceThread<J>>,
) -> Result<Vec<Vec<SharedSeat<J>>>, NoMemory> {
    for service_thread in service_threads {
        seats = with_more(seats, service_thread.seats)?;
    }
    Ok(seats)
}

/// Says why serving ended with a fault. Whether that can be said changes nothing.
pub(crate) fn report<R: Log>(rt: &R, kind: FaultKind) -> io::Result<()> {
    match kind {
        FaultKind::Waiting => error!(rt; "a thread can't wait for connections"),
        FaultKind::Thread => error!(rt; "a thread can't be started"),
        FaultKind::NoMemory => error!(rt; "out of memory"),
    }
    Ok(())
}

/// Runs the proxy of a setup that has a `bind` and a server: opens its tables, binds its sockets, and serves. It stops once
/// the connections of the plan have ended, or those that are open as it drains, and then settles the tables and prints what they
/// come to; or where a thread can't wait for connections. Answers whether all went well; what didn't is said on standard
/// error. An error is one of printing.
pub fn run_proxy<
    T: Table + Send,
    R: ProxyRuntime + Files + AllocGlobal + Eprint + RandomSource + Print,
>(alloc: Global, rt: &R, setup: &Setup, plan: Plan<'_>) -> io::Result<bool>
    requires can_open { CanOpen setup.now }
    requires threads { (1 ≤ plan.threads) × (plan.threads ≤ 64) }
    requires clients { (1 ≤ plan.socket.clients) × (plan.socket.clients ≤ 64) }
{
    let Some(bind) = setup.bind else {
        error!(rt; "the configuration has no bind");
        return Ok(false);
    };
    if setup.server.is_none() {
        error!(rt; "the configuration has no server");
        return Ok(false);
    }
    if !can_save(alloc, rt, plan)? {
        return Ok(false);
    }
    let instruments = match Instruments::new(alloc, rt, setup, plan) {
        Ok(instruments) => instruments,
        Err(fault) => {
            error!(rt; "{fault}");
            return Ok(false);
        }
    };
    let clients = plan.duties(instruments.awaits_signals()).sum();
    let calls = match open_record(alloc, rt, setup, plan.threads, clients) {
        Ok(calls) => calls,
        Err(fault) => {
            error!(rt; "{fault}");
            return Ok(false);
        }
    };
    run_recorded::<Brand, T, R>(alloc, rt, setup, bind, plan, &instruments, calls)
}

/// Opens the tables, whose calls one record keeps, binds the sockets, and serves.
fn run_recorded<
    J: Naming + Send + Sync,
    T: Table + Send,
    R: ProxyRuntime + Files + AllocGlobal + Eprint + Print,
>(
    alloc: Global,
    rt: &R,
    setup: &Setup,
    bind: Endpoint,
    plan: Plan<'_>,
    instruments: &Instruments,
    calls: CallRecord,
) -> io::Result<bool>
    requires can_open { CanOpen setup.now }
    requires server { is_some setup.now.server ≡ true }
    requires threads { (1 ≤ plan.threads) × (plan.threads ≤ 64) }
    requires workers { calls.workers ≡ plan.threads }
    requires clients { (1 ≤ calls.clients) × (calls.clients ≤ 256) }
    requires name { (calls.opened.first.table_id ≡ J.record_id) × (calls.opened.books ≡ J.books) }
    requires specs { J.specs ≡ book_spec setup.now calls.seeds.items }
    requires places { HasPlaces setup.now calls }
{
    let keep = plan.stop_after.is_some();
    match open_recorded::<T, J>(alloc, setup, calls, keep) {
        Ok(tables) => start(alloc, rt, setup, bind, plan, instruments, tables),
        Err(fault) => {
            error!(rt; "{fault}");
            Ok(false)
        }
    }
}

/// Binds the sockets, says what may surprise, and serves by the tables that were opened.
fn start<
    T: Table + Send,
    J: Naming + Send + Sync,
    R: ProxyRuntime + Files + AllocGlobal + Eprint + Print,
>(
    alloc: Global,
    rt: &R,
    setup: &Setup,
    bind: Endpoint,
    plan: Plan<'_>,
    instruments: &Instruments,
    opened: OpenTables<T, J>,
) -> io::Result<bool>
    requires can_open { CanOpen setup.now }
    requires server { is_some setup.now.server ≡ true }
    requires tables { AreTablesOf setup.now opened.tables.items }
    requires seats { AreSeats (length opened.tables.items) plan.threads opened.workers }
    requires threads { (1 ≤ plan.threads) × (plan.threads ≤ 64) }
{
    let OpenTables {
        tables,
        workers,
        commands,
        keepers,
    } = opened;
    let Some(keepers) = load_where(alloc, rt, setup, plan, tables.as_slice(), keepers)? else {
        return Ok(false);
    };
    let duties = plan.duties(instruments.awaits_signals());
    let Ok(service_threads) = make_service_threads(alloc, setup, duties, commands, keepers) else {
        report(rt, FaultKind::NoMemory)?;
        return Ok(false);
    };
    if plan.is_check {
        return check_start(alloc, rt, setup, bind, plan);
    }
    let Some(mut sockets) = bind_sockets(alloc, rt, bind, plan)? else {
        return Ok(false);
    };
    sockets.start.moment = begins_at(setup, plan);
    if !warn_of_start(alloc, rt, setup, plan, sockets.reach())? {
        sockets.remove_files(rt, plan);
        return Ok(false);
    }
    instruments.warn_of_signals(rt);
    serve_and_settle(
        alloc,
        rt,
        setup,
        plan,
        &sockets,
        instruments,
        tables,
        workers,
        service_threads,
    )
}

/// The moment at which the run begins, in ms: where entries are loaded, the longest life of all, so that each was refreshed since
/// 0.
fn begins_at(setup: &Setup, plan: Plan<'_>) -> u32 {
    match plan.keep.load {
        Some(_path) => longest_life(setup),
        None => 0,
    }
}

/// How serving ended: the fault, if any; how many connections were admitted, rejected, and not accepted; and what the threads
/// that served them have left.
struct Ended<J: Naming> {
    fault: Option<FaultKind>,
    admitted: u64,
    rejected: u64,
    unaccepted: u64,
    left: Left<J>,
}

/// How serving ended.
fn end_of<J: Naming>(served: Result<Served<J>, ServeFault<J>>) -> Ended<J> {
    let (fault, served) = match served {
        Ok(served) => (None, served),
        Err(ServeFault { kind, served }) => (Some(kind), served),
    };
    let Served {
        admitted,
        rejected,
        unaccepted,
        seats,
        refs,
    } = served;
    Ended {
        fault,
        admitted,
        rejected,
        unaccepted,
        left: Left { seats, refs },
    }
}

/// The same on pooled tables, of which an event costs the same whatever their size.
pub fn run_pooled<R: ProxyRuntime + Files + AllocGlobal + Eprint + RandomSource + Print>(
    alloc: Global,
    rt: &R,
    setup: &Setup,
    plan: Plan<'_>,
) -> io::Result<bool>
    requires can_open { CanOpen setup.now }
    requires threads { (1 ≤ plan.threads) × (plan.threads ≤ 64) }
    requires clients { (1 ≤ plan.socket.clients) × (plan.socket.clients ≤ 64) }
{
    run_proxy::<StickTable, R>(alloc, rt, setup, plan)
}

/// Serves, saves the tables, removes the sockets' files, and then settles the tables.
fn serve_and_settle<
    T: Table + Send,
    J: Naming + Send + Sync,
    R: ProxyRuntime + Files + AllocGlobal + Eprint + Print,
>(
    alloc: Global,
    rt: &R,
    setup: &Setup,
    plan: Plan<'_>,
    sockets: &Sockets,
    instruments: &Instruments,
    tables: Vec<Shards<T, J>>,
    workers: Vec<Vec<SharedSeat<J>>>,
    mut service_threads: Vec<ServiceThread<J>>,
) -> io::Result<bool>
    requires shards { (1 ≤ setup.now.shards) × (setup.now.shards ≤ 64) }
    requires server { is_some setup.now.server ≡ true }
    requires tables { AreTablesOf setup.now tables.items }
    requires seats { AreSeats (length tables.items) plan.threads workers }
    requires threads { (1 ≤ plan.threads) × (plan.threads ≤ 64) }
{
    let running = instruments.running(rt, setup, plan, sockets);
    // From here on no thread waits for who reads standard error: it looks for signals, drains or saves.
    rt.wait_at_most(0);
    let shared = Shared {
        alloc,
        rt,
        setup,
        versions: instruments.versions(),
        tables: tables.as_slice(),
        listeners: sockets.listeners.each.as_slice(),
        socket: &sockets.socket.listener,
        silence: plan.socket.timeout,
        level: plan.socket.level,
        threads: plan.threads,
        limits: plan.limits,
        stop_after: plan.stop_after,
        roll_at: plan.roll_at,
        start: sockets.start,
        running: &running,
        stop: instruments.stop(),
    };
    let ended = end_of(serve_all(&shared, workers, service_threads.as_mut_slice()));
    running.say_stopping();
    let saved = if ended.fault.is_some() {
        Ok(false)
    } else {
        save_where(
            alloc,
            rt,
            setup,
            plan,
            tables.as_slice(),
            service_threads.as_mut_slice(),
            sockets.start,
        )
    };
    say_last_word(
        sockets,
        instruments.is_stop_asked(),
        matches!(saved, Ok(true)),
    );
    sockets.remove_files(rt, plan);
    rt.wait_at_most(PATIENCE);
    let is_settled = settle_where(alloc, rt, setup, tables, ended, service_threads)?;
    Ok(saved? && is_settled)
}

/// Says what the clients of the command socket and of the stats socket came to, on all threads together.
fn log_clients<J: Naming, R: Log>(rt: &R, service_threads: &[ServiceThread<J>]) {
    let mut all = NOBODY;
    for service_thread in service_threads {
        all = all.with(service_thread.served);
    }
    let (clients, commands) = (all.clients, all.commands);
    info!(rt; "commands: {clients} clients, {commands} commands");
}

/// Says how serving ended, and settles the tables where it ended well: by their receipts where those were kept, else by counts and
/// references.
fn settle_where<T: Table, J: Naming, R: ProxyRuntime + Files + AllocGlobal + Eprint + Print>(
    alloc: Global,
    rt: &R,
    setup: &Setup,
    tables: Vec<Shards<T, J>>,
    ended: Ended<J>,
    service_threads: Vec<ServiceThread<J>>,
) -> io::Result<bool> {
    let Ended {
        fault,
        admitted,
        rejected,
        unaccepted,
        left: Left { seats, refs },
    } = ended;
    log_clients(rt, service_threads.as_slice());
    info!(rt; "connections: {admitted} admitted, {rejected} rejected, {unaccepted} failed to be accepted");
    if let Some(kind) = fault {
        give_up_all(refs);
        report(rt, kind)?;
        return Ok(false);
    }
    let Ok(seats) = all_seats(seats, service_threads) else {
        give_up_all(refs);
        report(rt, FaultKind::NoMemory)?;
        return Ok(false);
    };
    settle_all(alloc, rt, setup, tables, Left { seats, refs })
}
