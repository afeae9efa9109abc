//! Clients of the sockets beside the listener, whose commands and scrapes are answered; `service_threads` has threads do it.

use crate::counted::Counted;
use crate::places::{BesidePlaces, Placed, Places};
use crate::running_program::{Running, ServiceCounts};
use crate::service_threads::{Asked, SeatedTable, seat, seats_of};
use crate::shared::{ProxyRuntime, Shared};
use base_clock::{Clock, RunningClock};
use base_latch::Latch;
use rule_model::Name;
use shard_book::{Keeper, Named};
use shard_locks::{Seated, SharedSeat};
use shard_record::Naming;
use std::net::TcpListener;
use std::os::unix::net::UnixListener;
use std::sync::Wait;
use std::time;
use stick_table::Table;
use table_cli::CommandService;
use table_socket::{Served, Times, serve_clients};
use tcp_watch::{Level, LimitedService, MetricsService, Program, StatsService, Stay, Teller};

/// How long a client of the stats socket may send or take nothing, in ms.
const STATS_SILENCE: u64 = 10_000;

/// The same of one that has no place there.
const KEPT_SILENCE: u64 = 1_000;

/// How long a scrape of metrics may take, from the accept to the end of its answer, in ms.
const SCRAPE_TIME: u64 = 5_000;

/// How long a client that scrapes metrics is waited for.
const SCRAPE_TIMES: Times = Times {
    silence: SCRAPE_TIME,
    whole: Some(SCRAPE_TIME),
};

/// Answers the commands of a socket's clients, and counts them. The tables come back, and what the clients came to.
fn serve_commands<K: Keeper, C: Clock + Drop, R: Wait + time::Clock>(
    rt: &R,
    listener: &UnixListener,
    service: CommandService<K, C>,
    counts: &ServiceCounts,
    stop: &Latch,
    silence: u64,
) -> (Vec<Named<K>>, Served) {
    let mut counted = Counted::new(service, counts);
    let served = serve_clients(rt, listener, &mut counted, stop, Times::of_silence(silence));
    (counted.into_service().tables, served)
}

/// The same of a socket whose clients may not do all.
fn serve_limited<K: Keeper, C: Clock + Drop, R: Wait + time::Clock>(
    rt: &R,
    listener: &UnixListener,
    service: LimitedService<K, C>,
    counts: &ServiceCounts,
    stop: &Latch,
    silence: u64,
) -> (Vec<Named<K>>, Served) {
    let mut counted = Counted::new(service, counts);
    let served = serve_clients(rt, listener, &mut counted, stop, Times::of_silence(silence));
    (counted.into_service().tables, served)
}

/// Answers the clients of a stats socket, each of which holds a place. The tables come back, and what the clients came to.
fn serve_placed<K: Keeper, C: Clock + Drop, P: Program, R: Wait + time::Clock>(
    rt: &R,
    listener: &UnixListener,
    service: StatsService<'_, K, C, P>,
    places: &Places,
    counts: &ServiceCounts,
    stop: &Latch,
) -> (Vec<Named<K>>, Served) {
    let counted = Counted::new(service, counts);
    let mut placed = Placed::new(counted, places);
    let served = serve_clients(
        rt,
        listener,
        &mut placed,
        stop,
        Times::of_silence(STATS_SILENCE),
    );
    (placed.into_service().into_service().teller.tables, served)
}

/// Answers a line of each client of a stats socket that comes while all places are taken. The tables come back, and what the clients came
/// to.
fn serve_beside<K: Keeper, C: Clock + Drop, P: Program, R: Wait + time::Clock>(
    rt: &R,
    listener: &UnixListener,
    service: StatsService<'_, K, C, P>,
    places: &Places,
    counts: &ServiceCounts,
    stop: &Latch,
) -> (Vec<Named<K>>, Served) {
    let beside = BesidePlaces {
        rt,
        listener,
        places,
    };
    let mut counted = Counted::new(service, counts);
    let served = serve_clients(
        rt,
        &beside,
        &mut counted,
        stop,
        Times::of_silence(KEPT_SILENCE),
    );
    (counted.into_service().teller.tables, served)
}

/// Answers clients that scrape metrics. The tables come back.
fn serve_scrapes<K: Keeper, C: Clock + Drop, P: Program, R: Wait + time::Clock>(
    rt: &R,
    listener: &TcpListener,
    teller: Teller<'_, K, C, P>,
    stop: &Latch,
) -> Vec<Named<K>> {
    let mut service = MetricsService { teller };
    let _ = serve_clients(rt, listener, &mut service, stop, SCRAPE_TIMES);
    service.teller.tables
}

/// Answers the commands of the command socket's clients, and counts them.
pub(crate) fn answer_commands<T: Table, J: Naming, R: ProxyRuntime>(
    shared: &Shared<'_, T, J, R>,
    names: Vec<Name>,
    seats: Vec<SharedSeat<J>>,
    served: &mut Served,
) -> Vec<SharedSeat<J>> {
    let Asked { tables, back } = match seat(shared, names, seats) {
        Ok(asked) => asked,
        Err(seats) => return seats,
    };
    let (tables, all) = match shared.level {
        Level::Admin => answer_all(shared, tables),
        Level::User | Level::Operator => answer_some(shared, tables),
    };
    *served = all;
    seats_of(tables, back)
}

/// Answers the commands of clients that may do all.
fn answer_all<'a, T: Table, J: Naming, R: ProxyRuntime>(
    shared: &Shared<'a, T, J, R>,
    tables: Vec<SeatedTable<'a, T, J, R>>,
) -> (Vec<SeatedTable<'a, T, J, R>>, Served) {
    let clock = RunningClock::new(shared.rt, shared.start);
    let service = CommandService::new(shared.alloc, tables, clock);
    serve_commands(
        shared.rt,
        shared.socket,
        service,
        &shared.running.board.service,
        shared.stop,
        shared.silence,
    )
}

/// Answers the commands of clients that may not.
fn answer_some<'a, T: Table, J: Naming, R: ProxyRuntime>(
    shared: &Shared<'a, T, J, R>,
    tables: Vec<SeatedTable<'a, T, J, R>>,
) -> (Vec<SeatedTable<'a, T, J, R>>, Served) {
    let service = LimitedService {
        alloc: shared.alloc,
        tables,
        clock: RunningClock::new(shared.rt, shared.start),
        level: shared.level,
    };
    serve_limited(
        shared.rt,
        shared.socket,
        service,
        &shared.running.board.service,
        shared.stop,
        shared.silence,
    )
}

/// What tells of the running proxy by these tables.
pub(crate) fn teller_of<'a, T: Table, J: Naming, R: ProxyRuntime>(
    shared: &Shared<'a, T, J, R>,
    tables: Vec<SeatedTable<'a, T, J, R>>,
) -> Teller<'a, Seated<'a, T, J, R>, RunningClock<'a, R>, Running<'a, R>> {
    Teller {
        alloc: shared.alloc,
        tables,
        clock: RunningClock::new(shared.rt, shared.start),
        program: shared.running,
    }
}

/// Answers the clients of the stats socket of this number that may stay, or those that may not.
pub(crate) fn answer_stats<T: Table, J: Naming, R: ProxyRuntime>(
    shared: &Shared<'_, T, J, R>,
    names: Vec<Name>,
    seats: Vec<SharedSeat<J>>,
    number: usize,
    stay: Stay,
    served: &mut Served,
) -> Vec<SharedSeat<J>> {
    let Some((listener, level)) = shared.running.stats_at(number) else {
        return seats;
    };
    let Some(places) = shared.running.board.places(number) else {
        return seats;
    };
    let Asked { tables, back } = match seat(shared, names, seats) {
        Ok(asked) => asked,
        Err(seats) => return seats,
    };
    let service = StatsService {
        teller: teller_of(shared, tables),
        level,
        stay,
    };
    let counts = &shared.running.board.service;
    let (tables, all) = match stay {
        Stay::Long => serve_placed(shared.rt, listener, service, places, counts, shared.stop),
        Stay::Short => serve_beside(shared.rt, listener, service, places, counts, shared.stop),
    };
    *served = all;
    seats_of(tables, back)
}

/// Answers the clients that scrape metrics.
pub(crate) fn answer_scrapes<T: Table, J: Naming, R: ProxyRuntime>(
    shared: &Shared<'_, T, J, R>,
    names: Vec<Name>,
    seats: Vec<SharedSeat<J>>,
) -> Vec<SharedSeat<J>> {
    let Some(listener) = shared.running.metrics else {
        return seats;
    };
    let Asked { tables, back } = match seat(shared, names, seats) {
        Ok(asked) => asked,
        Err(seats) => return seats,
    };
    let tables = serve_scrapes(shared.rt, listener, teller_of(shared, tables), shared.stop);
    seats_of(tables, back)
}
