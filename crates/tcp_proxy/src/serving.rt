//! The threads of the proxy, until it stops; `running` calls it.

ghost use Rattle.std.specs.Prelude.{◌≡◌, length};
ghost use Rattle.tcp_relay.specs.Serving.{AreSeats};

use crate::service_threads::ServiceThread;
use crate::shared::{ProxyRuntime, Shared};
use shard_locks::SharedSeat;
use shard_record::Naming;
use std::alloc::Global;
use std::thread;
use std::thread::Scope;
use stick_table::Table;
use tcp_relay::{FaultKind, Gate, ServeFault, Served, serve};

/// Connections pass between their verdict and their end without being watched.
struct Open;

impl Gate for Open {
    fn pass(&self, _connection: u64) {}
}

/// The fault of a thread that can't be started, before any connection was served.
fn unserved<J: Naming>(alloc: Global, seats: Vec<Vec<SharedSeat<J>>>) -> ServeFault<J> {
    ServeFault {
        kind: FaultKind::Thread,
        served: Served {
            admitted: 0,
            rejected: 0,
            unaccepted: 0,
            seats,
            refs: Vec::new(alloc),
        },
    }
}

/// Starts the threads beside the listener. Answers whether all could be started.
fn start_all<'s, J: Naming + Send + Sync, E, T: Table + Send, R: ProxyRuntime>(
    scope: &Scope<'s, E>,
    shared: &'s Shared<'_, T, J, R>,
    service_threads: &'s mut [ServiceThread<J>],
) -> bool {
    for service_thread in service_threads.iter_mut() {
        if scope.spawn(move || service_thread.run(shared)).is_err() {
            return false;
        }
    }
    true
}

/// Serves connections until serving stops, with commands and housekeeping beside it. All seats come back, those of the threads
/// beside it in their own lists.
pub(crate) fn serve_all<T: Table + Send, J: Naming + Send + Sync, R: ProxyRuntime>(
    shared: &Shared<'_, T, J, R>,
    seats: Vec<Vec<SharedSeat<J>>>,
    service_threads: &mut [ServiceThread<J>],
) -> Result<Served<J>, ServeFault<J>>
    requires seats { AreSeats (length shared.now.tables.now) shared.now.threads seats }
{
    thread::scope(
        thread::scope_env(),
        shared.rt,
        |scope| -> Result<Served<J>, ServeFault<J>>
            requires seats { AreSeats (length shared.now.tables.now) shared.now.threads seats }
        {
            let all_started = start_all(scope, shared, service_threads);
            let served = serve_where(shared, seats, all_started);
            // It wakes each of the threads, and one with a client looks at it within 100 ms, whatever that does.
            shared.stop.set();
            served
        },
    )
}

/// Serves connections, where all threads beside the listener could be started.
fn serve_where<T: Table + Send, J: Naming + Send + Sync, R: ProxyRuntime>(
    shared: &Shared<'_, T, J, R>,
    seats: Vec<Vec<SharedSeat<J>>>,
    all_started: bool,
) -> Result<Served<J>, ServeFault<J>>
    requires seats { AreSeats (length shared.now.tables.now) shared.now.threads seats }
{
    if !all_started {
        return Err(unserved(shared.alloc, seats));
    }
    serve(
        shared.alloc,
        shared.rt,
        shared.listeners,
        shared.tables,
        seats,
        shared.setup,
        shared.versions,
        &Open,
        shared.threads,
        shared.limits,
        shared.stop_after,
        shared.start,
        shared.running.control,
    )
}
