//! The threads beside the listener: one does housekeeping, one reports, others answer clients of the sockets; `running` makes them,
//! and `serving` starts them.

use crate::answering::{answer_commands, answer_scrapes, answer_stats, teller_of};
use crate::housekeeping::keep_tables;
use crate::plan::Duties;
use crate::reporting::report_on;
use crate::saver::save_on;
use crate::shared::{ProxyRuntime, Shared};
use base_sequence::NoMemory;
use rule_model::{Name, Setup};
use shard_book::Named;
use shard_locks::{Seated, SharedSeat};
use shard_record::Naming;
use std::alloc::Global;
use std::mem;
use stick_table::Table;
use table_socket::Served;
use tcp_watch::Stay;

/// How long a thread rests where there is no memory for it, in ms.
const NAP: u64 = 50;

/// No client yet.
pub(crate) const NOBODY: Served = Served {
    clients: 0,
    commands: 0,
    unaccepted: 0,
};

/// What a thread beside the listener does.
#[derive(Clone, Copy, Debug, PartialEq, Eq)]
pub(crate) enum Duty {
    /// It answers commands.
    Commands,
    /// It answers HAProxy's tools on the stats socket of this number.
    Stats(usize),
    /// It answers them there while the threads that do have no place left, a line each.
    Kept(usize),
    /// It is scraped.
    Metrics,
    /// It saves the tables.
    Saving,
    /// It reports.
    Reporting,
    /// It does the housekeeping.
    Housekeeping,
}

/// A thread beside the listener: its seat of each table, the tables' names where it asks them by name, and what it has counted of
/// clients that sent commands once it ends.
#[derive(Drop)]
pub(crate) struct ServiceThread<J: Naming> {
    pub duty: Duty,
    pub names: Vec<Name>,
    pub seats: Vec<SharedSeat<J>>,
    pub served: Served,
}

impl<J: Naming> ServiceThread<J> {
    /// A thread with this duty.
    pub fn new(duty: Duty, names: Vec<Name>, seats: Vec<SharedSeat<J>>) -> ServiceThread<J> {
        ServiceThread {
            duty,
            names,
            seats,
            served: NOBODY,
        }
    }

    /// Does its duty until the proxy stops. Its seats come back with their calls.
    pub fn run<T: Table, R: ProxyRuntime>(&mut self, shared: &Shared<'_, T, J, R>) {
        let seats = mem::replace(&mut self.seats, Vec::new(shared.alloc));
        let names = mem::replace(&mut self.names, Vec::new(shared.alloc));
        shared.running.board.begin_work();
        self.seats = match self.duty {
            Duty::Commands => answer_commands(shared, names, seats, &mut self.served),
            Duty::Stats(number) => {
                answer_stats(shared, names, seats, number, Stay::Long, &mut self.served)
            }
            Duty::Kept(number) => {
                answer_stats(shared, names, seats, number, Stay::Short, &mut self.served)
            }
            Duty::Metrics => answer_scrapes(shared, names, seats),
            Duty::Saving => save_seated(shared, names, seats),
            Duty::Reporting => report_seated(shared, names, seats),
            Duty::Housekeeping => keep_tables(shared, seats),
        };
        shared.running.board.end_work();
    }
}

/// A table as a thread asks it, by its seat.
pub(crate) type SeatedTable<'a, T, J, R> = Named<Seated<'a, T, J, R>>;

/// Tables that are asked, and a place for each of their seats.
#[derive(Drop)]
pub(crate) struct Asked<'a, T: Table, J: Naming, R> {
    pub tables: Vec<SeatedTable<'a, T, J, R>>,
    pub back: Vec<SharedSeat<J>>,
}

/// Empty lists for so many, once there is memory for them. None where the proxy stops before.
fn await_memory<'a, T: Table, J: Naming, R: ProxyRuntime>(
    shared: &Shared<'a, T, J, R>,
    count: usize,
) -> Option<Asked<'a, T, J, R>> {
    for _try in shared.rt.forever() {
        let tables = Vec::with_capacity(shared.alloc, count);
        let back = Vec::with_capacity(shared.alloc, count);
        if let (Ok(tables), Ok(back)) = (tables, back) {
            return Some(Asked { tables, back });
        }
        if shared.stop.is_set() {
            return None;
        }
        shared.stop.wait(shared.rt, Some(NAP));
    }
    None
}

/// Seats a thread at the tables. Its seats come back where the proxy stops before there is memory for it.
pub(crate) fn seat<'a, T: Table, J: Naming, R: ProxyRuntime>(
    shared: &Shared<'a, T, J, R>,
    names: Vec<Name>,
    seats: Vec<SharedSeat<J>>,
) -> Result<Asked<'a, T, J, R>, Vec<SharedSeat<J>>> {
    let count = seats.as_slice().len();
    let Some(mut asked) = await_memory(shared, count) else {
        return Err(seats);
    };
    for (place, (name, seat)) in names.into_iter().zip(seats).enumerate() {
        let Some(table) = shared.tables.get(place) else {
            break;
        };
        let keeper = Seated::new(table, shared.rt, seat);
        // The place is there.
        let _ = asked.tables.push(Named { name, keeper });
    }
    Ok(asked)
}

/// The seats of tables that are asked no more.
pub(crate) fn seats_of<T: Table, J: Naming, R>(
    tables: Vec<SeatedTable<'_, T, J, R>>,
    mut back: Vec<SharedSeat<J>>,
) -> Vec<SharedSeat<J>> {
    for named in tables {
        // The place is there.
        let _ = back.push(named.keeper.into_seat());
    }
    back
}

/// Saves the tables as that is due until the proxy stops.
fn save_seated<T: Table, J: Naming, R: ProxyRuntime>(
    shared: &Shared<'_, T, J, R>,
    names: Vec<Name>,
    seats: Vec<SharedSeat<J>>,
) -> Vec<SharedSeat<J>> {
    let Some(path) = shared.running.reports.keep.save else {
        return seats;
    };
    let Asked { tables, back } = match seat(shared, names, seats) {
        Ok(asked) => asked,
        Err(seats) => return seats,
    };
    save_on(shared, tables.as_slice(), path);
    seats_of(tables, back)
}

/// Reports until the proxy stops.
fn report_seated<T: Table, J: Naming, R: ProxyRuntime>(
    shared: &Shared<'_, T, J, R>,
    names: Vec<Name>,
    seats: Vec<SharedSeat<J>>,
) -> Vec<SharedSeat<J>> {
    let Asked { tables, back } = match seat(shared, names, seats) {
        Ok(asked) => asked,
        Err(seats) => return seats,
    };
    let mut teller = teller_of(shared, tables);
    report_on(shared.running, &mut teller, shared.stop.flag());
    seats_of(teller.tables, back)
}

/// The names of a setup's tables.
fn names_of(alloc: Global, setup: &Setup) -> Result<Vec<Name>, NoMemory> {
    let mut names = Vec::new(alloc);
    for named in setup.tables.as_slice() {
        names.push(named.name.copy()?)?;
    }
    Ok(names)
}

/// The last seat of each table, which is taken out of its list.
fn take_one_of_each<J: Naming>(
    alloc: Global,
    seats: &mut Vec<Vec<SharedSeat<J>>>,
) -> Result<Vec<SharedSeat<J>>, NoMemory> {
    let mut taken = Vec::new(alloc);
    for of_table in seats.iter_mut() {
        if let Some(seat) = of_table.pop() {
            taken.push(seat)?;
        }
    }
    Ok(taken)
}

/// So many threads more with a duty.
fn add_threads<J: Naming>(
    alloc: Global,
    setup: &Setup,
    duty: Duty,
    count: u32,
    seats: &mut Vec<Vec<SharedSeat<J>>>,
    threads: &mut Vec<ServiceThread<J>>,
) -> Result<(), NoMemory> {
    for _ in 0..count {
        let names = names_of(alloc, setup)?;
        let taken = take_one_of_each(alloc, seats)?;
        threads.push(ServiceThread::new(duty, names, taken))?;
    }
    Ok(())
}

/// The threads beside the listener, by their duties, and the one that does the housekeeping. All have their memory.
pub(crate) fn make_service_threads<J: Naming>(
    alloc: Global,
    setup: &Setup,
    duties: Duties,
    mut seats: Vec<Vec<SharedSeat<J>>>,
    keepers: Vec<SharedSeat<J>>,
) -> Result<Vec<ServiceThread<J>>, NoMemory> {
    let mut service_threads = Vec::new(alloc);
    let counts = [
        (Duty::Commands, duties.commands),
        (Duty::Metrics, duties.metrics),
        (Duty::Saving, duties.saving),
        (Duty::Reporting, duties.reporting),
    ];
    for (duty, count) in counts {
        add_threads(alloc, setup, duty, count, &mut seats, &mut service_threads)?;
    }
    for number in 0..duties.sockets as usize {
        let stats = Duty::Stats(number);
        add_threads(
            alloc,
            setup,
            stats,
            duties.stats,
            &mut seats,
            &mut service_threads,
        )?;
        let kept = Duty::Kept(number);
        add_threads(alloc, setup, kept, 1, &mut seats, &mut service_threads)?;
    }
    let names = Vec::new(alloc);
    service_threads.push(ServiceThread::new(Duty::Housekeeping, names, keepers))?;
    Ok(service_threads)
}
