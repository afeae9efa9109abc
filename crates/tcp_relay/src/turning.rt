//! A worker's connections, each in its turn; `serving` calls `turn_all` in each worker's loop.

ghost use Rattle.std.specs.Prelude.{◌≡◌, Some, None, slice_get};
ghost use Rattle.tcp_relay.specs.Waiting.{in_hand};

use crate::accept_errors::{AcceptFault, Shortage, shortage_of};
use crate::acceptor::Acceptor;
use crate::arrival::Arrival;
use crate::closing::{close, close_all, close_silent, count_open, retry_due};
use crate::drain::Phase;
use crate::listener_turn::WorkerTurn;
use crate::met::{count_met, met_by};
use crate::opening::carry;
use crate::receiving::{end_late, end_waits, hear_again, receive};
use crate::rules::Rules;
use crate::shared::Shared;
use crate::standing::Stand;
use crate::sweep::Sweep;
use crate::visiting::{arrive, end_at, judge_one};
use crate::waits::Waits;
use crate::watch::{LISTENER, Watch, is_of_connection};
use crate::width::Width;
use crate::worker::Worker;
use crate::{Gate, ServeRuntime};
use base_clock::{Clock, RunningClock};
use mio::{Events, net};
use shard_record::Naming;
use std::thread;
use std::time::Duration;
use stick_table::Table;
use tcp_link::{Ahead, Buffer, Ready, reset};

/// How many connections are accepted before others get their turn.
const ACCEPTS: u32 = 16;

/// How long a worker rests once it has rejected all that had come, in us. Clients that come meanwhile are accepted in one lot:
/// a third of what the system takes for a rejected one is to wake a worker for it alone.
const REST: u64 = 100;

/// A worker at its work: what it waits for, and by which clock.
#[derive(Drop)]
pub(crate) struct EventLoop<'r, R, W: Width> {
    /// What judges whoever comes.
    pub(crate) rules: Rules<'r, W>,
    pub(crate) watch: Watch,
    pub(crate) turn: WorkerTurn<'r>,
    pub(crate) acceptor: Acceptor,
    pub(crate) clock: RunningClock<'r, R>,
    pub(crate) sweep: Sweep,
    /// The clients whose headers are waited for.
    pub(crate) waits: Waits<W>,
    /// The place of the listener that is asked first for the next client.
    pub(crate) next: usize,
}

impl<R, W: Width> EventLoop<'_, R, W> {
    /// How many clients a worker has in hand that holds so many open connections: those too that it waits for.
    pub(crate) fn in_hand(&self, held: usize) -> usize
        ensures { result ≡ in_hand held self.now.waits.count }
    {
        held.saturating_add(self.waits.count())
    }
}

/// Takes a client in: it is judged, and carried to the server if it is admitted.
pub(crate) fn take_in<'a, T: Table, J: Naming, R: ServeRuntime, G: Gate, W: Width>(
    shared: &Shared<'a, R, G, W>,
    worker: &mut Worker<'a, T, J, R, W>,
    event_loop: &mut EventLoop<'a, R, W>,
    buffer: &mut Buffer,
    number: u64,
    place: usize,
    arrival: Arrival<W>,
)
    requires free { slice_get worker.old.places.held.items place ≡ Some None }
{
    let source = arrival.source();
    let samples = arrival.samples();
    event_loop.rules.follow(shared.setup, shared.versions);
    let mut conn = arrive(&event_loop.rules, samples);
    let seated = &mut worker.seated;
    let admitted = judge_one(shared, seated, &mut event_loop.clock, number, &mut conn);
    worker.counted.count_verdict(admitted.is_some());
    if let Some(admitted) = admitted {
        carry(
            shared, worker, event_loop, buffer, place, arrival, conn, admitted,
        );
        return;
    }
    shared.control.note_rejected(source);
    // First its references: a client that hears of the reset may come again at once.
    end_at(shared, worker, &mut event_loop.clock, place, conn, false);
    reset(shared.rt, net::TcpStream::from_std(arrival.accepted.client));
}

/// What becomes of a client that couldn't be accepted.
fn note_fault<T: Table, J: Naming, R, W: Width>(
    worker: &mut Worker<'_, T, J, R, W>,
    acceptor: &mut Acceptor,
    fault: AcceptFault,
) {
    acceptor.hear_of_fault(fault);
    worker.counted.count_fault(fault);
    match fault {
        AcceptFault::NoneWaits | AcceptFault::Gone => {}
        AcceptFault::Unreadable => worker.tally.count(false),
        AcceptFault::Short(_) => worker.tally.count_unaccepted(),
    }
}

/// Accepts a client, if there is one, for the number that is drawn and a place that is free.
fn accept_one<'a, T: Table, J: Naming, R: ServeRuntime, G: Gate, W: Width>(
    shared: &Shared<'a, R, G, W>,
    worker: &mut Worker<'a, T, J, R, W>,
    event_loop: &mut EventLoop<'a, R, W>,
    buffer: &mut Buffer,
    number: u64,
    place: usize,
)
    requires free { slice_get worker.old.places.held.items place ≡ Some None }
{
    let accepted = shared.listeners.accept(event_loop.next);
    match accepted {
        Ok(accepted) => {
            // From here on another is told, as the gate may block this one.
            let in_hand = event_loop.in_hand(worker.places.open());
            event_loop.turn.pass(shared.rt, in_hand);
            event_loop.next = accepted.next;
            event_loop.acceptor.pass();
            worker.counted.count_accepted();
            receive(shared, worker, event_loop, buffer, number, place, accepted);
        }
        Err(unaccepted) => {
            worker.places.free(place);
            let fault = unaccepted.fault.heard(shared.control.drain.has_begun());
            note_fault(worker, &mut event_loop.acceptor, fault);
            shared.control.note_fault(fault, unaccepted.error);
        }
    }
}

/// No socket can be had for a client's server, by an error with this number, if it has one. So no client is accepted now.
fn note_short<'a, T: Table, J: Naming, R, G, W: Width>(
    shared: &Shared<'a, R, G, W>,
    worker: &mut Worker<'_, T, J, R, W>,
    acceptor: &mut Acceptor,
    error: Option<u32>,
) {
    let shortage = error.map_or(Shortage::Other, shortage_of);
    worker.tally.count_unaccepted();
    worker.counted.count_shortage(shortage);
    shared.control.note_shortage(shortage, error);
    acceptor.run_short();
}

/// Tries to accept a client. First a socket for its server is had: one that is accepted can be carried.
fn try_to_accept<'a, T: Table, J: Naming, R: ServeRuntime, G: Gate, W: Width>(
    shared: &Shared<'a, R, G, W>,
    worker: &mut Worker<'a, T, J, R, W>,
    event_loop: &mut EventLoop<'a, R, W>,
    buffer: &mut Buffer,
    number: u64,
) {
    let server = event_loop.rules.server;
    let ready = event_loop
        .acceptor
        .ready_server(shared.rt, server, shared.liveness);
    if let Err(error) = ready {
        let error = error.raw_os_error().map(i32::unsigned_abs);
        note_short(shared, worker, &mut event_loop.acceptor, error);
        return;
    }
    match worker.places.claim() {
        Some(place) => accept_one(shared, worker, event_loop, buffer, number, place),
        None => event_loop.acceptor.run_short(),
    }
}

/// Accepts the clients that wait, as far as this worker can, and no other is to take them. Whether it has none to take now.
fn accept_some<'a, T: Table, J: Naming, R: ServeRuntime, G: Gate, W: Width>(
    shared: &Shared<'a, R, G, W>,
    worker: &mut Worker<'a, T, J, R, W>,
    event_loop: &mut EventLoop<'a, R, W>,
    buffer: &mut Buffer,
) -> bool {
    for _client in 0..ACCEPTS {
        event_loop
            .acceptor
            .draw(shared.counter, shared.rt, worker.keeps);
        if !event_loop.acceptor.must_try(worker.places.has_room()) {
            break;
        }
        let Some(number) = event_loop.acceptor.number() else {
            break;
        };
        let in_hand = event_loop.in_hand(worker.places.open());
        if event_loop.turn.leaves(shared.rt, in_hand) {
            event_loop.acceptor.leave();
            break;
        }
        try_to_accept(shared, worker, event_loop, buffer, number);
        let in_hand = event_loop.in_hand(worker.places.open());
        event_loop.turn.hold(in_hand);
    }
    !event_loop.acceptor.may_have()
}

/// Gives a connection its turn, of which a socket is ready, or a client that is waited for.
fn turn<'a, T: Table, J: Naming, R: ServeRuntime, G: Gate, W: Width>(
    shared: &Shared<'a, R, G, W>,
    worker: &mut Worker<'a, T, J, R, W>,
    event_loop: &mut EventLoop<'a, R, W>,
    buffer: &mut Buffer,
    ready: Ready,
    moment: u64,
) {
    if event_loop.waits.count() > 0 {
        let is_closed = ready.has_failed || ready.ahead != Ahead::More;
        if hear_again(shared, worker, event_loop, buffer, ready.number, is_closed) {
            return;
        }
    }
    let registry = event_loop.watch.registry();
    if worker.places.turn(registry, ready, moment, buffer) {
        close(shared, worker, &mut event_loop.clock, ready.number, None);
        // It has left its place and its descriptors.
        event_loop.acceptor.try_again();
    }
}

/// Whether a poll gave as many events as it may, so that there may be more.
fn is_full(events: &Events) -> bool {
    events.iter().count() >= events.capacity()
}

/// How many full polls it takes until each socket of so many places, and the listener, has been told of.
fn polls_for(places: usize, capacity: usize) -> usize {
    let sockets = places.saturating_mul(2).saturating_add(1);
    (sockets / capacity.max(1)).saturating_add(1)
}

/// Whether the listener is among what is ready.
fn tells_of_connections(events: &Events) -> bool {
    for event in events.iter() {
        if event.token() == LISTENER {
            return true;
        }
    }
    false
}

/// Gives each that is ready its turn, the listener first. Whether that was the listener alone, where it has no client to take now.
fn turn_each<'a, T: Table, J: Naming, R: ServeRuntime, G: Gate, W: Width>(
    shared: &Shared<'a, R, G, W>,
    worker: &mut Worker<'a, T, J, R, W>,
    event_loop: &mut EventLoop<'a, R, W>,
    events: &Events,
    buffer: &mut Buffer,
    moment: u64,
) -> bool {
    if tells_of_connections(events) {
        event_loop.acceptor.hear_of_clients();
    }
    let mut only_accepts = event_loop.acceptor.may_have()
        && accept_some(shared, worker, event_loop, buffer);
    for event in events.iter() {
        if is_of_connection(event.token()) {
            turn(shared, worker, event_loop, buffer, Ready::of(event), moment);
            only_accepts = false;
        }
    }
    only_accepts
}

/// Waits until something is ready, for no longer than it may. False where that failed.
fn wait<'a, T: Table, J: Naming, R: ServeRuntime, G: Gate, W: Width>(
    shared: &Shared<'a, R, G, W>,
    worker: &Worker<'a, T, J, R, W>,
    event_loop: &mut EventLoop<'a, R, W>,
    events: &mut Events,
) -> bool {
    let has_room = worker.places.has_room();
    let in_hand = event_loop.in_hand(worker.places.open());
    let acceptor = &event_loop.acceptor;
    let pause = acceptor.pause(has_room, event_loop.sweep.is_due(), in_hand > 0);
    let stand = Stand {
        can_accept: acceptor.can_accept(has_room),
        may_have: acceptor.may_have(),
        held: in_hand,
    };
    event_loop.turn.begin(shared.rt, stand, pause);
    let is_well = event_loop.watch.wait(events, pause).is_ok();
    event_loop.turn.end();
    is_well
}

/// Waits until something is ready, and gives each its turn. Then, where that is due, silent peers are looked for, and servers
/// that refused are tried again; at the end of a drain all are closed. What was counted is published. Where each client that came
/// was rejected, and that was all, it rests a moment before the next. False where waiting failed.
pub(crate) fn turn_all<'a, T: Table, J: Naming, R: ServeRuntime, G: Gate, W: Width>(
    shared: &Shared<'a, R, G, W>,
    worker: &mut Worker<'a, T, J, R, W>,
    event_loop: &mut EventLoop<'a, R, W>,
    events: &mut Events,
    buffer: &mut Buffer,
) -> bool {
    if !wait(shared, worker, event_loop, events) {
        return false;
    }
    let moment = event_loop.clock.now();
    let phase = shared.control.drain.phase(moment);
    if phase != Phase::Serving {
        event_loop.acceptor.stop();
    }
    let polls = polls_for(worker.places.count(), events.capacity());
    let as_of = event_loop.sweep.after_poll(moment, is_full(events), polls);
    let in_hand = event_loop.in_hand(worker.places.open());
    let tally = worker.tally;
    let heard = event_loop.sweep.counted();
    let only_accepts = turn_each(shared, worker, event_loop, events, buffer, heard);
    if let Some(as_of) = as_of {
        event_loop.turn.look_after(shared.rt);
        count_open(worker);
        close_silent(shared, worker, event_loop, as_of);
        end_late(shared, worker, event_loop, as_of);
        if shared.retries > 0 {
            retry_due(shared, worker, event_loop, buffer);
        }
    }
    if phase == Phase::Closing {
        end_waits(shared, worker, event_loop);
        close_all(shared, worker, event_loop);
    }
    let cells = shared.control.cells_of(event_loop.watch.worker());
    count_met(&mut worker.counted, met_by(worker.seated.as_slice()));
    worker.counted.publish(cells);
    let holds_as_many = event_loop.in_hand(worker.places.open()) == in_hand;
    if only_accepts && holds_as_many && worker.tally.has_only_rejected(tally) {
        thread::sleep(shared.rt, Duration::from_micros(REST));
    }
    true
}
