//! Connections that end, or are tried again, outside of a turn of their own; `turning` has it done behind its polls.

ghost use Rattle.std.specs.Prelude.{◌≡◌, ℕ, true, false, is_some, length, slice_get, IfSome, None};
ghost use Rattle.tcp_link.specs.Links.{must_be_accepted};
ghost use Rattle.tcp_relay.specs.Releasing.{GivesBack, OthersStay, held_there, is_open_there};
ghost use Rattle.tcp_relay.specs.Traffics.{passed};
ghost use Rattle.tcp_relay.specs.declared.fates.Ending.TheVariants.{Over};

use crate::ServeRuntime;
use crate::fates::{Ended, Ending};
use crate::shared::Shared;
use crate::traffic::Traffic;
use crate::turning::EventLoop;
use crate::visiting::end_admitted;
use crate::width::Width;
use crate::worker::Worker;
use base_clock::{Clock, RunningClock};
use shard_record::Naming;
use stick_table::Table;
use tcp_link::{Buffer, Link, ServerSocket};

/// How a connection ends of which so much was counted already: for this cause, or else as its link says that is over.
pub(crate) fn ended_of(link: &Link, counted: Traffic, cause: Option<Ending>) -> Ended
    ensures cause { IfSome cause (λ cause. result.ending ≡ cause) }
    ensures over { cause ≡ None → must_be_accepted link.now ≡ true → result.ending ≡ Over }
    ensures traffic { result.traffic ≡ passed link.now }
    ensures counted { result.counted ≡ counted }
{
    let (bytes_in, bytes_out) = link.bytes();
    Ended {
        ending: ending_of(link, cause),
        traffic: Traffic {
            bytes_in,
            bytes_out,
        },
        counted,
    }
}

/// Its cause, without the bytes.
fn ending_of(link: &Link, cause: Option<Ending>) -> Ending
    ensures cause { IfSome cause (λ cause. result ≡ cause) }
    ensures over { cause ≡ None → must_be_accepted link.now ≡ true → result ≡ Over }
{
    match cause {
        Some(cause) => cause,
        None => Ending::over(link.connect_fault()),
    }
}

/// Ends the connection in a place, if it is open there, for this cause, or as it is over. Each reference that it holds is released, or
/// is held in that place from now on: where a release was refused.
pub(crate) fn close<'a, T: Table, J: Naming, R: ServeRuntime, G, W: Width>(
    shared: &Shared<'a, R, G, W>,
    worker: &mut Worker<'a, T, J, R, W>,
    clock: &mut RunningClock<'_, R>,
    place: usize,
    cause: Option<Ending>,
)
    ensures back { is_open_there (λ one. is_some one.link) (slice_get worker.old.places.held.items place) ≡ true → GivesBack clock.new worker.old.seated.items worker.new.seated.items (held_there (λ one. one.conn) (slice_get worker.old.places.held.items place)) (held_there (λ one. one.conn) (slice_get worker.new.places.held.items place)) }
    ensures kept { is_open_there (λ one. is_some one.link) (slice_get worker.old.places.held.items place) ≡ false → held_there (λ one. one.conn) (slice_get worker.new.places.held.items place) ≡ held_there (λ one. one.conn) (slice_get worker.old.places.held.items place) }
    ensures closed { is_open_there (λ one. is_some one.link) (slice_get worker.new.places.held.items place) ≡ false }
    ensures others { OthersStay place worker.old.places.held.items worker.new.places.held.items }
    ensures count { length worker.new.places.held.items ≡ length worker.old.places.held.items }
{
    let Some((conn, link, counted)) = worker.places.take(place) else {
        return;
    };
    let ended = ended_of(&link, counted, cause);
    shared.control.note_end(ended.ending, &link);
    // First its references: a client that hears of the end may come again at once.
    end_admitted(shared, worker, clock, place, conn, ended);
    link.close(shared.rt);
}

/// Closes the connections of which a peer had been silent for too long at a moment in ms, by the clock of silence, and those whose
/// resets may come now. What the system was short of is tried again too.
pub(crate) fn close_silent<'a, T: Table, J: Naming, R: ServeRuntime, G, W: Width>(
    shared: &Shared<'a, R, G, W>,
    worker: &mut Worker<'a, T, J, R, W>,
    event_loop: &mut EventLoop<'a, R, W>,
    as_of: u64,
) {
    for place in 0..worker.places.count() {
        if worker.places.is_settled(place, as_of) {
            close(shared, worker, &mut event_loop.clock, place, None);
        }
        if let Some(late) = worker.places.lateness(place, as_of, &shared.timeouts) {
            let cause = Some(Ending::Late(late));
            close(shared, worker, &mut event_loop.clock, place, cause);
        }
    }
    event_loop.acceptor.try_again();
}

/// Counts what has passed of each open connection since it was counted last.
pub(crate) fn count_open<T: Table, J: Naming, R, W: Width>(worker: &mut Worker<'_, T, J, R, W>) {
    for place in 0..worker.places.count() {
        let more = worker.places.count_traffic(place);
        worker.counted.count_traffic(more);
    }
}

/// Closes all connections, as a drain has come to its end. None is open any more in any place.
pub(crate) fn close_all<'a, T: Table, J: Naming, R: ServeRuntime, G, W: Width>(
    shared: &Shared<'a, R, G, W>,
    worker: &mut Worker<'a, T, J, R, W>,
    event_loop: &mut EventLoop<'a, R, W>,
)
    ensures closed { (place : ℕ) → is_open_there (λ one. is_some one.link) (slice_get worker.new.places.held.items place) ≡ false }
{
    for place in 0..worker.places.count() {
        let cause = Some(Ending::Drained);
        close(shared, worker, &mut event_loop.clock, place, cause);
    }
}

/// Tries the servers again that refused a connection a second ago. A connection for which the system has no socket waits on.
pub(crate) fn retry_due<'a, T: Table, J: Naming, R: ServeRuntime, G, W: Width>(
    shared: &Shared<'a, R, G, W>,
    worker: &mut Worker<'a, T, J, R, W>,
    event_loop: &mut EventLoop<'a, R, W>,
    buffer: &mut Buffer,
) {
    let moment = event_loop.sweep.shows(event_loop.clock.now());
    for place in 0..worker.places.count() {
        if worker.places.is_due(place, moment) {
            retry(shared, worker, event_loop, buffer, place, moment);
        }
    }
}

/// Tries the server of the connection in a place again: that of the rules that judged it.
fn retry<'a, T: Table, J: Naming, R: ServeRuntime, G, W: Width>(
    shared: &Shared<'a, R, G, W>,
    worker: &mut Worker<'a, T, J, R, W>,
    event_loop: &mut EventLoop<'a, R, W>,
    buffer: &mut Buffer,
    place: usize,
    moment: u64,
) {
    let Some(server) = worker.places.server_of(place) else {
        return;
    };
    let Ok(server) = ServerSocket::open(shared.rt, server, shared.liveness) else {
        return;
    };
    let registry = event_loop.watch.registry();
    if worker.places.retry(place, server, registry, moment, buffer) {
        close(shared, worker, &mut event_loop.clock, place, None);
    }
}
