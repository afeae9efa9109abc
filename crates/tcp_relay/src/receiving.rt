//! Clients that have come, until they are judged; `turning` gives them their turns, and `closing` ends those that are late.
//!
//! A client of a trusted proxy begins by a header, and is judged by what that tells, at the moment at which it is whole. Until then it
//! has a place and its two descriptors, holds no reference, and nobody waits for it.

ghost use Rattle.std.specs.Prelude.{◌≡◌, Some, None, slice_get};
ghost use Rattle.tcp_relay.specs.Counting.{with_one};
ghost use Rattle.tcp_relay.specs.Counts.{more};
ghost use Rattle.tcp_relay.specs.Hearings.{fault_count};
ghost use Rattle.tcp_stats.specs.declared.count.Count.TheVariants.{Rejected};

use crate::addresses::read_ip;
use crate::arrival::Arrival;
use crate::header::Header;
use crate::hearing::{HeaderFault, Hearing};
use crate::listeners::Accepted;
use crate::proxied::Proxied;
use crate::shared::Shared;
use crate::trust::{Expecting, expected_of};
use crate::turning::{EventLoop, take_in};
use crate::waits::Waiting;
use crate::width::Width;
use crate::worker::Worker;
use crate::{Gate, ServeRuntime};
use base_clock::Clock;
use mio::net;
use shard_record::Naming;
use stick_table::Table;
use tcp_link::{Buffer, reset};

/// Receives a client that was accepted: one that isn't to begin by a header is judged now.
pub(crate) fn receive<'a, T: Table, J: Naming, R: ServeRuntime, G: Gate, W: Width>(
    shared: &Shared<'a, R, G, W>,
    worker: &mut Worker<'a, T, J, R, W>,
    event_loop: &mut EventLoop<'a, R, W>,
    buffer: &mut Buffer,
    number: u64,
    place: usize,
    accepted: Accepted,
)
    requires free { slice_get worker.old.places.held.items place ≡ Some None }
{
    // Where no proxy is believed, nothing is asked about a client before it is judged.
    if shared.proxies.is_none() {
        let arrival = Arrival::direct(accepted);
        take_in(shared, worker, event_loop, buffer, number, place, arrival);
        return;
    }
    match expected_of(shared.proxies, read_ip(accepted.peer.ip())) {
        Expecting::Direct => {
            let arrival = Arrival::direct(accepted);
            take_in(shared, worker, event_loop, buffer, number, place, arrival);
        }
        Expecting::Header => {
            let client = Proxied::new(accepted);
            hear_first(shared, worker, event_loop, buffer, number, place, client);
        }
        Expecting::Refused => turn_away(shared, worker, place, accepted, HeaderFault::Untrusted),
    }
}

/// Hears a client that has just come. Most headers are there by then.
fn hear_first<'a, T: Table, J: Naming, R: ServeRuntime, G: Gate, W: Width>(
    shared: &Shared<'a, R, G, W>,
    worker: &mut Worker<'a, T, J, R, W>,
    event_loop: &mut EventLoop<'a, R, W>,
    buffer: &mut Buffer,
    number: u64,
    place: usize,
    client: Proxied<W>,
)
    requires free { slice_get worker.old.places.held.items place ≡ Some None }
{
    let socket = &client.accepted.client;
    // No worker waits for one client: where its socket can't be made so, it goes.
    if socket.set_nonblocking(true).is_err() {
        turn_away(shared, worker, place, client.accepted, HeaderFault::Ended);
        return;
    }
    match event_loop.waits.hear(socket, false) {
        Hearing::WaitOn => wait_for(shared, worker, event_loop, number, place, client),
        Hearing::Told(header) => {
            judge_told(
                shared, worker, event_loop, buffer, number, place, client, header,
            );
        }
        Hearing::Failed(fault) => turn_away(shared, worker, place, client.accepted, fault),
    }
}

/// Has a client waited for until more of it comes.
fn wait_for<'a, T: Table, J: Naming, R: ServeRuntime, G: Gate, W: Width>(
    shared: &Shared<'a, R, G, W>,
    worker: &mut Worker<'a, T, J, R, W>,
    event_loop: &mut EventLoop<'a, R, W>,
    number: u64,
    place: usize,
    client: Proxied<W>,
) {
    let watched = event_loop
        .watch
        .watch_client(&client.accepted.client, place);
    if watched.is_err() {
        turn_away(shared, worker, place, client.accepted, HeaderFault::Ended);
        return;
    }
    let waiting = Waiting {
        client,
        number,
        since: event_loop.sweep.shows(event_loop.clock.now()),
        server: event_loop.acceptor.lend_server(),
    };
    if let Some(waiting) = event_loop.waits.put(place, waiting) {
        let accepted = waiting.client.accepted;
        turn_away(shared, worker, place, accepted, HeaderFault::Ended);
    }
}

/// Hears the client that is waited for in a place, of which there is something new: more bytes, or that it sends no more. False where
/// none is waited for there.
pub(crate) fn hear_again<'a, T: Table, J: Naming, R: ServeRuntime, G: Gate, W: Width>(
    shared: &Shared<'a, R, G, W>,
    worker: &mut Worker<'a, T, J, R, W>,
    event_loop: &mut EventLoop<'a, R, W>,
    buffer: &mut Buffer,
    place: usize,
    is_closed: bool,
) -> bool {
    let Some(waiting) = event_loop.waits.take(place) else {
        return false;
    };
    let socket = &waiting.client.accepted.client;
    match event_loop.waits.hear(socket, is_closed) {
        Hearing::WaitOn => {
            // Its place is free, as it was taken out of it.
            let _ = event_loop.waits.put(place, waiting);
        }
        Hearing::Told(header) => {
            // The connection is watched anew, as what it is then.
            let _ = event_loop.watch.unwatch_client(socket);
            go_on(shared, worker, event_loop, buffer, place, waiting, header);
        }
        Hearing::Failed(fault) => {
            turn_away(shared, worker, place, waiting.client.accepted, fault);
            // It has left its place and its descriptors.
            event_loop.acceptor.try_again();
        }
    }
    true
}

/// Judges a client that was waited for, whose header is whole now.
fn go_on<'a, T: Table, J: Naming, R: ServeRuntime, G: Gate, W: Width>(
    shared: &Shared<'a, R, G, W>,
    worker: &mut Worker<'a, T, J, R, W>,
    event_loop: &mut EventLoop<'a, R, W>,
    buffer: &mut Buffer,
    place: usize,
    waiting: Waiting<W>,
    header: Header,
) {
    let Waiting {
        client,
        number,
        since: _,
        server,
    } = waiting;
    event_loop.acceptor.give_back(server);
    match worker.places.if_free(place) {
        Some(place) => judge_told(
            shared, worker, event_loop, buffer, number, place, client, header,
        ),
        None => turn_away(shared, worker, place, client.accepted, HeaderFault::Ended),
    }
    event_loop.acceptor.try_again();
}

/// Judges a client by what its header tells, of which it is rid then.
fn judge_told<'a, T: Table, J: Naming, R: ServeRuntime, G: Gate, W: Width>(
    shared: &Shared<'a, R, G, W>,
    worker: &mut Worker<'a, T, J, R, W>,
    event_loop: &mut EventLoop<'a, R, W>,
    buffer: &mut Buffer,
    number: u64,
    place: usize,
    client: Proxied<W>,
    header: Header,
)
    requires free { slice_get worker.old.places.held.items place ≡ Some None }
{
    if !event_loop.waits.read(&client.accepted.client, header) {
        turn_away(shared, worker, place, client.accepted, HeaderFault::Ended);
        return;
    }
    worker.counted.count_header();
    let arrival = client.introduced(header);
    take_in(shared, worker, event_loop, buffer, number, place, arrival);
}

/// Resets a client that isn't judged. Its place is free again.
#[inline(never)]
fn turn_away<'a, T: Table, J: Naming, R: ServeRuntime, G, W: Width>(
    shared: &Shared<'a, R, G, W>,
    worker: &mut Worker<'a, T, J, R, W>,
    place: usize,
    accepted: Accepted,
    fault: HeaderFault,
)
    ensures held { worker.new.places.held ≡ worker.old.places.held }
    ensures rejected { worker.new.tally.rejected ≡ more worker.old.tally.rejected }
    ensures counted { worker.new.counted.counts ≡ with_one (fault_count fault) (with_one Rejected worker.old.counted.counts) }
{
    worker.tally.count(false);
    worker.counted.count_unjudged(fault);
    shared.control.note_unjudged(fault, accepted.peer);
    worker.places.free(place);
    reset(shared.rt, net::TcpStream::from_std(accepted.client));
}

/// Resets the clients whose headers are late at a moment in ms, by the clock of silence.
pub(crate) fn end_late<'a, T: Table, J: Naming, R: ServeRuntime, G, W: Width>(
    shared: &Shared<'a, R, G, W>,
    worker: &mut Worker<'a, T, J, R, W>,
    event_loop: &mut EventLoop<'a, R, W>,
    moment: u64,
) {
    let Some(proxies) = shared.proxies else {
        return;
    };
    if event_loop.waits.count() == 0 {
        return;
    }
    for place in 0..event_loop.waits.places() {
        if event_loop.waits.is_late(place, proxies.timeout, moment) {
            end_wait(shared, worker, event_loop, place);
        }
    }
}

/// Resets all clients that are waited for.
pub(crate) fn end_waits<'a, T: Table, J: Naming, R: ServeRuntime, G, W: Width>(
    shared: &Shared<'a, R, G, W>,
    worker: &mut Worker<'a, T, J, R, W>,
    event_loop: &mut EventLoop<'a, R, W>,
) {
    for place in 0..event_loop.waits.places() {
        end_wait(shared, worker, event_loop, place);
    }
}

/// Resets the client that is waited for in a place, if one is, as its header hasn't come.
fn end_wait<'a, T: Table, J: Naming, R: ServeRuntime, G, W: Width>(
    shared: &Shared<'a, R, G, W>,
    worker: &mut Worker<'a, T, J, R, W>,
    event_loop: &mut EventLoop<'a, R, W>,
    place: usize,
) {
    if let Some(waiting) = event_loop.waits.take(place) {
        let accepted = waiting.client.accepted;
        turn_away(shared, worker, place, accepted, HeaderFault::Late);
    }
}
