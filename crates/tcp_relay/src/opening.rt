//! An admitted client is connected to its server; `turning` calls `carry` for it, and nobody else opens a link.

ghost use Rattle.std.specs.Prelude.{◌≡◌, IfSome, Some, None, slice_get};
ghost use Rattle.admit_core.specs.Conn.{needed};
ghost use Rattle.admit_core.specs.declared.need.Need.TheVariants.{Rest};
ghost use Rattle.tcp_relay.specs.Arrivals.{samples_by};
ghost use Rattle.tcp_relay.specs.Connections.{IsVisitor};
ghost use Rattle.tcp_relay.specs.Passed.{HasPassedAs};
ghost use Rattle.tcp_relay.specs.Traffics.{none};

use crate::ServeRuntime;
use crate::admitted::Admitted;
use crate::arrival::Arrival;
use crate::closing::ended_of;
use crate::fates::{Ended, Ending};
use crate::greeting::greeting_of;
use crate::listeners::Accepted;
use crate::shared::Shared;
use crate::traffic::Traffic;
use crate::turning::EventLoop;
use crate::visiting::end_admitted;
use crate::width::Width;
use crate::worker::Worker;
use admit_core::Conn;
use base_clock::{Clock, RunningClock};
use mio::net;
use shard_locks::SharedRef;
use shard_record::Naming;
use std::net::Net;
use stick_table::Table;
use tcp_link::{Buffer, Link, ServerSocket, Unopened};

/// The sockets that an admitted connection still has as it ends before it goes on. Its client hears of the end once they are closed.
#[derive(Drop)]
enum Sockets {
    /// The client's alone.
    Client(net::TcpStream),
    /// The client's, and the server's.
    Both(Link),
}

impl Sockets {
    /// Closes them.
    fn close(self, rt: &impl Net) {
        match self {
            Sockets::Client(_client) => {}
            Sockets::Both(link) => link.close(rt),
        }
    }
}

/// An admitted connection that doesn't go on. Its sockets are open still: its references go back before its client hears of the end.
#[derive(Drop)]
struct Unbegun {
    ended: Ended,
    sockets: Sockets,
}

impl Unbegun {
    /// The end of a connection of which only the client's socket is there.
    fn of_client(client: net::TcpStream, ending: Ending) -> Unbegun
        ensures ended { result.ended ≡ record { ending = ending; traffic = none; counted = none } }
    {
        Unbegun {
            ended: Ended::unbegun(ending),
            sockets: Sockets::Client(client),
        }
    }
}

/// Carries an admitted client to its server. It stands apart from what a rejected one goes through, which needs none of its memory.
#[inline(never)]
pub(crate) fn carry<'a, T: Table, J: Naming, R: ServeRuntime, G, W: Width>(
    shared: &Shared<'a, R, G, W>,
    worker: &mut Worker<'a, T, J, R, W>,
    event_loop: &mut EventLoop<'a, R, W>,
    buffer: &mut Buffer,
    place: usize,
    arrival: Arrival<W>,
    conn: Conn<'a, SharedRef<J>>,
    admitted: Admitted<'a, J>,
)
    requires connection { IsVisitor W.tables W.shards conn }
    requires rests { needed conn ≡ Rest }
    requires passed { HasPassedAs event_loop.old.rules.setup.now (samples_by arrival.told arrival.accepted.peer arrival.accepted.port) worker.old.seated.items conn }
    requires free { slice_get worker.old.places.held.items place ≡ Some None }
    requires sign { admitted.conn.value ≡ conn }
{
    shared.control.gauge.enter();
    let moment = event_loop.sweep.shows(event_loop.clock.now());
    match begin(shared, event_loop, buffer, place, arrival, moment, admitted) {
        Ok(link) => worker.places.put_open(place, conn, link),
        Err(unbegun) => {
            let Unbegun { ended, sockets } = unbegun;
            // First its references: a client that hears of the end may come again at once.
            end_admitted(shared, worker, &mut event_loop.clock, place, conn, ended);
            sockets.close(shared.rt);
        }
    }
}

/// A socket for the server of the client that was judged last: the one at hand, or a new one where that is for the server of the rules
/// before.
#[inline(always)]
fn server_socket<'a, R: ServeRuntime, G, W: Width>(
    shared: &Shared<'a, R, G, W>,
    event_loop: &mut EventLoop<'a, R, W>,
) -> Option<ServerSocket>
    ensures server { IfSome result (λ socket. socket.server ≡ event_loop.old.rules.server) }
    ensures rules { event_loop.new.rules ≡ event_loop.old.rules }
{
    let server = event_loop.rules.server;
    match event_loop.acceptor.take_server(server) {
        Some(socket) => Some(socket),
        None => ServerSocket::open(shared.rt, server, shared.liveness).ok(),
    }
}

/// Connects an admitted client to its server, and moves what is there already. Where that is over at once, how it ended.
fn begin<'a, J: Naming, R: ServeRuntime, G, W: Width>(
    shared: &Shared<'a, R, G, W>,
    event_loop: &mut EventLoop<'a, R, W>,
    buffer: &mut Buffer,
    place: usize,
    arrival: Arrival<W>,
    moment: u64,
    _admitted: Admitted<'a, J>,
) -> Result<Link, Unbegun> {
    let (told, is_nonblocking) = (arrival.told, arrival.is_nonblocking);
    let Accepted { client, peer, .. } = arrival.accepted;
    // Only now: a rejected client needs it not.
    let has_failed = !is_nonblocking && client.set_nonblocking(true).is_err();
    let greeting = greeting_of(shared.alloc, shared.told_by, &client, peer, told);
    let client = net::TcpStream::from_std(client);
    let (Some(greeting), false) = (greeting, has_failed) else {
        return Err(Unbegun::of_client(client, Ending::Over));
    };
    let Some(server) = server_socket(shared, event_loop) else {
        return Err(Unbegun::of_client(client, Ending::Over));
    };
    let retries = shared.retries;
    match Link::open(shared.rt, client, server, greeting, moment, retries) {
        Ok(link) => start(shared, event_loop, buffer, place, link, moment),
        Err(unopened) => {
            let Unopened { client, unreached } = unopened;
            shared.control.note_unreached(unreached, peer);
            let ending = Ending::Unreached(unreached.fault);
            Err(Unbegun::of_client(client, ending))
        }
    }
}

/// Moves what the client has sent already. Where the connection is over at once, how it ended.
fn start<'a, R: ServeRuntime, G, W: Width>(
    shared: &Shared<'a, R, G, W>,
    event_loop: &mut EventLoop<'a, R, W>,
    buffer: &mut Buffer,
    place: usize,
    mut link: Link,
    moment: u64,
) -> Result<Link, Unbegun> {
    if link.start(event_loop.watch.registry(), place, moment, buffer) {
        return Ok(link);
    }
    let ended = ended_of(&link, Traffic::none(), None);
    shared.control.note_end(ended.ending, &link);
    Err(Unbegun {
        ended,
        sockets: Sockets::Both(link),
    })
}
