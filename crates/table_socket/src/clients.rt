//! The service of a socket's clients, one after the other; `tcp_proxy` calls it on each thread that answers commands.

ghost use Rattle.table_socket.specs.Clients.{ServesClients};

use crate::Served;
use crate::accepting::ClientListener;
use crate::client_server::ClientServer;
use crate::patience::{Times, patiences_of};
use crate::patient_stream::PatientStream;
use base_latch::Latch;
use byte_ports::{
    FlushingSource, GatheringSink, SharedSink, StreamSink, StreamSource, flush_shared,
};
use std::cell::RefCell;
use std::io::ErrorKind;
use std::os::fd::AsRawFd;
use std::sync::Wait;
use std::thread;
use std::time::{Clock, Duration, Instant};

/// Answers the lines of a client on a stream. The answers to what came with one read are written together, before the
/// next read could wait; a client that has gone needs the last ones no more.
fn serve_stream<S: ClientServer, R: Clock>(
    service: &mut S,
    reading: PatientStream<'_, R>,
    writing: PatientStream<'_, R>,
) -> u64
    ensures { S.visits (S.state service.old) result (S.state service.new) }
{
    let gathered = RefCell::new(GatheringSink::new(StreamSink::new(writing)));
    let mut reader = FlushingSource::new(StreamSource::new(reading), &gathered);
    let mut writer = SharedSink::new(&gathered);
    let commands = service.serve_client(&mut reader, &mut writer);
    let _ = flush_shared(&gathered);
    commands
}

/// When a client's time is over that has so many ms for all from now on. None where it has as long as it likes, or no clock can be read:
/// then its silence alone ends it.
fn end_of(rt: &impl Clock, whole: Option<u64>) -> Option<Instant> {
    let whole = Duration::from_millis(whole?);
    Instant::now(rt).ok()?.checked_add(whole)
}

/// Serves the clients of a listener, one after the other, until `stop` is set; several threads may serve one listener, each by a
/// service of its own. A thread without a client sleeps until one comes or `stop` is set; one with a client looks at it each 100 ms,
/// and before the client is asked for more. A client that fails ends its own turn alone; so does one that has sent or taken nothing
/// for as long as its times say, or takes longer for all than they do. Where no client can be accepted, as for want of file descriptors,
/// that is counted, and the next try comes 10 ms later.
pub fn serve_clients<L: ClientListener + AsRawFd, S: ClientServer, R: Wait + Clock>(
    rt: &R,
    listener: &L,
    service: &mut S,
    stop: &Latch,
    times: Times,
) -> Served
    ensures { ServesClients S.visits (S.state service.old) result (S.state service.new) }
{
    let most = patiences_of(times.silence);
    let mut served = Served {
        clients: 0,
        commands: 0,
        unaccepted: 0,
    };
    for _ in rt.forever() {
        stop.wait_beside(rt, listener);
        if stop.is_set() {
            return served;
        }
        let stream = match listener.accept_client() {
            Ok(stream) => stream,
            // Another thread was sooner.
            Err(reason) if reason.kind() == ErrorKind::WouldBlock => continue,
            Err(_reason) => {
                served.note_unaccepted();
                thread::sleep(rt, Duration::from_millis(10));
                continue;
            }
        };
        let end = end_of(rt, times.whole);
        let reading = PatientStream {
            rt,
            stream: &stream,
            stop: stop.flag(),
            most,
            end,
        };
        let writing = PatientStream {
            rt,
            stream: &stream,
            stop: stop.flag(),
            most,
            end,
        };
        served.note_client(serve_stream(service, reading, writing));
    }
    served
}
