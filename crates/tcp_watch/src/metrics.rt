//! The service of HTTP clients that scrape metrics; `tcp_proxy` has one for each thread that serves them.

use crate::program::Program;
use crate::teller::Teller;
use base_clock::Clock;
use byte_ports::{Sink, Source, write_all};
use shard_book::Keeper;
use table_socket::ClientServer;
use tcp_stats::{HttpRequest, MOST_BYTES, push_response, read_request};

/// How many bytes of a request are read: one that is longer is none.
const ROOM: usize = MOST_BYTES + 1;

/// How many reads a request takes at most: each has a byte at least, and one look more sees that there is no room.
const MOST_READS: usize = ROOM + 1;

/// Answers a request of each client, and then closes.
#[derive(Drop)]
pub struct MetricsService<'p, K, C, P> {
    pub teller: Teller<'p, K, C, P>,
}

/// The request of a client. None where it ends before that, fails or is too slow: how long it may take is its reader's. Each read has
/// a byte at least.
fn read_one<R: Source>(reader: &mut R) -> Option<HttpRequest> {
    let mut bytes = [0u8; ROOM];
    let mut end = 0usize;
    for _read in 0..MOST_READS {
        if end >= ROOM {
            return Some(HttpRequest::Bad);
        }
        match reader.read(&mut bytes[end..]) {
            Ok(0) | Err(_) => return None,
            Ok(count) => end += count,
        }
        match read_request(&bytes[..end]) {
            HttpRequest::Unfinished => {}
            request => return Some(request),
        }
    }
    None
}

impl<'p, K: Keeper, C: Clock, P: Program> MetricsService<'p, K, C, P> {
    /// The body of the answer to a request: the metrics, where those are asked for and can be had.
    fn body_of(&mut self, request: HttpRequest) -> Option<Vec<u8>> {
        match request {
            HttpRequest::Metrics(_) => self.teller.tell_metrics().ok(),
            _ => Some(Vec::new(self.teller.alloc)),
        }
    }

    /// Answers a request. A client is sent nothing where there is no memory for it.
    fn respond<W: Sink>(&mut self, request: HttpRequest, writer: &mut W) {
        let Some(body) = self.body_of(request) else {
            return;
        };
        let mut text = Vec::new(self.teller.alloc);
        if push_response(&mut text, request, body.as_slice()).is_ok() {
            let _ = write_all(writer, text.as_slice());
        }
    }
}

impl<'p, K: Keeper, C: Clock, P: Program> ClientServer for MetricsService<'p, K, C, P> {
    ghost use Rattle.std.specs.Prelude.{ℕ};

    ghost State = { Unit {0} };

    ghost state = { λ service. tt };

    ghost visits = { λ old count new. Unit {0} };

    fn serve_client<R: Source, W: Sink>(&mut self, reader: &mut R, writer: &mut W) -> u64 {
        match read_one(reader) {
            Some(request) => {
                self.respond(request, writer);
                1
            }
            None => 0,
        }
    }
}
