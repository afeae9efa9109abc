//! A service whose commands are counted while it goes on; `service_threads` wraps those in it that answer commands.

use crate::running_program::ServiceCounts;
use byte_ports::{Sink, Source};
use table_socket::ClientServer;
use tcp_stats::Count;

/// A service whose commands are added, client by client, to what others see.
#[derive(Drop)]
pub(crate) struct Counted<'a, S> {
    service: S,
    counts: &'a ServiceCounts,
}

impl<'a, S> Counted<'a, S> {
    /// This service, counted there.
    pub fn new(service: S, counts: &'a ServiceCounts) -> Self {
        Counted { service, counts }
    }

    /// The service again.
    pub fn into_service(self) -> S {
        let Counted { service, counts: _ } = self;
        service
    }
}

impl<'a, S: ClientServer> ClientServer for Counted<'a, S> {
    ghost State = { S.State };

    ghost state = { λ counted. S.state counted.service };

    ghost visits = { S.visits };

    fn serve_client<R: Source, W: Sink>(&mut self, reader: &mut R, writer: &mut W) -> u64 {
        let count = self.service.serve_client(reader, writer);
        self.counts.add(Count::Commands, count);
        count
    }
}
