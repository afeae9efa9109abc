//! A client that is judged now, and whom it is taken for; `receiving` makes it, and `opening` carries it if it is admitted.

ghost use Rattle.std.specs.Prelude.{◌≡◌, None};
ghost use Rattle.tcp_relay.specs.Arrivals.{IsFrom, IsIntroduced, expects, samples_by, source_of};
ghost use Rattle.tcp_relay.specs.declared.trust.Expecting.TheVariants.{Direct, Header as Headed};

use crate::addresses::{samples, socket_address};
use crate::header::Header;
use crate::listeners::Accepted;
use crate::width::Width;
use proxy_header::Ends;
use rule_addresses::Endpoint;
use rule_eval::Samples;
use std::marker::PhantomData;
use std::net::SocketAddr;

/// A client that is accepted, and whom it is taken for: itself, where it comes of no trusted proxy, and else whom its header tells. No
/// other is judged.
#[derive(Drop)]
pub(crate) struct Arrival<W: Width> {
    pub(crate) accepted: Accepted,
    /// The ends that its header tells, if it has one that tells some.
    pub(crate) told: Option<Ends>,
    /// Whether its socket waits for nothing already.
    pub(crate) is_nonblocking: bool,
    of: PhantomData<W>,
    ghost introduced: { IsIntroduced (expects W.trust (source_of accepted.peer)) told },
}

impl<W: Width> Arrival<W> {
    /// A client like any.
    #[inline(always)]
    pub(crate) fn direct(accepted: Accepted) -> Arrival<W>
        requires direct { expects W.trust (source_of accepted.peer) ≡ Direct }
        ensures accepted { result.accepted ≡ accepted }
        ensures told { result.told ≡ None }
    {
        Arrival {
            accepted,
            told: None,
            is_nonblocking: false,
            of: PhantomData,
        }
    }

    /// A client that has begun by this header.
    pub(crate) fn headed(accepted: Accepted, header: Header) -> Arrival<W>
        requires headed { expects W.trust (source_of accepted.peer) ≡ Headed }
        ensures accepted { result.accepted ≡ accepted }
        ensures told { result.told ≡ header.ends }
    {
        Arrival {
            accepted,
            told: header.ends,
            is_nonblocking: true,
            of: PhantomData,
        }
    }

    /// Where it is, as far as that is known: as its header tells, or where it connects from.
    pub(crate) fn source(&self) -> SocketAddr
        ensures { IsFrom self.now.told self.now.accepted.peer result }
    {
        match self.told {
            Some(ends) => socket_address(Endpoint {
                address: ends.source,
                port: ends.source_port,
            }),
            None => self.accepted.peer,
        }
    }

    /// What the rules are told of it.
    pub(crate) fn samples(&self) -> Samples
        ensures told { result ≡ samples_by self.now.told self.now.accepted.peer self.now.accepted.port }
    {
        samples(self.told, self.accepted.peer, self.accepted.port)
    }
}
