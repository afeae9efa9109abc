//! A client that connects from a trusted proxy, until it is known for whom; `receiving` makes it, and `waits` keeps those that are
//! waited for.

ghost use Rattle.std.specs.Prelude.{◌≡◌};
ghost use Rattle.tcp_relay.specs.Arrivals.{expects, source_of};
ghost use Rattle.tcp_relay.specs.declared.trust.Expecting.TheVariants.{Header as Headed};

use crate::arrival::Arrival;
use crate::header::Header;
use crate::listeners::Accepted;
use crate::width::Width;
use std::marker::PhantomData;

/// A client that is accepted, and is to begin by a header. Its socket waits for nothing.
#[derive(Drop)]
pub(crate) struct Proxied<W: Width> {
    pub(crate) accepted: Accepted,
    of: PhantomData<W>,
    ghost trusted: { expects W.trust (source_of accepted.peer) ≡ Headed },
}

impl<W: Width> Proxied<W> {
    /// A client of a trusted proxy.
    pub(crate) fn new(accepted: Accepted) -> Proxied<W>
        requires trusted { expects W.trust (source_of accepted.peer) ≡ Headed }
        ensures accepted { result.accepted ≡ accepted }
    {
        Proxied {
            accepted,
            of: PhantomData,
        }
    }

    /// The client whose header says so who it is.
    pub(crate) fn introduced(self, header: Header) -> Arrival<W>
        ensures accepted { result.accepted ≡ self.accepted }
        ensures told { result.told ≡ header.ends }
    {
        Arrival::headed(self.accepted, header)
    }
}
