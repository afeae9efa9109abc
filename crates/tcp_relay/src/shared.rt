//! What all workers share by reference; `serving` makes it, and `turning` and `visiting` read it.

ghost use Rattle.std.specs.Prelude.{◌≡◌, length};
ghost use Rattle.tcp_relay.specs.Addresses.{IsServer};
ghost use Rattle.tcp_relay.specs.Arrivals.{trust_of};
ghost use Rattle.tcp_relay.specs.Seating.{StoreAs};

use crate::Proxies;
use crate::connection_counter::ConnectionCounter;
use crate::control::Control;
use crate::listeners::Listeners;
use crate::versions::Versions;
use crate::width::Width;
use base_clock::Start;
use proxy_header::Version;
use rule_model::Setup;
use std::alloc::Global;
use std::marker::PhantomData;
use std::net::SocketAddr;
use tcp_link::{Liveness, Timeouts};

/// What all workers share, each by reference.
#[derive(Drop)]
pub(crate) struct Shared<'a, R, G, W: Width> {
    pub(crate) alloc: Global,
    pub(crate) rt: &'a R,
    pub(crate) listeners: &'a Listeners<'a>,
    pub(crate) counter: &'a ConnectionCounter,
    /// The rules that serving begins with, and where their server is.
    pub(crate) setup: &'a Setup,
    pub(crate) server: SocketAddr,
    /// Those that have followed them.
    pub(crate) versions: &'a Versions,
    pub(crate) timeouts: Timeouts,
    /// How often a server that refuses a connection is tried again.
    pub(crate) retries: u32,
    pub(crate) liveness: Liveness,
    /// By which version of the PROXY protocol the server is told first who a client is, if it is.
    pub(crate) told_by: Option<Version>,
    /// Which proxies say of their clients who those are, if any do.
    pub(crate) proxies: Option<Proxies<'a>>,
    pub(crate) gate: &'a G,
    pub(crate) control: Control<'a>,
    /// The moment 0.
    pub(crate) start: Start,
    pub(crate) of: PhantomData<W>,
    ghost tables: { length setup.now.tables ≡ W.tables },
    ghost shards: { setup.now.shards ≡ W.shards },
    ghost judges: { setup.now ≡ W.setup },
    ghost trusts: { trust_of proxies ≡ W.trust },
    ghost current: { StoreAs (λ named. named.spec) W.current setup.now.tables },
    ghost reaches: { ∥ IsServer setup.now.server server ∥₁ },
}
