//! The rules by which a worker judges whoever comes; `turning` follows the newest before each client.

ghost use Rattle.std.specs.Prelude.{◌≡◌, length, is_some, true};
ghost use Rattle.rule_change.specs.Versions.{IsVersionOf};
ghost use Rattle.tcp_relay.specs.Addresses.{IsServer};
ghost use Rattle.tcp_relay.specs.Seating.{StoreAs};

use crate::addresses::socket_address;
use crate::versions::Versions;
use crate::width::Width;
use rule_change::is_version_of;
use rule_model::Setup;
use std::marker::PhantomData;
use std::net::SocketAddr;

/// A version of the rules, and where its server is. Whatever is published, a worker judges by no rules but a version of those that it
/// began with: over the same tables, in as many shards.
#[derive(Drop)]
pub(crate) struct Rules<'a, W: Width> {
    pub(crate) setup: &'a Setup,
    pub(crate) server: SocketAddr,
    /// How many versions had followed the first as this one was looked for.
    followed: usize,
    of: PhantomData<W>,
    ghost version: { IsVersionOf W.setup setup.now },
    ghost tables: { length setup.now.tables ≡ W.tables },
    ghost shards: { setup.now.shards ≡ W.shards },
    ghost current: { StoreAs (λ named. named.spec) W.current setup.now.tables },
    ghost reaches: { ∥ IsServer setup.now.server server ∥₁ },
}

impl<'a, W: Width> Rules<'a, W> {
    /// Those that serving begins with.
    pub(crate) fn first(setup: &'a Setup, server: SocketAddr) -> Rules<'a, W>
        requires judges { setup.now ≡ W.setup }
        requires tables { length setup.now.tables ≡ W.tables }
        requires shards { setup.now.shards ≡ W.shards }
        requires current { StoreAs (λ named. named.spec) W.current setup.now.tables }
        requires reaches { ∥ IsServer setup.now.server server ∥₁ }
        ensures setup { result.setup.now ≡ setup.now }
    {
        Rules {
            setup,
            server,
            followed: 0,
            of: PhantomData,
        }
    }

    /// Goes over to the newest version that was published, if that isn't at hand already.
    #[inline(always)]
    pub(crate) fn follow(&mut self, first: &Setup, versions: &'a Versions)
        requires first { first.now ≡ W.setup }
    {
        let count = versions.count();
        if count != self.followed {
            self.go_over(first, versions, count);
        }
    }

    /// Goes over to the last of so many versions that have followed the first.
    #[inline(never)]
    fn go_over(&mut self, first: &Setup, versions: &'a Versions, count: usize)
        requires first { first.now ≡ W.setup }
    {
        self.followed = count;
        let Some(version) = versions.last_of(count) else {
            return;
        };
        let setup = &version.setup;
        let Some(server) = setup.server else {
            return;
        };
        if is_version_of(first, setup) {
            *self = Rules {
                setup,
                server: socket_address(server),
                followed: count,
                of: PhantomData,
            };
        }
    }
}
