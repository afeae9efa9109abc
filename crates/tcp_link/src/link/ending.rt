//! Why a link ends: which timeout is over, or why its server wasn't reached; `tcp_relay` counts by it.

ghost use Rattle.std.specs.Prelude.{◌≡◌, false, true, IsNone};
ghost use Rattle.tcp_link.specs.Lateness.{lateness, timeout_of};
ghost use Rattle.tcp_link.specs.Links.{must_be_accepted, waits};

use super::{Link, is_held_up};
use crate::connect_fault::connect_fault_of;
use crate::{ConnectFault, Lateness, Timeouts};
use std::net::SocketAddr;

impl Link {
    /// Which timeout is over, if a peer is late, as `is_late` says.
    pub fn lateness(&mut self, moment: u64, timeouts: &Timeouts) -> Option<Lateness>
        ensures late { result ≡ lateness self.new moment timeouts.now }
        ensures same { self.new ≡ record self.old { accepted = self.new.accepted } }
        ensures known { waits self.old ≡ false → must_be_accepted self.old ≡ true → self.new.accepted ≡ true }
        ensures waiting { waits self.old ≡ true → self.new ≡ self.old }
    {
        if !self.is_late(moment, timeouts) {
            return None;
        }
        Some(self.timeout(moment, timeouts))
    }

    /// The timeout of one that is late.
    fn timeout(&self, moment: u64, timeouts: &Timeouts) -> Lateness
        ensures { result ≡ timeout_of self.now moment timeouts.now }
    {
        if !self.is_accepted {
            return Lateness::Connect;
        }
        let has_ended = self.has_ended();
        if has_ended && timeouts.fin.is_some() {
            return Lateness::Fin;
        }
        let limit = timeouts.limit(has_ended, timeouts.client);
        let is_free = !is_held_up(self.there.step, self.back.step);
        if is_free && self.client.is_silent_for(moment, limit) {
            return Lateness::Client;
        }
        Lateness::Server
    }

    /// Why its server wasn't reached, where a connect has failed. None where the server has accepted.
    pub fn connect_fault(&self) -> Option<ConnectFault>
        ensures accepted { must_be_accepted self.now ≡ true → IsNone result }
    {
        if self.is_accepted || self.has_passed() {
            return None;
        }
        connect_fault_of(self.server.error()?)
    }

    /// The number of the system's error by which its server wasn't reached (connect(2)). None where the server has accepted.
    pub fn connect_error(&self) -> Option<u32>
        ensures accepted { must_be_accepted self.now ≡ true → IsNone result }
    {
        if self.has_passed() || self.is_accepted {
            return None;
        }
        self.server.error()
    }

    /// Where its client came from, as the system says it. None where the client is gone.
    pub fn peer(&self) -> Option<SocketAddr> {
        self.client.socket.peer_addr().ok()
    }
}
