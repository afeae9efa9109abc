//! How a link waits where its server refuses it, and how that is tried again; `tcp_relay` calls `retry` once it is due.

ghost use Rattle.std.specs.Prelude.{◌≡◌, ◌&&◌, true, false, not, IsTrue};
ghost use Rattle.tcp_link.specs.Links.{HandsOn, IsHeard, IsWatched, is_over, waits};
ghost use Rattle.tcp_link.specs.Retries.{IfRetried, is_due, may_retry, noted, refused_again, refused_at, retried_at};
ghost use Rattle.tcp_link.specs.Ways.{Advances};

use super::Link;
use crate::connect_fault::connect_fault_of;
use crate::end::{End, Side};
use crate::way::Way;
use crate::{Buffer, Ready, ServerSocket};
use mio::Registry;
use mio::net::TcpStream;
use tcp_flow::Step;

/// How many ms pass before a server that refused is tried again.
const PAUSE: u64 = 1_000;

impl Link {
    /// Whether its server refused it, and is to be tried again at a moment in ms.
    pub fn is_due(&self, moment: u64) -> bool
        ensures { result ≡ is_due self.now moment }
    {
        match self.refused {
            Some(refused) => moment.saturating_sub(refused) >= PAUSE,
            None => false,
        }
    }

    /// Connects it anew, through a socket that has not been connected, where it waits; has that socket reported, and moves what
    /// the client has sent already. Whether it goes on, as `start` says. Where the system says at once that it can't connect,
    /// it waits once more, or is over where no try is left.
    pub fn retry(
        &mut self,
        server: ServerSocket,
        registry: &Registry,
        number: usize,
        moment: u64,
        buffer: &mut Buffer,
    ) -> bool
        ensures there { IfRetried self.old self.new (Advances self.old.there self.new.there) }
        ensures back { IfRetried self.old self.new (self.new.back ≡ self.old.back) }
        ensures heard { IfRetried self.old self.new (IsHeard moment (retried_at moment self.old) self.new) }
        ensures ends { IfRetried self.old self.new (HandsOn false (retried_at moment self.old) self.new) }
        ensures going { IsTrue result → is_over self.new ≡ false }
        ensures watched { IfRetried self.old self.new (IsTrue result → IsWatched self.new) }
        ensures tries { IfRetried self.old self.new (self.new.tries ≡ self.old.tries) }
        ensures refused { waits self.old ≡ true → waits self.new ≡ true → (self.new ≡ refused_again moment self.old) × (result ≡ (may_retry self.old && not (is_over self.new))) }
        ensures idle { waits self.old ≡ false → (self.new ≡ self.old) × (result ≡ not (is_over self.old)) }
    {
        if !self.waits() {
            return !self.is_over();
        }
        match server.connect() {
            Ok(socket) => self.connect_anew(socket, moment),
            Err(refusal) => return self.refuse_again(refusal.number, moment) && !self.is_over(),
        }
        self.carry_there(moment, buffer);
        self.hand_on();
        if self.is_over() || self.is_settled(moment) {
            return false;
        }
        let token = Side::Server.token(number);
        self.server.watch(registry, token).is_ok() && self.watch_on(registry, number).is_ok()
    }

    /// Whether its server has refused it, and isn't tried again yet.
    pub(super) fn waits(&self) -> bool
        ensures { result ≡ waits self.now }
    {
        self.refused.is_some()
    }

    /// Whether its server is tried again where it refuses.
    pub(super) fn may_retry(&self) -> bool
        ensures { result ≡ may_retry self.now }
    {
        let is_accepted = self.is_accepted || self.has_passed();
        self.tries > 0 && !is_accepted && !matches!(self.there.step, Step::Failed(_))
    }

    /// Whether the error by which its server failed is that of a connect, so that it never accepted (connect(2)).
    pub(super) fn was_refused(&self) -> bool {
        self.server.error().and_then(connect_fault_of).is_some()
    }

    /// Has it wait, as its server refuses it at a moment in ms.
    pub(super) fn refuse(&mut self, moment: u64)
        ensures { self.new ≡ refused_at moment self.old }
    {
        self.back = Way::new(self.alloc);
        self.tries = self.tries.saturating_sub(1);
        self.refused = Some(moment);
    }

    /// The same where it waited already, if a try is left, by an error of this number. Whether it waits once more.
    fn refuse_again(&mut self, number: u32, moment: u64) -> bool
        ensures new { self.new ≡ refused_again moment self.old }
        ensures may { result ≡ may_retry self.old }
        ensures waits { waits self.old ≡ true → waits self.new ≡ true }
    {
        self.server.note(number);
        if !self.may_retry() {
            return false;
        }
        self.refuse(moment);
        true
    }

    /// Puts another socket in the place of the one that was refused.
    fn connect_anew(&mut self, socket: TcpStream, moment: u64)
        ensures { self.new ≡ retried_at moment self.old }
    {
        self.server = End::new(socket, moment);
        self.is_accepted = false;
        self.refused = None;
    }

    /// Keeps what is told of the client, for the next try. There is none for one that has failed.
    pub(super) fn note(&mut self, ready: Ready)
        ensures { self.new ≡ noted ready.side ready.ahead ready.has_failed self.old }
    {
        if ready.side == Side::Client {
            self.there.hear_of(ready.ahead);
            self.is_gone = self.is_gone || ready.has_failed;
        }
    }
}
