//! A connection between two sockets: it begins, has turns, and closes; `tcp_relay` calls it for each admitted client.

ghost use Rattle.std.specs.Prelude.{◌≡◌, ◌||◌, not, true, false, IsTrue, OnOk};
ghost use Rattle.tcp_link.specs.Closing.{closing};
ghost use Rattle.tcp_link.specs.Links.{AdvancesIfItWaited, DropsOnly, HandsOn, IsGone, IsHeard, IsWatched, KeepsButAccepted, KeepsWhatIsKnown, bytes, has_ended, has_passed, is_held_up, is_late, is_over, must_be_accepted, owes_client, owes_server, waits, way_from, way_to};
ghost use Rattle.tcp_link.specs.Retries.{IfTried, IsRefused, fails_unread, may_retry, noted, tells_refusal};
ghost use Rattle.tcp_link.specs.Silence.{heard_last};
ghost use Rattle.tcp_link.specs.Ways.{Advances, IsWay, told_also};

mod ending;
mod finishing;
mod opening;
mod retrying;

use crate::closing::Closing;
use crate::end::{End, Side};
use crate::loss::Rest;
use crate::way::Way;
use crate::{Buffer, Ready, Timeouts};
use mio::Registry;
use std::alloc::Global;
use std::io;
use std::marker::Model;
use std::net::Net;
use tcp_flow::{Cause, Step};

/// Both sockets of a connection, and both directions between them. `close` closes both; dropping it closes both in order.
#[derive(Drop)]
pub struct Link {
    client: End,
    server: End,
    there: Way,
    back: Way,
    /// Whether the server is known to have accepted the connection.
    is_accepted: bool,
    /// How often a server that refuses may still be tried again.
    tries: u32,
    /// When it refused, in ms, where the next try is waited for.
    refused: Option<u64>,
    /// Whether its client has failed, and no server has accepted.
    is_gone: bool,
    /// How many bytes the server is given before the client's.
    greeting: u64,
    /// From where a direction that begins anew takes memory.
    alloc: Global,
}

impl Model for Link {
    ghost use Rattle.tcp_link.specs.Links.{LinkState};
    ghost use Rattle.tcp_link.specs.Ways.{IsWay};

    ghost Value = { LinkState };

    ghost view = { λ link. record { there = link.there; back = link.back; client = link.client.heard; server = link.server.heard; accepted = link.is_accepted; client_told = link.client.is_told; server_told = link.server.is_told; client_watched = link.client.watches_room; server_watched = link.server.watches_room; client_wrote = link.client.wrote; server_wrote = link.server.wrote; client_loss = link.client.loss; server_loss = link.server.loss; tries = link.tries; refused = link.refused; gone = link.is_gone; greeting = link.greeting } };

    ghost invariant = { λ link. IsWay link.there × IsWay link.back };
}

impl Link {
    /// Has both sockets reported as those of the connection with this number, which is below 2^63, and moves what the client
    /// has sent already. Whether it goes on: not where it is over, or the system refuses to report a socket. Where it waits,
    /// its client alone is reported, and nothing moves.
    pub fn start(
        &mut self,
        registry: &Registry,
        number: usize,
        moment: u64,
        buffer: &mut Buffer,
    ) -> bool
        ensures there { waits self.old ≡ false → Advances self.old.there self.new.there }
        ensures back { self.new.back ≡ self.old.back }
        ensures heard { waits self.old ≡ false → IsHeard moment self.old self.new }
        ensures ends { waits self.old ≡ false → HandsOn false self.old self.new }
        ensures going { IsTrue result → is_over self.new ≡ false }
        ensures watched { waits self.old ≡ false → IsTrue result → IsWatched self.new }
        ensures tries { (self.new.tries ≡ self.old.tries) × (self.new.refused ≡ self.old.refused) }
        ensures waiting { waits self.old ≡ true → self.new ≡ self.old }
    {
        if self.waits() {
            let token = Side::Client.token(number);
            return !self.is_over() && self.client.watch(registry, token).is_ok();
        }
        self.carry_there(moment, buffer);
        self.hand_on();
        if self.is_over() || self.is_settled(moment) {
            return false;
        }
        self.watch(registry, number).is_ok() && self.watch_on(registry, number).is_ok()
    }

    /// Moves what can be moved now that a socket is ready: what its peer has sent, and what waited for room there. Whether it
    /// goes on: not where it is over, or the system refuses to report a socket. How much a socket gives or takes is the
    /// system's to say: one that isn't ready moves nothing.
    ///
    /// Where the server refuses it and may be tried again, it waits from this moment on. While it waits nothing moves: what is
    /// told of the client is kept, and of the server nothing is told.
    pub fn turn(
        &mut self,
        registry: &Registry,
        ready: Ready,
        moment: u64,
        buffer: &mut Buffer,
    ) -> bool
        ensures from { IfTried self.old self.new (Advances (told_also (way_from ready.side self.old) ready.ahead) (way_from ready.side self.new)) }
        ensures to { IfTried self.old self.new (AdvancesIfItWaited (way_to ready.side self.old) (way_to ready.side self.new)) }
        ensures heard { IfTried self.old self.new (IsHeard moment self.old self.new) }
        ensures ends { IfTried self.old self.new (HandsOn ready.has_failed self.old self.new) }
        ensures drops { IfTried self.old self.new (DropsOnly self.old self.new) }
        ensures gone { IfTried self.old self.new (IsGone ready.side ready.has_failed self.old self.new) }
        ensures going { IsTrue result → is_over self.new ≡ false }
        ensures watched { IfTried self.old self.new (IsTrue result → IsWatched self.new) }
        ensures tries { IfTried self.old self.new (self.new.tries ≡ self.old.tries) }
        ensures unrefused { IfTried self.old self.new (tells_refusal self.old ready.side ready.has_failed ≡ true → fails_unread self.new.back ≡ true → self.new.accepted ≡ true) }
        ensures refused { waits self.old ≡ false → waits self.new ≡ true → IsRefused ready.side ready.has_failed moment self.old self.new × (result ≡ not (is_over self.new)) }
        ensures waiting { waits self.old ≡ true → (self.new ≡ noted ready.side ready.ahead ready.has_failed self.old) × (result ≡ not (is_over self.new)) }
    {
        if self.waits() {
            self.note(ready);
            return !self.is_over();
        }
        if self.turn_side(ready, moment, buffer) {
            return !self.is_over();
        }
        self.finish_turn(ready, buffer);
        !self.is_over() && !self.is_settled(moment) && self.watch_on(registry, ready.number).is_ok()
    }

    /// Moves what can be moved now that a socket is ready. Whether the server refused it, so that it waits from now on.
    fn turn_side(&mut self, ready: Ready, moment: u64, buffer: &mut Buffer) -> bool
        ensures from { result ≡ false → Advances (told_also (way_from ready.side self.old) ready.ahead) (way_from ready.side self.new) }
        ensures to { result ≡ false → AdvancesIfItWaited (way_to ready.side self.old) (way_to ready.side self.new) }
        ensures heard { result ≡ false → IsHeard moment self.old self.new }
        ensures same { result ≡ false → KeepsButAccepted ready.has_failed self.old self.new }
        ensures unrefused { result ≡ false → tells_refusal self.old ready.side ready.has_failed ≡ true → fails_unread self.new.back ≡ true → self.new.accepted ≡ true }
        ensures refused { result ≡ true → IsRefused ready.side ready.has_failed moment self.old self.new }
    {
        match ready.side {
            Side::Client => {
                self.turn_client(ready, moment, buffer);
                false
            }
            Side::Server => self.turn_server(ready, moment, buffer),
        }
    }

    /// The client is ready: it may have sent something, or have room for what is kept.
    fn turn_client(&mut self, ready: Ready, moment: u64, buffer: &mut Buffer)
        ensures there { Advances (told_also self.old.there ready.ahead) self.new.there }
        ensures back { AdvancesIfItWaited self.old.back self.new.back }
        ensures heard { IsHeard moment self.old self.new }
        ensures same { KeepsWhatIsKnown self.old self.new }
    {
        self.there.hear_of(ready.ahead);
        self.carry_there(moment, buffer);
        if self.back.step == Step::WaitsToWrite {
            self.carry_back(moment, buffer);
        }
    }

    /// The server is ready: it may have sent something, or have room for what is kept. Or it refuses the connection; whether it
    /// does, and it is to be tried again.
    fn turn_server(&mut self, ready: Ready, moment: u64, buffer: &mut Buffer) -> bool
        ensures back { result ≡ false → Advances (told_also self.old.back ready.ahead) self.new.back }
        ensures there { result ≡ false → AdvancesIfItWaited self.old.there self.new.there }
        ensures heard { result ≡ false → IsHeard moment self.old self.new }
        ensures same { result ≡ false → KeepsButAccepted ready.has_failed self.old self.new }
        ensures unrefused { result ≡ false → tells_refusal self.old Side.Server ready.has_failed ≡ true → fails_unread self.new.back ≡ true → self.new.accepted ≡ true }
        ensures refused { result ≡ true → IsRefused Side.Server ready.has_failed moment self.old self.new }
    {
        let may_refuse = ready.has_failed && self.may_retry();
        self.back.hear_of(ready.ahead);
        self.carry_back(moment, buffer);
        if may_refuse && self.back.fails_unread() {
            if self.was_refused() {
                self.refuse(moment);
                return true;
            }
            self.is_accepted = true;
        }
        if self.there.step == Step::WaitsToWrite {
            self.carry_there(moment, buffer);
        }
        false
    }

    fn carry_there(&mut self, moment: u64, buffer: &mut Buffer)
        ensures there { Advances self.old.there self.new.there }
        ensures back { self.new.back ≡ self.old.back }
        ensures heard { IsHeard moment self.old self.new }
        ensures same { KeepsWhatIsKnown self.old self.new }
    {
        let is_asked = self.may_retry();
        self.there.turn(&mut self.client, &mut self.server, is_asked, moment, buffer);
    }

    fn carry_back(&mut self, moment: u64, buffer: &mut Buffer)
        ensures back { Advances self.old.back self.new.back }
        ensures there { self.new.there ≡ self.old.there }
        ensures heard { IsHeard moment self.old self.new }
        ensures same { KeepsWhatIsKnown self.old self.new }
    {
        self.back
            .turn(&mut self.server, &mut self.client, false, moment, buffer);
    }

    /// Tells each side that the other has ended, where it is to be told so now: the server not before it has accepted, as the
    /// system undoes what isn't connected yet where its writing side is shut.
    fn hand_on(&mut self)
        ensures ends { HandsOn false self.old self.new }
        ensures same { self.new ≡ record self.old { accepted = self.new.accepted; client_told = self.new.client_told; server_told = self.new.server_told } }
    {
        if self.owes_client() {
            self.client.tell_end();
        }
        if self.owes_server() && self.is_accepted() {
            self.server.tell_end();
        }
    }

    /// Whether the server has ended and the client is still to be told so. Where the connection is over, closing tells it.
    fn owes_client(&self) -> bool
        ensures { result ≡ owes_client self.now }
    {
        self.back.step == Step::Ended && !self.is_over() && !self.client.is_told
    }

    /// Whether the client has ended and the server is still to be told so.
    fn owes_server(&self) -> bool
        ensures { result ≡ owes_server self.now }
    {
        self.there.step == Step::Ended && !self.is_over() && !self.server.is_told
    }

    fn watch(&mut self, registry: &Registry, number: usize) -> io::Result<()>
        ensures same { self.new ≡ self.old }
    {
        self.client.watch(registry, Side::Client.token(number))?;
        self.server.watch(registry, Side::Server.token(number))
    }

    /// Has the sockets reported for which a direction waits, or which has more to do.
    fn watch_on(&mut self, registry: &Registry, number: usize) -> io::Result<()>
        ensures same { self.new ≡ record self.old { client_watched = self.new.client_watched; server_watched = self.new.server_watched } }
        ensures watched { OnOk result (IsWatched self.new) }
    {
        let (client, server) = (Side::Client.token(number), Side::Server.token(number));
        match self.there.step {
            Step::WaitsToWrite => self.server.watch_room(registry, server)?,
            Step::Yields => self.client.watch_again(registry, client)?,
            // It has room as soon as it has accepted.
            Step::Ended if self.owes_server() => self.server.watch_room(registry, server)?,
            Step::Failed(Cause::Write) if self.client.loss.rest == Rest::More => {
                self.client.watch_again(registry, client)?;
            }
            _ => {}
        }
        match self.back.step {
            Step::WaitsToWrite => self.client.watch_room(registry, client),
            Step::Yields => self.server.watch_again(registry, server),
            Step::Failed(Cause::Write) if self.server.loss.rest == Rest::More => {
                self.server.watch_again(registry, server)
            }
            _ => Ok(()),
        }
    }

    /// Whether the server has accepted the connection: it has where something has passed there, and else the system is asked.
    fn is_accepted(&mut self) -> bool
        ensures same { self.new ≡ record self.old { accepted = result } }
        ensures known { must_be_accepted self.old ≡ true → result ≡ true }
    {
        if !self.is_accepted {
            self.is_accepted = self.has_passed() || self.server.socket.peer_addr().is_ok();
        }
        self.is_accepted
    }

    /// Whether a byte or an end has passed to or from the server.
    fn has_passed(&self) -> bool
        ensures { result ≡ has_passed self.now }
    {
        self.there.direction.written() > 0
            || self.back.direction.read() > 0
            || self.back.step == Step::Ended
            || self.client.is_told
    }

    /// Whether one side has ended or failed.
    fn has_ended(&self) -> bool
        ensures { result ≡ has_ended self.now }
    {
        self.there.step.is_last() || self.back.step.is_last()
    }

    /// Whether, at a moment in ms, a peer has been silent for as long as it may, or longer: the server until it has accepted the
    /// connection, and then each of both that isn't held up by the other. Silence counts from when something passed last. Where nothing
    /// has passed at the server, the system is asked whether it has accepted. None is late while the connection waits.
    pub fn is_late(&mut self, moment: u64, timeouts: &Timeouts) -> bool
        ensures late { result ≡ is_late self.new moment timeouts.now }
        ensures same { self.new ≡ record self.old { accepted = self.new.accepted } }
        ensures known { waits self.old ≡ false → must_be_accepted self.old ≡ true → self.new.accepted ≡ true }
        ensures waiting { waits self.old ≡ true → self.new ≡ self.old }
    {
        if self.refused.is_some() {
            return false;
        }
        if !self.is_accepted() {
            return self.server.is_silent_for(moment, Some(timeouts.connect));
        }
        let client = timeouts.limit(self.has_ended(), timeouts.client);
        let server = timeouts.limit(self.has_ended(), timeouts.server);
        let (there, back) = (self.there.step, self.back.step);
        !is_held_up(there, back) && self.client.is_silent_for(moment, client)
            || !is_held_up(back, there) && self.server.is_silent_for(moment, server)
    }

    /// How many bytes came in and went out: those that were read of the client, and those that were written to it. A greeting is none
    /// of them. None where the server took and gave nothing. Of each direction, what was read is what was written and what waits, until it fails.
    pub fn bytes(&self) -> (u64, u64)
        ensures exact { result ≡ bytes self.now }
        ensures there { IsWay self.now.there }
        ensures back { IsWay self.now.back }
    {
        let read = self.there.direction.read().saturating_sub(self.greeting);
        let counted = (read, self.back.direction.written());
        if self.has_passed() { counted } else { (0, 0) }
    }

    /// Closes both sockets: in order where nothing has failed, and where a socket has, the other by a reset, so that what was
    /// carried doesn't look whole. Of a server that never accepted the client reads an end.
    pub fn close(self, rt: &impl Net) {
        let closing = self.closing();
        let Link { client, server, .. } = self;
        client.close(rt, closing.resets_client);
        server.close(rt, closing.resets_server);
    }

    /// Which of both sockets is reset where it closes now.
    fn closing(&self) -> Closing
        ensures { result ≡ closing self.now.there.step self.now.back.step (must_be_accepted self.now) }
    {
        let is_accepted = self.is_accepted || self.has_passed();
        Closing::of(self.there.step, self.back.step, is_accepted)
    }
}

/// Whether a side's bytes wait to be read as the other side has no room, while this one takes what it is sent, by the direction
/// from it and the one to it.
fn is_held_up(from: Step, to: Step) -> bool
    ensures { result ≡ is_held_up from to }
{
    from == Step::WaitsToWrite && to != Step::WaitsToWrite
}
