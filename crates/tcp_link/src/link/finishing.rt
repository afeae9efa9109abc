//! When nothing more passes through a link, and what becomes of what still comes; `turn` asks it at the end of each turn.

ghost use Rattle.std.specs.Prelude.{◌≡◌, ◌||◌, ◌&&◌, true, false, not, IsTrue};
ghost use Rattle.tcp_link.specs.Closing.{reader_failed};
ghost use Rattle.tcp_link.specs.Links.{DropsOnly, HandsOn, IsGone, client_fails, is_broken, is_done, is_finished, is_over, is_reset_due, must_be_accepted, owes_reset};

use super::Link;
use crate::closing::{lost_bytes, reader_failed, writer_failed};
use crate::end::Side;
use crate::loss::{Loss, drops};
use crate::{Buffer, Ready};
use tcp_flow::Step;

impl Link {
    /// Whether nothing more passes, or it is ended though more may.
    pub(super) fn is_over(&self) -> bool
        ensures { result ≡ is_over self.now }
    {
        self.is_broken() || self.is_finished()
    }

    /// Whether it is ended though more may pass.
    fn is_broken(&self) -> bool
        ensures { result ≡ is_broken self.now }
    {
        lost_bytes(self.there.step)
            || lost_bytes(self.back.step)
            || self.client.loss.is_given_up()
            || self.server.loss.is_given_up()
            || self.is_gone
            || reader_failed(self.there.step) && !self.has_passed()
    }

    /// Whether nothing comes by either direction, and none is owed a reset.
    fn is_finished(&self) -> bool
        ensures { result ≡ is_finished self.now }
    {
        let (there, back) = (self.there.step, self.back.step);
        is_done(there, back, self.client.loss)
            && is_done(back, there, self.server.loss)
            && !owes_reset(back, there)
            && !owes_reset(there, back)
    }

    /// Whether a side that is owed a reset may have it at a moment in ms: nothing was written to it for a second, and it has taken
    /// all, as far as the system tells it.
    pub fn is_settled(&self, moment: u64) -> bool
        ensures { IsTrue result → is_reset_due self.now moment ≡ true }
    {
        let (there, back) = (self.there.step, self.back.step);
        if owes_reset(back, there) {
            return self.client.is_quiet(moment) && self.client.has_taken_all();
        }
        owes_reset(there, back) && self.server.is_quiet(moment) && self.server.has_taken_all()
    }

    /// What a turn ends with, once all is moved: a failure is noted, what nobody takes is dropped, and each side is told that
    /// the other has ended.
    pub(super) fn finish_turn(&mut self, ready: Ready, buffer: &mut Buffer)
        ensures ends { HandsOn ready.has_failed self.old self.new }
        ensures drops { DropsOnly self.old self.new }
        ensures gone { IsGone ready.side ready.has_failed self.old self.new }
        ensures stays { self.old.accepted ≡ true → self.new.accepted ≡ true }
        ensures same { self.new ≡ record self.old { accepted = self.new.accepted; client_told = self.new.client_told; server_told = self.new.server_told; client_loss = self.new.client_loss; server_loss = self.new.server_loss; gone = self.new.gone } }
    {
        self.note_failure(ready);
        self.drop_rests(buffer);
        self.hand_on();
    }

    /// Notes that its client has failed and no server has accepted, where a report tells so. Only then the system is asked.
    fn note_failure(&mut self, ready: Ready)
        ensures gone { IsGone ready.side ready.has_failed self.old self.new }
        ensures same { self.new ≡ record self.old { accepted = self.new.accepted; gone = self.new.gone } }
        ensures asked { client_fails ready.side ready.has_failed ≡ false → self.new.accepted ≡ self.old.accepted }
        ensures known { must_be_accepted self.old ≡ true → client_fails ready.side ready.has_failed ≡ true → self.new.accepted ≡ true }
        ensures stays { self.old.accepted ≡ true → self.new.accepted ≡ true }
    {
        if ready.side == Side::Client && ready.has_failed && !self.is_accepted() {
            self.is_gone = true;
        }
    }

    /// Drops what a side still sends to one that has failed.
    fn drop_rests(&mut self, buffer: &mut Buffer)
        ensures drops { DropsOnly self.old self.new }
        ensures same { self.new ≡ record self.old { client_loss = self.new.client_loss; server_loss = self.new.server_loss } }
    {
        if drops(self.there.step, self.back.step) {
            self.client.drop_bytes(buffer);
        }
        if drops(self.back.step, self.there.step) {
            self.server.drop_bytes(buffer);
        }
    }
}

/// Whether nothing more comes by a direction that stands there, beside the one the other way.
fn is_done(step: Step, other: Step, loss: Loss) -> bool
    ensures { result ≡ is_done step other loss }
{
    step == Step::Ended
        || reader_failed(step)
        || writer_failed(step) && (loss.is_spent() || writer_failed(other))
}

/// Whether a side is owed a reset, by the direction to it and the one from it.
fn owes_reset(to: Step, from: Step) -> bool
    ensures { result ≡ owes_reset to from }
{
    reader_failed(to) && !reader_failed(from)
}
