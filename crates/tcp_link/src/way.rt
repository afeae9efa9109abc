//! One direction of a connection between two sockets; `Link` has one there and one back.

use crate::buffer::ROOM;
use crate::end::End;
use crate::incoming::Incoming;
use crate::outgoing::Outgoing;
use crate::{Ahead, Buffer};
use std::alloc::Global;
use tcp_flow::{Cause, Direction, ReadyStream, Step};

/// How many reads a direction makes in one turn at most, before other connections have theirs.
const READS: u32 = 2;

/// A direction, and how far it is.
#[derive(Drop)]
pub(crate) struct Way {
    pub(crate) direction: Direction,
    pub(crate) step: Step,
    /// What is known of the bytes that its sender still sends.
    pub(crate) ahead: Ahead,
}

impl Way {
    ghost use Rattle.std.specs.Prelude.{◌≡◌, ◌≤◌, true, vec_len};
    ghost use Rattle.tcp_link.specs.Retries.{fails_unread};
    ghost use Rattle.tcp_link.specs.Silence.{heard_last, wrote_last};
    ghost use Rattle.tcp_link.specs.Ways.{Advances, IsWay, greeted_way, has_read, has_written, has_written_more, has_written_more_than, told_also, unbegun_way};

    pub(crate) fn new(alloc: Global) -> Way
        ensures { result ≡ unbegun_way }
    {
        Way::greeting(Vec::new(alloc))
    }

    /// One whose receiver is given these bytes first, which wait for room.
    pub(crate) fn greeting(first: Vec<u8>) -> Way
        requires room { vec_len first ≤ 65536 }
        ensures { result ≡ greeted_way first.items }
    {
        let step = if first.is_empty() {
            Step::WaitsToRead
        } else {
            Step::WaitsToWrite
        };
        Way {
            direction: Direction::beginning(first),
            step,
            ahead: Ahead::More,
        }
    }

    /// Moves what can be moved now. Something that passes is heard at both ends, at this moment in ms. What follows the first
    /// bytes is sent as it comes. Where the receiver may still refuse the connection, it is asked first whether it has accepted.
    pub(crate) fn turn(
        &mut self,
        from: &mut End,
        to: &mut End,
        is_asked: bool,
        moment: u64,
        buffer: &mut Buffer,
    )
        requires way { IsWay self.old }
        ensures way { IsWay self.new }
        ensures advances { Advances self.old self.new }
        ensures from { from.new ≡ record from.old { heard = heard_last (has_read self.old self.new) moment from.old.heard } }
        ensures to { to.new ≡ record to.old { sends_at_once = to.new.sends_at_once; heard = heard_last (has_written self.old self.new) moment to.old.heard; wrote = wrote_last (has_written self.old self.new) moment to.old.wrote } }
        ensures at_once { has_written_more self.old self.new ≡ true → to.new.sends_at_once ≡ true }
    {
        let (read, written) = (self.direction.read(), self.direction.written());
        self.carry(from, to, is_asked, buffer);
        if self.has_written_more(read, written) {
            to.send_at_once();
        }
        from.hear(self.direction.read() > read, moment);
        to.take(self.direction.written() > written, moment);
    }

    /// Whether it has written since it had read and written so much, and perhaps not for the first time: it had read bytes
    /// before, or as many are written as one read takes at most, or reads stop short, so that there may have been several.
    fn has_written_more(&self, read: u64, written: u64) -> bool
        ensures { result ≡ has_written_more_than written read self.now }
    {
        let now = self.direction.written();
        now > written && (read > 0 || now >= ROOM as u64 || self.ahead.is_until_empty())
    }

    /// Moves what can be moved now.
    fn carry(&mut self, from: &End, to: &End, is_asked: bool, buffer: &mut Buffer)
        requires way { IsWay self.old }
        ensures way { IsWay self.new }
        ensures advances { Advances self.old self.new }
    {
        if self.direction.is_over() {
            return;
        }
        let mut reader = ReadyStream::new(Incoming::new(from, self.ahead));
        let mut writer = ReadyStream::new(Outgoing::new(to, is_asked));
        let bytes = buffer.bytes.as_mut_slice();
        let until_end = self.ahead != Ahead::More;
        self.step = self
            .direction
            .turn(&mut reader, &mut writer, bytes, READS, until_end);
    }

    /// Whether a read has failed before any gave a byte.
    pub(crate) fn fails_unread(&self) -> bool
        ensures { result ≡ fails_unread self.now }
    {
        matches!(self.step, Step::Failed(Cause::Read)) && self.direction.read() == 0
    }

    /// Takes in what is told of its sender. That its socket has failed the next read finds; behind an end that says nothing more.
    pub(crate) fn hear_of(&mut self, ahead: Ahead)
        requires way { IsWay self.old }
        ensures way { IsWay self.new }
        ensures told { self.new ≡ told_also self.old ahead }
    {
        self.ahead = self.ahead.with(ahead);
    }
}
