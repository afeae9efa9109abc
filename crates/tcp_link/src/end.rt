//! One end of a connection: its socket, and what is known of it; `Link` has two, and `Way` reads and writes them.

ghost use Rattle.std.specs.Prelude.{◌≡◌, false, max, true};
ghost use Rattle.std.specs.Prelude.{None};
ghost use Rattle.tcp_link.specs.Losses.{no_loss};
ghost use Rattle.tcp_link.specs.Silence.{heard_last, is_quiet, is_silent, wrote_last};
ghost use Rattle.tcp_link.specs.Tokens.{Tells, number_of, side_of, token};

use crate::calls::number_of;
use crate::incoming::Incoming;
use crate::loss::{Loss, Rest};
use crate::resetting::has_taken_all;
use crate::{Ahead, Buffer, reset};
use mio::net::TcpStream;
use mio::{Interest, Registry, Token};
use std::cell::Cell;
use std::io::{self, ErrorKind};
use std::net::{Net, Shutdown};
use tcp_flow::{ReadySource, ReadyStream};

/// How many ms must have passed since bytes were written last, before a reset that is owed may come.
const QUIET: u64 = 1_000;

/// How many reads are dropped in one turn at most, before other connections have theirs.
const DROPS: u32 = 2;

/// The error of a socket that is reset once its peer has told its end (tcp(7)).
const EPIPE: u32 = 32;

/// That bytes are reported, and urgent ones among them: a read stops short of those, and what lies behind them would wait.
fn bytes() -> Interest {
    Interest::READABLE | Interest::PRIORITY
}

/// One of the ends of a connection.
#[derive(Clone, Copy, Debug, PartialEq, Eq)]
pub enum Side {
    Client,
    Server,
}

impl Side {
    /// The token by which the system names this end of a connection with a number, which is below 2^63. `Ready::of` tells both again.
    pub fn token(self, number: usize) -> Token
        ensures { result ≡ token self number }
    {
        let both = number.wrapping_mul(2);
        match self {
            Side::Client => Token(both),
            Side::Server => Token(both.wrapping_add(1)),
        }
    }

    /// Which end of which connection a token is of.
    pub(crate) fn of(token: Token) -> (usize, Side)
        ensures exact { result ≡ (number_of token, side_of token) }
        ensures tells { Tells token result.0 result.1 }
    {
        let side = if token.0.is_multiple_of(2) {
            Side::Client
        } else {
            Side::Server
        };
        (token.0 / 2, side)
    }
}

/// An end of a connection: its socket, and what is known of it.
#[derive(Drop)]
pub(crate) struct End {
    pub(crate) socket: TcpStream,
    /// Whether its bytes don't wait for those before them to be acknowledged.
    sends_at_once: bool,
    /// Whether it is watched for room, beside bytes.
    pub(crate) watches_room: bool,
    /// Whether it was told that the other end sends no more.
    pub(crate) is_told: bool,
    /// When something passed last, in ms.
    pub(crate) heard: u64,
    /// When something was written to it last, in ms.
    pub(crate) wrote: Option<u64>,
    /// What was dropped of the bytes that it still sent once the other end had failed.
    pub(crate) loss: Loss,
    /// The number of the first error that a read, a write or a connect gave, if one has failed.
    error: Cell<Option<u32>>,
}

impl End {
    /// An end whose socket isn't watched yet, at a moment in ms.
    pub(crate) fn new(socket: TcpStream, moment: u64) -> End
        ensures heard { result.heard ≡ moment }
        ensures socket { result.socket ≡ socket }
        ensures room { result.watches_room ≡ false }
        ensures told { result.is_told ≡ false }
        ensures wrote { result.wrote ≡ None }
        ensures loss { result.loss ≡ no_loss }
    {
        End {
            socket,
            sends_at_once: false,
            watches_room: false,
            is_told: false,
            heard: moment,
            wrote: None,
            loss: Loss::none(),
            error: Cell::new(None),
        }
    }

    /// The number of its first error, if it has one (errno(3)).
    pub(crate) fn error(&self) -> Option<u32> {
        self.error.get()
    }

    /// Keeps the number of an error, if it is the first. The system tells it once.
    pub(crate) fn note(&self, number: u32) {
        if self.error.get().is_none() {
            self.error.set(Some(number));
        }
    }

    /// The same of an error of a read or a write. That nothing is there yet, or no room, isn't kept.
    pub(crate) fn note_error(&self, error: &io::Error) {
        match error.kind() {
            ErrorKind::WouldBlock | ErrorKind::Interrupted => {}
            _ => self.note(number_of(error)),
        }
    }

    /// Has bytes sent as they come, those too that follow others so closely that the system keeps them back, or would (tcp(7),
    /// `TCP_NODELAY`). The first never wait, so that an end that is written to once needs no such call.
    pub(crate) fn send_at_once(&mut self)
        ensures { self.new ≡ record self.old { sends_at_once = true } }
    {
        if self.sends_at_once {
            return;
        }
        // A socket that is gone can't be told so, and needs no telling.
        let _ = self.socket.set_nodelay(true);
        self.sends_at_once = true;
    }

    /// Has the socket reported where there are bytes, or urgent ones.
    pub(crate) fn watch(&mut self, registry: &Registry, token: Token) -> io::Result<()>
        ensures same { self.new ≡ self.old }
    {
        registry.register(&mut self.socket, token, bytes())
    }

    /// Has the socket reported where there is room, too.
    pub(crate) fn watch_room(&mut self, registry: &Registry, token: Token) -> io::Result<()>
        ensures room { self.new ≡ record self.old { watches_room = true } }
    {
        if self.watches_room {
            return Ok(());
        }
        self.watches_room = true;
        self.watch_again(registry, token)
    }

    /// Has the socket reported anew, also where it was before and nothing has changed.
    pub(crate) fn watch_again(&mut self, registry: &Registry, token: Token) -> io::Result<()>
        ensures same { self.new ≡ self.old }
    {
        let interest = if self.watches_room {
            bytes() | Interest::WRITABLE
        } else {
            bytes()
        };
        registry.reregister(&mut self.socket, token, interest)
    }

    /// Something passes here at a moment in ms, or nothing does.
    pub(crate) fn hear(&mut self, passes: bool, moment: u64)
        ensures { self.new ≡ record self.old { heard = heard_last passes moment self.old.heard } }
    {
        if passes {
            self.heard = moment;
        }
    }

    /// It takes something at a moment in ms, or it doesn't.
    pub(crate) fn take(&mut self, takes: bool, moment: u64)
        ensures { self.new ≡ record self.old { heard = heard_last takes moment self.old.heard; wrote = wrote_last takes moment self.old.wrote } }
    {
        if takes {
            self.heard = moment;
            self.wrote = Some(moment);
        }
    }

    /// Whether nothing was written to it for a second, at a moment in ms.
    pub(crate) fn is_quiet(&self, moment: u64) -> bool
        ensures { result ≡ is_quiet self.now.wrote moment }
    {
        match self.wrote {
            Some(wrote) => moment.saturating_sub(wrote) >= QUIET,
            None => true,
        }
    }

    /// Whether it has told its end, where a read finds that nothing more comes: a write that fails takes the system's error, and a
    /// reset looks like an end from then on.
    pub(crate) fn has_told_end(&self) -> bool {
        match self.error.get() {
            Some(number) => number == EPIPE,
            None => true,
        }
    }

    /// Whether its peer has taken what was written, as far as the system tells it.
    pub(crate) fn has_taken_all(&self) -> bool {
        has_taken_all(&self.socket)
    }

    /// Reads what it still sends, and drops it.
    pub(crate) fn drop_bytes(&mut self, buffer: &mut Buffer)
        ensures { self.new ≡ record self.old { loss = self.new.loss } }
    {
        self.loss = self.dropped(buffer);
    }

    /// What is dropped once what it still sends is read.
    fn dropped(&self, buffer: &mut Buffer) -> Loss {
        let mut loss = self.loss;
        let mut reader = ReadyStream::new(Incoming::new(self, Ahead::UntilEmpty));
        for _read in 0..DROPS {
            loss = loss.after(reader.read_now(buffer.bytes.as_mut_slice()));
            if loss.rest != Rest::More {
                return loss;
            }
        }
        loss
    }

    /// Tells it that the other end sends no more. It may still send.
    pub(crate) fn tell_end(&mut self)
        ensures { self.new ≡ record self.old { is_told = true } }
    {
        // A socket that is gone already can't be shut, and needs no shutting.
        let _ = self.socket.shutdown(Shutdown::Write);
        self.is_told = true;
    }

    /// Whether nothing has passed here for so long, at a moment in ms.
    pub(crate) fn is_silent_for(&self, moment: u64, limit: Option<u64>) -> bool
        ensures { result ≡ is_silent self.now.heard moment limit }
    {
        match limit {
            Some(limit) => moment.saturating_sub(self.heard) >= limit,
            None => false,
        }
    }

    /// Closes it, by a reset or in order.
    pub(crate) fn close(self, rt: &impl Net, is_reset: bool) {
        if is_reset {
            reset(rt, self.socket);
        }
    }
}
