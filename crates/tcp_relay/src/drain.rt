//! A drain, which ends serving in order; who serves begins it, and `turning` looks at it in each turn.

ghost use Rattle.std.specs.Prelude.{◌≡◌};
ghost use Rattle.tcp_relay.specs.Draining.{begun_of, phase_of};

use base_latch::Latch;
use std::io;
use std::os::fd::{AsRawFd, RawFd};
use std::sync::atomic::{AtomicU64, Ordering};

/// How far a drain is.
#[derive(Clone, Copy, Debug, PartialEq, Eq)]
pub enum Phase {
    /// None has begun.
    Serving,
    /// No client is accepted any more. Open connections go on.
    Draining,
    /// Open connections are closed.
    Closing,
}

/// Whether serving is to end, and until when open connections may go on. Threads share it.
#[derive(Drop)]
pub struct Drain {
    /// 0 until a drain begins; then one more than its moment in ms.
    word: AtomicU64,
    /// What wakes those that wait for nothing else.
    begun: Latch,
}

impl Drain {
    /// None has begun. An error is that of eventfd(2), as where no descriptor is left.
    pub fn open() -> io::Result<Drain> {
        Ok(Drain {
            word: AtomicU64::new(0),
            begun: Latch::open()?,
        })
    }

    /// Begins a drain: from now on no client is accepted, and from a moment on, in ms since the start of serving, open
    /// connections are closed. Of several such calls the earliest moment counts. Workers that sleep are woken.
    pub fn begin(&self, until: u64) {
        self.note(until);
        self.begun.set();
    }

    /// Notes that it has begun, and until when.
    fn note(&self, until: u64) {
        let mut word = self.word.load(Ordering::SeqCst);
        for _try in 0..u64::MAX {
            let begun = begun_of(word, until);
            match self
                .word
                .compare_exchange(word, begun, Ordering::SeqCst, Ordering::SeqCst)
            {
                Ok(_) => return,
                Err(now) => word = now,
            }
        }
    }

    /// What is readable once it has begun (epoll(7)).
    pub(crate) fn watched(&self) -> RawFd {
        self.begun.as_raw_fd()
    }

    /// How far it is at a moment in ms.
    pub fn phase(&self, moment: u64) -> Phase {
        phase_of(self.word.load(Ordering::SeqCst), moment)
    }

    /// Whether it has begun.
    pub fn has_begun(&self) -> bool {
        self.phase(0) != Phase::Serving
    }
}

/// What a drain's word says at a moment in ms.
fn phase_of(word: u64, moment: u64) -> Phase
    ensures { result ≡ phase_of word moment }
{
    if word == 0 {
        return Phase::Serving;
    }
    if moment < word - 1 {
        return Phase::Draining;
    }
    Phase::Closing
}

/// The word behind a call that begins a drain until a moment in ms.
fn begun_of(word: u64, until: u64) -> u64
    ensures { result ≡ begun_of word until }
{
    let begun = until.saturating_add(1);
    if word == 0 {
        return begun;
    }
    word.min(begun)
}
