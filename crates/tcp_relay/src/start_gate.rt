//! What the workers wait for as they start, so that none serves before all run; `serving` opens it, and others see by it that the start is over.

ghost use Rattle.std.specs.Prelude.{◌≡◌};
ghost use Rattle.tcp_relay.specs.Starting as spec;

use std::sync::atomic::{AtomicU64, Ordering};

/// How far the start of the workers is.
#[derive(Clone, Copy, Debug, PartialEq, Eq)]
pub enum StartPhase {
    /// Some are still to be started.
    Starting,
    /// All run, and serve.
    Over,
    /// One couldn't be started, and none serves.
    GivenUp,
}

/// How far the start of the workers is. Threads share it.
#[derive(Drop)]
pub struct StartGate {
    /// 0 while they start, 1 once all run, 2 where that was given up.
    word: AtomicU64,
}

/// What the word of a gate says.
fn phase_of(word: u64) -> StartPhase
    ensures { result ≡ spec.phase_of word }
{
    match word {
        0 => StartPhase::Starting,
        1 => StartPhase::Over,
        _ => StartPhase::GivenUp,
    }
}

/// The word of a gate once the start has ended.
fn word_of(all_started: bool) -> u64
    ensures { result ≡ spec.word_of all_started }
{
    if all_started { 1 } else { 2 }
}

impl StartGate {
    /// None runs yet.
    pub fn new() -> StartGate {
        StartGate {
            word: AtomicU64::new(0),
        }
    }

    /// All run, or one couldn't be started.
    pub(crate) fn end(&self, all_started: bool) {
        self.word.store(word_of(all_started), Ordering::SeqCst);
    }

    /// How far the start is.
    pub(crate) fn phase(&self) -> StartPhase {
        phase_of(self.word.load(Ordering::SeqCst))
    }

    /// Whether all run.
    pub fn is_over(&self) -> bool {
        self.phase() == StartPhase::Over
    }
}
