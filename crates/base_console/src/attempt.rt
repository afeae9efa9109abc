//! What one write came to; `outlet` goes by it.

ghost use Rattle.std.specs.Prelude.{◌≡◌};
ghost use Rattle.base_console.specs.Attempts as spec;

/// The system's error where there is no room now (errno(3)).
const EAGAIN: u32 = 11;

/// The system's error where a signal came between.
const EINTR: u32 = 4;

/// What one write came to.
#[derive(Clone, Copy, Debug, PartialEq, Eq)]
pub enum Attempt {
    /// So many bytes were taken.
    Took(usize),
    /// There is no room now.
    Full,
    /// A signal came between: the same can be tried again.
    Interrupted,
    /// It failed by this error, and would fail again.
    Failed(u32),
}

/// What a write of some bytes came to that took so many, or else failed by this error.
pub fn attempt_of(taken: Option<usize>, error: u32) -> Attempt
    ensures { result ≡ spec.attempt_of taken error }
{
    match taken {
        Some(0) => Attempt::Full,
        Some(count) => Attempt::Took(count),
        None if error == EAGAIN => Attempt::Full,
        None if error == EINTR => Attempt::Interrupted,
        None => Attempt::Failed(error),
    }
}
