//! What comes of a turn of a direction: its step, or the cause of its failure; `tcp_link` acts by it.

ghost use Rattle.std.specs.Prelude.{◌≡◌};
ghost use Rattle.tcp_flow.specs.Turns.{is_last};

/// What failed, so that a direction goes no further.
#[derive(Clone, Copy, Debug, PartialEq, Eq)]
pub enum Cause {
    /// The reader, or it gave bytes 2^40 times.
    Read,
    /// The writer.
    Write,
    /// There was no memory for the bytes for which the writer had no room.
    Memory,
}

/// How far a turn of a direction came.
#[derive(Clone, Copy, Debug, PartialEq, Eq)]
pub enum Step {
    /// All that was read is written, and the reader has nothing more for now.
    WaitsToRead,
    /// The writer has no room for now for bytes that are kept.
    WaitsToWrite,
    /// All that was read is written; the reader may have more now.
    Yields,
    /// The input has ended, and all of it is written.
    Ended,
    /// Nothing goes on.
    Failed(Cause),
}

impl Step {
    /// Whether no turn follows.
    pub fn is_last(self) -> bool
        ensures { result ≡ is_last self }
    {
        match self {
            Step::Ended | Step::Failed(_) => true,
            Step::WaitsToRead | Step::WaitsToWrite | Step::Yields => false,
        }
    }
}
