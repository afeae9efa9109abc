//! What became of what a connection wanted; `advance` answers it, and `visit` decides by it when to stop.

/// What a move of a connection came to.
#[derive(Clone, Copy, Debug, PartialEq, Eq)]
pub enum Moved {
    /// A shard answered it.
    Answered,
    /// It changed its phase.
    Turned,
    /// It was refused, and the connection goes on without it.
    Refused,
    /// A release was refused: the connection still holds its reference.
    Kept,
}

/// How a connection came to stand still.
#[derive(Clone, Copy, Debug, PartialEq, Eq)]
pub enum Rested {
    /// It rests, or is finished.
    Still,
    /// The release of a reference was refused, and isn't tried again: the connection still holds it.
    Kept,
}
