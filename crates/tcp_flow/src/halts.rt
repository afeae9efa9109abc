//! Why a call of a port that doesn't wait took no bytes; ports answer it, and `Direction` reads it.

/// Why a call took no bytes.
#[derive(Clone, Copy, Debug, PartialEq, Eq)]
pub enum Halt {
    /// The device isn't ready: there is nothing to be read yet, or no room to write to.
    NotNow,
    /// The device failed in this call.
    Failed,
}
