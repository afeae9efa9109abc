//! Why a service of commands stopped; `answer` and `CommandService::run` end with it.

/// What failed.
#[derive(Clone, Copy, Debug, PartialEq, Eq)]
pub enum CliFaultKind {
    /// The reader failed, or never ended.
    ReadFault,
    /// The writer failed.
    WriteFault,
}

/// What failed, and how many commands were answered whole before.
#[derive(Clone, Copy, Debug, PartialEq, Eq)]
pub struct CliFault {
    pub kind: CliFaultKind,
    pub done: u64,
}
