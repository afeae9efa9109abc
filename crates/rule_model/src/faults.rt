//! What can be wrong with a configuration; `rule_words` and `rule_config` answer it, and `stickd_input` explains it.
ghost use Rattle.std.specs.Prelude.{◌≡◌};
ghost use Rattle.rule_model.specs.declared.faults.ReadError.TheVariants.{OutOfMemory, Wrong};

use base_sequence::NoMemory;
use std::alloc::AllocFailed;
use thiserror::Error;

/// What is wrong with a line of a configuration. It is printed with a code, as `C6 second table or name`.
#[derive(Clone, Copy, Debug, PartialEq, Eq, Error)]
pub enum Fault {
    #[error("C1 unknown keyword")]
    UnknownKeyword,
    #[error("C2 bad number or time")]
    BadNumber,
    #[error("C3 bad size")]
    BadSize,
    #[error("C4 unknown type or data")]
    UnknownType,
    #[error("C5 unknown table or backend")]
    UnknownTable,
    #[error("C6 second table or name")]
    SecondName,
    #[error("C7 bad condition")]
    BadCondition,
    #[error("C8 unknown ACL")]
    UnknownAcl,
    #[error("C9 more than one server")]
    SecondServer,
    #[error("C10 mode http")]
    ModeHttp,
    #[error("C11 not UTF-8")]
    NotUtf8,
}

/// Why a line of a configuration could not be read.
#[derive(Clone, Copy, Debug, PartialEq, Eq, Error)]
pub enum ReadError {
    /// A growth was refused.
    #[error("C12 out of memory")]
    OutOfMemory,
    #[error("{0}")]
    Wrong(Fault),
}

impl From<NoMemory> for ReadError {
    ghost from_gives = { λ _ error. error ≡ OutOfMemory };

    fn from(_refused: NoMemory) -> ReadError {
        ReadError::OutOfMemory
    }
}

impl<T: Drop> From<AllocFailed<T>> for ReadError {
    ghost from_gives = { λ _ error. error ≡ OutOfMemory };

    fn from(_refused: AllocFailed<T>) -> ReadError {
        ReadError::OutOfMemory
    }
}

impl From<Fault> for ReadError {
    ghost from_gives = { λ fault error. error ≡ Wrong fault };

    fn from(fault: Fault) -> ReadError {
        ReadError::Wrong(fault)
    }
}
