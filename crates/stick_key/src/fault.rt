//! Why a text is no key; `text`, `dotted` and `sample` answer it, and `table_texts` makes messages of it.
ghost use Rattle.std.specs.Prelude.{◌≡◌};
ghost use Rattle.stick_key.specs.declared.fault.KeyFault.TheVariants.{Memory};

pub use base_sequence::NoMemory;
use std::alloc::AllocFailed;
use thiserror::Error;

/// Why a text is no key.
#[derive(Clone, Copy, Debug, PartialEq, Eq, Error)]
pub enum KeyFault {
    /// The text is of another form.
    #[error("not the text of a key")]
    Malformed,
    /// The text is of the form of such a key, with a number that is too large.
    #[error("a number of the key is too large")]
    OutOfRange,
    /// A growth was refused.
    #[error("out of memory")]
    Memory,
}

impl From<NoMemory> for KeyFault {
    ghost from_gives = { λ _ e. e ≡ Memory };

    fn from(_refused: NoMemory) -> KeyFault {
        KeyFault::Memory
    }
}

impl<T: Drop> From<AllocFailed<T>> for KeyFault {
    ghost from_gives = { λ _ e. e ≡ Memory };

    fn from(_refused: AllocFailed<T>) -> KeyFault {
        KeyFault::Memory
    }
}
