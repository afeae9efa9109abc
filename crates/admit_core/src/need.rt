//! How far a connection is, and what it wants next; `Conn` answers it, and drivers and scripts act by it.

ghost use Rattle.std.specs.Prelude.{◌≡◌};
ghost use Rattle.admit_core.specs.Connection.{is_judged as specified_judged};

use rule_model::Slot;
use stick_key::StickKey;
use stored_data::Act;

/// How far a connection is.
#[derive(Clone, Copy, Debug, PartialEq, Eq)]
pub enum Phase {
    /// No answer has come yet.
    New,
    /// The rules are asking; or they have accepted it, and its sessions are counted.
    Judging,
    /// It was accepted. Once it is closed its bytes are counted, and its references go back.
    Admitted,
    /// It was rejected, and its references go back.
    Rejected,
    /// It holds no reference, and wants nothing more.
    Ended,
}

impl Phase {
    /// Whether its rules are looked at, or its sessions counted.
    pub(crate) fn is_judged(self) -> bool
        ensures { result ≡ specified_judged self }
    {
        matches!(self, Phase::New | Phase::Judging)
    }
}

/// What a connection wants next. A table's number is its place among the tables of the setup.
#[derive(Drop)]
pub enum Need {
    /// What is shown of a key.
    Get {
        table: u32,
        key: StickKey,
    },
    /// A reference to the entry of a key, for a slot that has none.
    Track {
        slot: Slot,
        table: u32,
        key: StickKey,
    },
    /// What is shown of the slot's entry.
    Look {
        slot: Slot,
    },
    /// An act on the data of the slot's entry.
    Count {
        slot: Slot,
        act: Act,
    },
    /// The slot's reference is given back.
    Release {
        slot: Slot,
    },
    /// Nothing, until it is closed.
    Rest,
    /// Its next phase.
    Turn,
    /// Nothing more.
    Finished,
}
