//! The answers that have no listing; `table_cli` gives them where a command can't be done, and `request` for what is wrong.

ghost use Rattle.std.specs.Prelude.{◌≡◌};
ghost use Rattle.table_texts.specs.Texts.{message_text, refusal_message};

use stick_model::Refusal;

/// Why a command did not do what it asks, as its answer says it.
#[derive(Clone, Copy, Debug, PartialEq, Eq)]
pub enum Message {
    UnknownCommand,
    NoSuchTable,
    InvalidKey,
    NotStored,
    NotSettable,
    InvalidValue,
    InUse,
    KeyNotPresent,
    TableFull,
    OutOfMemory,
    Unavailable,
}

impl Message {
    /// The answer, with the line end and the empty line that end it.
    pub fn bytes(self) -> &'static [u8]
        ensures { result.now ≡ message_text self }
    {
        match self {
            Message::UnknownCommand => b"Unknown command.\n\n",
            Message::NoSuchTable => b"No such table.\n\n",
            Message::InvalidKey => b"Invalid key.\n\n",
            Message::NotStored => b"Data type not stored in this table.\n\n",
            Message::NotSettable => b"Data type can't be set.\n\n",
            Message::InvalidValue => b"Invalid value.\n\n",
            Message::InUse => b"Entry currently in use, cannot remove.\n\n",
            Message::KeyNotPresent => b"Key not present.\n\n",
            Message::TableFull => b"Table full.\n\n",
            Message::OutOfMemory => b"Out of memory.\n\n",
            Message::Unavailable => b"Table unavailable.\n\n",
        }
    }

    /// What the refusal of an event is answered.
    pub fn of_refusal(refusal: Refusal) -> Message
        ensures { result ≡ refusal_message refusal }
    {
        match refusal {
            Refusal::Memory => Message::OutOfMemory,
            Refusal::Stale | Refusal::Exhausted | Refusal::Behind { .. } => Message::Unavailable,
        }
    }
}
