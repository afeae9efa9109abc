//! What a rule does, and its slots and keys; `rule_config` reads them, and `rule_eval` and connections act by them.
ghost use Rattle.std.specs.Prelude.{◌≡◌, IfOk};

use crate::Name;
use base_sequence::{NoMemory, Sequence};
use stored_data::Act;

/// One of the three references that a connection can hold: `sc0`, `sc1` and `sc2`.
#[derive(Clone, Copy, Debug, PartialEq, Eq)]
pub enum Slot {
    Sc0,
    Sc1,
    Sc2,
}

/// What a key is made of.
#[derive(Drop)]
pub enum KeyExpression {
    /// `src`: the client's address.
    Source,
    /// `src_port`: the client's port.
    SourcePort,
    /// `dst_port`: the port that it came to.
    DestinationPort,
    /// `int(n)`.
    Integer(u32),
    /// `str(text)`.
    Text(Sequence<u8>),
}

impl KeyExpression {
    /// An equal expression.
    pub(crate) fn copy(&self) -> Result<KeyExpression, NoMemory>
        ensures { IfOk result (λ expression. expression ≡ self.now) }
    {
        match self {
            KeyExpression::Source => Ok(KeyExpression::Source),
            KeyExpression::SourcePort => Ok(KeyExpression::SourcePort),
            KeyExpression::DestinationPort => Ok(KeyExpression::DestinationPort),
            KeyExpression::Integer(number) => Ok(KeyExpression::Integer(*number)),
            KeyExpression::Text(text) => Ok(KeyExpression::Text(text.copy()?)),
        }
    }
}

/// What a rule does where its condition holds.
#[derive(Drop)]
pub enum Action {
    Accept,
    Reject,
    /// `track-sc0`, `track-sc1`, `track-sc2`: the slot holds a reference to the key's entry in a section's table.
    Track {
        slot: Slot,
        key: KeyExpression,
        table: Name,
    },
    /// `sc-inc-gpc0`, `sc-inc-gpc1`, `sc-set-gpt0`, `sc-inc-gpc`, `sc-set-gpt`: an act on the data of the slot's entry.
    Count {
        slot: Slot,
        act: Act,
    },
}

impl Action {
    /// An equal action.
    pub(crate) fn copy(&self) -> Result<Action, NoMemory>
        ensures { IfOk result (λ action. action ≡ self.now) }
    {
        match self {
            Action::Accept => Ok(Action::Accept),
            Action::Reject => Ok(Action::Reject),
            Action::Track { slot, key, table } => {
                let key = key.copy()?;
                let table = table.copy()?;
                Ok(Action::Track {
                    slot: *slot,
                    key,
                    table,
                })
            }
            Action::Count { slot, act } => Ok(Action::Count {
                slot: *slot,
                act: *act,
            }),
        }
    }
}
