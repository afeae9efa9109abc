//! What an evaluation asks, and what it is told; `admit_core` passes wants on, and connections on tables answer them.

use rule_addresses::Address;
use rule_model::Slot;
use stick_key::StickKey;
use stick_model::Row;
use stored_data::Act;

/// What is known of a connection before any rule is looked at.
#[derive(Clone, Copy, Debug)]
pub struct Samples {
    /// Where it comes from.
    pub src: Address,
    pub src_port: u16,
    /// The port that it came to, 0 where the proxy has no `bind`.
    pub dst_port: u16,
}

/// What the rules come to.
#[derive(Clone, Copy, Debug, PartialEq, Eq)]
pub enum Verdict {
    Accept,
    Reject,
}

/// What kind of want is next, apart from its key.
#[derive(Clone, Copy, Debug, PartialEq, Eq)]
pub enum Asked {
    /// An event that brings no reference.
    Event,
    /// A reference to an entry of a table, for a slot that has none.
    Reference { slot: Slot, table: u32 },
    /// Nothing more: the rules have come to this verdict.
    Decided(Verdict),
}

/// What is asked next. A table's number is its place among the tables of the setup.
#[derive(Drop)]
pub enum Want {
    /// What is shown of a key.
    Get {
        table: u32,
        key: StickKey,
    },
    /// A reference to the entry of a key, for a slot that has none.
    Track {
        slot: Slot,
        table: u32,
        key: StickKey,
    },
    /// What is shown of the slot's entry.
    Look {
        slot: Slot,
    },
    /// An act on the data of the slot's entry.
    Count {
        slot: Slot,
        act: Act,
    },
    /// Nothing more: the rules have come to this verdict.
    Done(Verdict),
}

/// What a want is answered.
#[derive(Drop)]
pub enum Answer {
    /// What is shown of the entry, to a `Get` or a `Look`.
    Row(Row),
    /// The key of a `Get` has no entry.
    Absent,
    /// The slot has its reference.
    Tracked,
    /// The table has no room for the entry, or gives no more references.
    Untracked,
    /// What the act of a `Count` answered.
    Value(Option<u64>),
    /// A reference was given back. No evaluation asks for that: it is there for the connections above.
    Released,
}
