//! The slots of a connection, and which table each tracks in; `evaluation` and `questions` set them, and `Case` has them.
ghost use Rattle.std.specs.Prelude.{◌≡◌};
ghost use Rattle.rule_eval.specs.Slots.{slot_of, with_slot, no_slots};

use rule_model::Slot;

/// The number of the table that each slot tracks an entry of.
#[derive(Clone, Copy, Debug, PartialEq, Eq)]
pub struct Slots {
    pub sc0: Option<u32>,
    pub sc1: Option<u32>,
    pub sc2: Option<u32>,
}

impl Slots {
    /// Slots that track nothing.
    pub(crate) fn new() -> Slots
        ensures { result ≡ no_slots }
    {
        Slots {
            sc0: None,
            sc1: None,
            sc2: None,
        }
    }

    /// The table that a slot tracks an entry of.
    pub(crate) fn get(&self, slot: Slot) -> Option<u32>
        ensures { result ≡ slot_of self.now slot }
    {
        match slot {
            Slot::Sc0 => self.sc0,
            Slot::Sc1 => self.sc1,
            Slot::Sc2 => self.sc2,
        }
    }

    /// The slots where one more tracks an entry of a table.
    pub(crate) fn with(self, slot: Slot, table: u32) -> Slots
        ensures { result ≡ with_slot self slot table }
    {
        match slot {
            Slot::Sc0 => Slots {
                sc0: Some(table),
                ..self
            },
            Slot::Sc1 => Slots {
                sc1: Some(table),
                ..self
            },
            Slot::Sc2 => Slots {
                sc2: Some(table),
                ..self
            },
        }
    }
}
