//! A table in shards, as connections ask it.

use stick_key::StickKey;
use stick_table::{Refusal, Row};
use stored_data::Act;

/// A table in shards, wherever they are kept: what a connection asks. A refusal changes nothing.
pub trait Port {
    ghost use Rattle.std.specs.Prelude.{◌≡◌, ◌<◌, ◌^◌, IfOk, IfErr, OnOk, OnErr};
    ghost use Rattle.stored_data.specs.Laws.{HasTag};
    ghost use Rattle.stick_model.specs.declared.events.Event.TheVariants.{Get, Track as Tracking, Look, Count, Release};
    ghost use Rattle.stick_model.specs.declared.replies.Reply.TheVariants.{Row as Shown, Value, Released};
    ghost use Rattle.shard_port.specs.Port.{Meaning, Tracks, place, row_reply};

    /// A reference to an entry of a shard.
    type Reference;

    // What asking changes.
    ghost State: { Type 0 };

    ghost state: { Self → State };

    // What an answer means, and what a refusal.
    ghost meaning: { Meaning State Self.Reference };

    /// Asks what is shown of a key.
    fn ask(&mut self, key: StickKey, now: u64) -> Result<Option<Row>, Refusal>
        requires moment { now < 2 ^ 62 }
        ensures ok { IfOk result (λ row. meaning.answers (state self.old) (place meaning (state self.old) key) (Get now key) (row_reply row) (state self.new)) }
        ensures refused { IfErr result (meaning.refuses (state self.old) (place meaning (state self.old) key) (Get now key)) }
        ensures err { OnErr result (state self.new ≡ state self.old) }
        ensures parts { meaning.parts (state self.new) ≡ meaning.parts (state self.old) };

    /// Asks for a reference to the entry of a key. None comes where there is no room, or too many are out.
    fn track(&mut self, key: StickKey, now: u64) -> Result<Option<Self::Reference>, Refusal>
        requires moment { now < 2 ^ 62 }
        ensures ok { IfOk result (λ came. Tracks meaning (state self.old) now key came (state self.new)) }
        ensures refused { IfErr result (meaning.refuses (state self.old) (place meaning (state self.old) key) (Tracking now key)) }
        ensures err { OnErr result (state self.new ≡ state self.old) }
        ensures parts { meaning.parts (state self.new) ≡ meaning.parts (state self.old) };

    /// Asks what is shown of a reference's entry.
    fn look(&mut self, reference: &Self::Reference, now: u64) -> Result<Row, Refusal>
        requires moment { now < 2 ^ 62 }
        ensures ok { IfOk result (λ row. meaning.answers (state self.old) (meaning.shard_of reference.now) (Look now (meaning.ticket_of reference.now)) (Shown row) (state self.new)) }
        ensures refused { IfErr result (meaning.refuses (state self.old) (meaning.shard_of reference.now) (Look now (meaning.ticket_of reference.now))) }
        ensures err { OnErr result (state self.new ≡ state self.old) }
        ensures parts { meaning.parts (state self.new) ≡ meaning.parts (state self.old) };

    /// Does an act on the data of a reference's entry, and answers what the act does.
    fn count(
        &mut self,
        reference: &Self::Reference,
        act: Act,
        now: u64,
    ) -> Result<Option<u64>, Refusal>
        requires moment { now < 2 ^ 62 }
        requires tag { HasTag act }
        ensures ok { IfOk result (λ value. meaning.answers (state self.old) (meaning.shard_of reference.now) (Count now (meaning.ticket_of reference.now) act) (Value value) (state self.new)) }
        ensures refused { IfErr result (meaning.refuses (state self.old) (meaning.shard_of reference.now) (Count now (meaning.ticket_of reference.now) act)) }
        ensures err { OnErr result (state self.new ≡ state self.old) }
        ensures parts { meaning.parts (state self.new) ≡ meaning.parts (state self.old) };

    /// Gives a reference back. Where that is refused, it comes back.
    fn release(
        &mut self,
        reference: Self::Reference,
        now: u64,
    ) -> Result<(), (Self::Reference, Refusal)>
        requires moment { now < 2 ^ 62 }
        ensures ok { OnOk result (meaning.answers (state self.old) (meaning.shard_of reference) (Release now (meaning.ticket_of reference)) Released (state self.new)) }
        ensures back { IfErr result (λ refused. refused.0 ≡ reference) }
        ensures refused { IfErr result (λ refused. meaning.refuses (state self.old) (meaning.shard_of reference) (Release now (meaning.ticket_of reference)) refused.1) }
        ensures err { OnErr result (state self.new ≡ state self.old) }
        ensures parts { meaning.parts (state self.new) ≡ meaning.parts (state self.old) };
}
