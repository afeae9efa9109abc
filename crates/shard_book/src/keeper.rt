//! The trait `Keeper`, a table in shards, wherever they are kept; commands ask it, and `Books` and `shard_locks::Seated`
//! implement it.

use crate::Occupancy;
use base_sequence::NoMemory;
use stick_table::{Event, PlainTable, Refusal, Reply, Spec};

/// A table in shards, wherever they are kept: what commands ask.
pub trait Keeper {
    ghost use Rattle.std.specs.Prelude.{◌≡◌, ◌≤◌, ◌<◌, ℕ, IfOk, IfErr, OnErr};
    ghost use Rattle.stick_model.specs.State.{State as TableState};
    ghost use Rattle.stick_model.specs.Legal.{IsLegal};
    ghost use Rattle.stick_model.specs.Limits.{IsTableSpec, IsTableEvent};
    ghost use Rattle.stick_model.specs.declared.specification.Spec.{Spec as ItsSpec};
    ghost use Rattle.stick_model.specs.declared.events.Event.{Event as AnEvent};
    ghost use Rattle.stick_model.specs.declared.replies.Reply.{Reply as AReply};
    ghost use Rattle.stick_model.specs.declared.replies.Refusal.{Refusal as ARefusal};
    ghost use Rattle.shard_book.specs.Keeping.{MayAsk, IsAnswer};

    // What the whole table was made with, and in how many shards.
    ghost table: { Self → ItsSpec };

    ghost parts: { Self → ℕ };

    // What asking changes.
    ghost State: { Type 0 };

    ghost state: { Self → State };

    // In a state, a shard may answer an event so, and leave that state.
    ghost answers: { State → ℕ → AnEvent → AReply → State → Type 0 };

    // In a state, a shard may refuse an event so.
    ghost refuses: { State → ℕ → AnEvent → ARefusal → Type 0 };

    // In a state, a shard may be this table.
    ghost holds: { State → ℕ → TableState → Type 0 };

    /// The greatest number of entries of all shards together.
    fn size(&self) -> u32
        ensures { result ≡ (table self.now).size };

    /// How many shards there are, 1 to 64.
    fn shards(&self) -> u32
        ensures shards { result ≡ parts self.now }
        ensures some { 1 ≤ result }
        ensures few { result ≤ 64 };

    /// What the whole table was made with.
    fn spec(&self) -> &Spec
        ensures spec { result.now ≡ table self.now }
        ensures limits { IsTableSpec result.now }
        ensures places { parts self.now ≤ result.now.size };

    /// How many references to a shard's entries are out, and how many of its entries went to make room for others. To read it is no
    /// event, and changes nothing.
    fn occupancy(&self, shard: u32) -> Occupancy
        requires { shard < parts self.now };

    /// A plain copy of what a shard is, within the limits and in a legal state. To make it is no event, and changes nothing.
    fn copied(&self, shard: u32) -> Result<PlainTable, NoMemory>
        requires { shard < parts self.now }
        ensures holds { IfOk result (λ table. holds (state self.now) shard table.now) }
        ensures limits { IfOk result (λ table. IsTableSpec table.now.spec) }
        ensures legal { IfOk result (λ table. IsLegal table.now) };

    /// Asks a shard an event that names no ticket, and of a key only where the key lies on it. A refusal changes nothing.
    fn ask(&mut self, shard: u32, event: Event) -> Result<Reply, Refusal>
        requires shard { shard < parts self.old }
        requires event { IsTableEvent event }
        requires asked { MayAsk (parts self.old) shard event }
        ensures ok { IfOk result (λ reply. answers (state self.old) shard event reply (state self.new)) }
        ensures step { IfOk result (λ reply. IsAnswer event reply) }
        ensures refused { IfErr result (refuses (state self.old) shard event) }
        ensures err { OnErr result (state self.new ≡ state self.old) }
        ensures table { table self.new ≡ table self.old }
        ensures parts { parts self.new ≡ parts self.old };
}
