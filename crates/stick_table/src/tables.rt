//! The trait `Table`, what every stick table does; books call it, and `PlainTable` and `StickTable` implement it.

ghost use Rattle.std.specs.Prelude.{◌≡◌, IfOk, OnErr, OnOk, IfErr, length, true};
ghost use Rattle.stick_model.specs.State.{State, empty_table};
ghost use Rattle.stick_model.specs.Step.{Step};
ghost use Rattle.stick_model.specs.Refusals.{IsRefused, has_life};
ghost use Rattle.stick_model.specs.Limits.{IsTableSpec, IsTableEvent};

use crate::PlainTable;
use base_sequence::NoMemory;
use std::alloc::Global;
use stick_model::{Event, Refusal, Reply, RowRoom, Spec};

/// A stick table.
pub trait Table: Drop {
    /// What it is, however it is kept.
    ghost state: { Self → State };

    /// What it was when `set_base` was called last, or else when it was opened.
    ghost base: { Self → State };

    /// An empty table, whose clock is at 0 and which has counted no event.
    fn open(alloc: Global, spec: Spec) -> Result<Self, NoMemory>
        requires { IsTableSpec spec }
        ensures empty { IfOk result (λ table. state table ≡ empty_table spec) }
        ensures base { IfOk result (λ table. base table ≡ empty_table spec) };

    /// What it was made with.
    fn spec(&self) -> &Spec
        ensures spec { result.now ≡ (state self.now).spec }
        ensures limits { IsTableSpec result.now };

    /// One event: its moment comes, it is counted, and it is done and answered; or it is refused, and nothing changes.
    /// The refusals, in this order: `Stale` where its ticket isn't outstanding, `Exhausted` where the life would be
    /// passed (never for a `Release`), `Memory` where a growth was refused (never for a `Count`, a `Release`, a `Clear`,
    /// a `ClearWhere` or an `Expire`, which need none).
    fn step(&mut self, event: &Event) -> Result<Reply, Refusal>
        requires { IsTableEvent event.now }
        ensures ok { IfOk result (λ reply. Step (state self.old) event.now reply (state self.new)) }
        ensures lives { OnOk result (has_life (state self.old) event.now ≡ true) }
        ensures refused { IfErr result (IsRefused (state self.old) event.now) }
        ensures err { OnErr result (state self.new ≡ state self.old) }
        ensures base { base self.new ≡ base self.old };

    /// One event, its reply given twice, as for a caller and for a record. Memory for both is taken before anything
    /// changes; it is refused as `step` is, and no more often needs memory for it: a reply that shows no row takes none.
    fn step_twice(&mut self, event: &Event) -> Result<(Reply, Reply), Refusal>
        requires { IsTableEvent event.now }
        ensures ok { IfOk result (λ replies. Step (state self.old) event.now replies.0 (state self.new)) }
        ensures twice { IfOk result (λ replies. replies.1 ≡ replies.0) }
        ensures lives { OnOk result (has_life (state self.old) event.now ≡ true) }
        ensures refused { IfErr result (IsRefused (state self.old) event.now) }
        ensures err { OnErr result (state self.new ≡ state self.old) }
        ensures base { base self.new ≡ base self.old };

    /// How many references are out.
    fn references(&self) -> u32
        ensures { result ≡ length (state self.now).tickets };

    /// How many entries went to make room for others since it was opened, modulo 2^64. No clause says it, as its state doesn't tell.
    fn purged(&self) -> u64;

    /// How many entries it has, with those that have reached their date since its clock was moved last.
    fn entries(&self) -> usize
        ensures { result ≡ length (state self.now).records };

    /// Takes room for the rows of its next listing, and gives back what it had. It answers as before.
    fn swap_room(&mut self, room: RowRoom) -> RowRoom
        ensures stays { state self.new ≡ state self.old }
        ensures base { base self.new ≡ base self.old };

    /// Makes what it is now its base. Where a growth is refused, nothing changes.
    fn set_base(&mut self) -> Result<(), NoMemory>
        ensures stays { state self.new ≡ state self.old }
        ensures ok { OnOk result (base self.new ≡ state self.old) }
        ensures err { OnErr result (base self.new ≡ base self.old) };

    /// How many events it had counted at its base.
    fn base_events(&self) -> u64
        ensures { result ≡ (base self.now).events };

    /// A plain table in the state of its base.
    fn base_to_plain(&self) -> Result<PlainTable, NoMemory>
        ensures { IfOk result (λ table. table.now ≡ base self.now) };

    /// A plain table in the same state.
    fn to_plain(&self) -> Result<PlainTable, NoMemory>
        ensures { IfOk result (λ table. table.now ≡ state self.now) };
}
