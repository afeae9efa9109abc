//! What a condition asks; `rule_words` reads criteria, and `rule_eval` judges by them.
ghost use Rattle.std.specs.Prelude.{◌≡◌, IfOk};

use crate::{Name, Slot};
use base_sequence::{NoMemory, Sequence};
use rule_addresses::Network;
use stored_data::{Act, Datum, Field};

/// How an integer is compared: `eq`, `ge`, `gt`, `le`, `lt`.
#[derive(Clone, Copy, Debug, PartialEq, Eq)]
pub enum Operator {
    Eq,
    Ge,
    Gt,
    Le,
    Lt,
}

/// Which integers match.
#[derive(Clone, Copy, Debug, PartialEq, Eq)]
pub enum Pattern {
    /// Those that compare so with this one.
    Compare(Operator, u64),
    /// Those from the first to the second: none, where the first is above it.
    Between(u64, u64),
}

/// What is read of an entry.
#[derive(Clone, Copy, Debug, PartialEq, Eq)]
pub enum Fetch {
    /// The value of a datum, or of the element that stands for it where an array is stored in its place.
    Datum(Datum),
    /// `kbytes_in`, `kbytes_out`: the value divided by 1,024, at most 2^32 - 1.
    Kilobytes(Datum),
    /// `sc_get_gpc(1,0)`, `sc_get_gpt(1,0)`: the value of an element of an array.
    Element(Field),
    /// `trackers`: the number of its references.
    Trackers,
}

/// An integer of a connection.
#[derive(Drop)]
pub enum Measure {
    /// `src_port`.
    SourcePort,
    /// `dst_port`.
    DestinationPort,
    /// `sc_conn_cnt(0)`, `sc0_conn_cnt` and their kin: what is read of the slot's entry.
    Tracked(Slot, Fetch),
    /// `sc_inc_gpc0(0)`, `sc0_inc_gpc0`, `sc_clr_gpc0(0)`, `sc_inc_gpc(1,0)` and their kin: what an act on the slot's
    /// entry answers.
    Counted(Slot, Act),
    /// `src_conn_cnt(table)` and its kin: what is read of the entry of the client's address in a section's table.
    Source(Name, Fetch),
}

impl Measure {
    /// An equal measure.
    pub(crate) fn copy(&self) -> Result<Measure, NoMemory>
        ensures { IfOk result (λ measure. measure ≡ self.now) }
    {
        match self {
            Measure::SourcePort => Ok(Measure::SourcePort),
            Measure::DestinationPort => Ok(Measure::DestinationPort),
            Measure::Tracked(slot, fetch) => Ok(Measure::Tracked(*slot, *fetch)),
            Measure::Counted(slot, act) => Ok(Measure::Counted(*slot, *act)),
            Measure::Source(table, fetch) => Ok(Measure::Source(table.copy()?, *fetch)),
        }
    }
}

/// What is true or false of a connection.
#[derive(Drop)]
pub enum Criterion {
    /// `always_true`, `always_false`.
    Always(bool),
    /// `sc_tracked(0)`, `sc0_tracked`: whether the slot holds a reference.
    IsTracked(Slot),
    /// `src`: whether the client's address is in one of the networks.
    Source(Sequence<Network>),
    /// Whether an integer matches one of the patterns.
    Matches(Measure, Sequence<Pattern>),
}

impl Criterion {
    /// An equal criterion.
    pub fn copy(&self) -> Result<Criterion, NoMemory>
        ensures { IfOk result (λ criterion. criterion ≡ self.now) }
    {
        match self {
            Criterion::Always(value) => Ok(Criterion::Always(*value)),
            Criterion::IsTracked(slot) => Ok(Criterion::IsTracked(*slot)),
            Criterion::Source(networks) => Ok(Criterion::Source(networks.copy()?)),
            Criterion::Matches(measure, patterns) => {
                let measure = measure.copy()?;
                Ok(Criterion::Matches(measure, patterns.copy()?))
            }
        }
    }
}

/// A line `acl`: a name, and a criterion of which it stands. A name that is declared several times stands for each.
#[derive(Drop)]
pub struct Acl {
    pub name: Name,
    pub criterion: Criterion,
}
