//! Which entries are meant; `table_texts` makes a filter of a command, and tables list and clear by it.
ghost use Rattle.std.specs.Prelude.{◌≡◌, IfOk};
ghost use Rattle.stick_model.specs.Filters.{compares as compares_by, not_stored as not_stored_in};

use base_sequence::NoMemory;
use stick_key::StickKey;
use stored_data::{Field, StoredSet};

/// How a value is compared with a bound.
#[derive(Clone, Copy, Debug, PartialEq, Eq)]
pub enum Op {
    Eq,
    Ne,
    Le,
    Ge,
    Lt,
    Gt,
}

impl Op {
    /// Whether a value compares so with a bound.
    pub fn compares(self, value: u64, bound: u64) -> bool
        ensures { result ≡ compares_by self value bound }
    {
        match self {
            Op::Eq => value == bound,
            Op::Ne => value != bound,
            Op::Le => value <= bound,
            Op::Ge => value >= bound,
            Op::Lt => value < bound,
            Op::Gt => value > bound,
        }
    }
}

/// Which entries are meant: all, none, that of a key, or those whose row shows such a value of a field.
#[derive(Drop)]
pub enum Filter {
    Everything,
    Nothing,
    Key(StickKey),
    Compare(Field, Op, u64),
}

impl Filter {
    /// The field that it compares and a table with these columns doesn't store.
    pub fn not_stored(&self, columns: &StoredSet) -> Option<Field>
        ensures { result ≡ not_stored_in columns.now self.now }
    {
        match self {
            Filter::Compare(field, _, _) if !columns.stores(*field) => Some(*field),
            _ => None,
        }
    }

    /// An equal filter.
    pub fn copy(&self) -> Result<Filter, NoMemory>
        ensures { IfOk result (λ filter. filter ≡ self.now) }
    {
        match self {
            Filter::Everything => Ok(Filter::Everything),
            Filter::Nothing => Ok(Filter::Nothing),
            Filter::Key(key) => Ok(Filter::Key(key.copy()?)),
            Filter::Compare(field, op, bound) => Ok(Filter::Compare(*field, *op, *bound)),
        }
    }
}
