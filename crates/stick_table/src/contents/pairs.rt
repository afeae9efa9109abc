//! Data that are put: whether they can be, and their values; `changes` calls it.
ghost use Rattle.std.specs.Prelude.{◌≡◌};
ghost use Rattle.stick_model.specs.Step.{put_fault as put_fault_of, put_pairs as put_pairs_of};

use stick_model::{Cell, Reply};
use stored_data::{StoredSet, Values, settable};

/// What the first pair that can't be put is answered.
pub(crate) fn put_fault(columns: &StoredSet, pairs: &[Cell]) -> Option<Reply>
    ensures { result ≡ put_fault_of columns.now pairs.now }
{
    for pair in pairs {
        if !settable(pair.field.datum) {
            return Some(Reply::NotSettable(pair.field));
        }
        if !columns.stores(pair.field) {
            return Some(Reply::NotStored(pair.field));
        }
    }
    None
}

/// Puts pairs, the first to the last.
pub(crate) fn put_pairs(values: &mut Values, pairs: &[Cell])
    ensures { values.new ≡ put_pairs_of pairs.now values.old }
{
    for pair in pairs {
        values.put(pair.field, pair.value);
    }
}
