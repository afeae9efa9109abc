//! Data that are put: whether they can be, and their values; `entries` calls it.
ghost use Rattle.std.specs.Prelude.{◌≡◌, IsSome};
ghost use Rattle.stick_pooled.specs.Stock.{held_at, with_values};
ghost use Rattle.stick_model.specs.Step.{put_fault as put_fault_of, put_pairs as put_pairs_of};

use crate::entry_store::Store;
use stick_model::{Cell, Reply};
use stored_data::{StoredSet, settable};

/// What the first pair that can't be put is answered.
pub(crate) fn put_fault(columns: &StoredSet, pairs: &[Cell]) -> Option<Reply>
    ensures { result ≡ put_fault_of columns.now pairs.now }
{
    for pair in pairs {
        if !settable(pair.field.datum) {
            return Some(Reply::NotSettable(pair.field));
        }
        if !columns.stores(pair.field) {
            return Some(Reply::NotStored(pair.field));
        }
    }
    None
}

/// Puts pairs into the data of a slot's entry, the first to the last.
#[inline(always)]
pub(crate) fn put_pairs(store: &mut Store, slot: u32, pairs: &[Cell])
    requires { IsSome (held_at store.old slot) }
    ensures { store.new ≡ with_values store.old slot (put_pairs_of pairs.now) }
{
    for pair in pairs {
        store.put(slot, pair.field, pair.value);
    }
}
