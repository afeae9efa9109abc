//! Room for one more entry, by a purge of the oldest; `entries` and `tracking` call it before they store one.
ghost use Rattle.std.specs.Prelude.{◌≡◌, ◌≤◌, length};
ghost use Rattle.std.specs.Bool.{OnTrue, OnFalse};
ghost use Rattle.stick_pooled.specs.Stock.{IsStock};
ghost use Rattle.stick_pooled.specs.Shown.{IsRising};
ghost use Rattle.stick_pooled.specs.Space.{IsPurged, IsRoomy, IsFull};

use crate::entry_store::Store;
use stick_model::Spec;

/// Removes so many of the entries that no reference holds, those that were refreshed first; where they are fewer, all. The store
/// counts each.
fn purge_oldest(store: &mut Store, purge: u32)
    requires stock { IsStock store.old }
    requires rising { IsRising store.old store.old.queue }
    ensures { IsPurged purge store.old store.new }
{
    for _round in 0..purge {
        let Some(front) = store.front() else {
            return;
        };
        store.remove(front);
        store.note_purged();
    }
}

/// Makes room for one more entry, if that can be: where none is left, as many go as the table is made with of those that
/// no reference holds, those that were refreshed first.
pub(crate) fn make_room(store: &mut Store, spec: &Spec) -> bool
    requires stock { IsStock store.old }
    requires rising { IsRising store.old store.old.queue }
    requires sized { length store.old.slots ≡ spec.now.size }
    requires purge { 1 ≤ spec.now.purge }
    ensures roomy { OnTrue result (IsRoomy spec.now store.old store.new) }
    ensures full { OnFalse result (IsFull spec.now store.old) }
    ensures kept { OnFalse result (store.new ≡ store.old) }
{
    if store.len() < spec.size {
        return true;
    }
    if spec.nopurge {
        return false;
    }
    if store.front().is_none() {
        return false;
    }
    purge_oldest(store, spec.purge);
    true
}
