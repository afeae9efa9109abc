//! Which entries a filter means, and which the clock leaves; `clearing`, `listing`, `looks` and `tracked` ask it.
ghost use Rattle.std.specs.Prelude.{◌≡◌, ◌<◌, ◌^◌, ◌&&◌, Some, IfSome, IfNone, IsSome, false};
ghost use Rattle.std.specs.Option.{option_map_or};
ghost use Rattle.stick_pooled.specs.Stock.{Held, held_at};
ghost use Rattle.stick_pooled.specs.Seen.{is_kept, is_meant, is_meant_as, IsLive, IsGone};

use crate::entry_store::Store;
use crate::expiry::is_alive;
use std::cmp::Ordering;
use stick_key::StickKey;
use stick_model::Filter;

/// Whether a filter means the entry of a slot that has one, by the values that its row shows at this moment in ms.
#[inline(always)]
fn means(store: &Store, clock: u64, choice: &Filter, slot: u32) -> bool
    requires { IsSome (held_at store.now slot) }
    ensures { (held : Held) → held_at store.now slot ≡ Some held → result ≡ is_meant clock choice.now held }
{
    match choice {
        Filter::Everything => true,
        Filter::Nothing => false,
        Filter::Key(key) => key.cmp(store.key(slot)) == Ordering::Equal,
        Filter::Compare(field, op, bound) => {
            let refs = store.entry(slot).refs;
            let value = store.get(slot, *field, clock).unwrap_or(u64::from(refs));
            op.compares(value, *bound)
        }
    }
}

/// Whether a slot has an entry that a filter means, and that a reference holds or, as asked, none does.
pub(crate) fn matches(store: &Store, clock: u64, choice: &Filter, tracked: bool, slot: u32) -> bool
    ensures { result ≡ option_map_or (is_meant_as clock choice.now tracked) (held_at store.now slot) false }
{
    if store.handle_at(slot).is_none() {
        return false;
    }
    if store.entry(slot).refs > 0 {
        tracked && means(store, clock, choice, slot)
    } else {
        !tracked && means(store, clock, choice, slot)
    }
}

/// Whether the entry of a slot that has one is there when the clock has come to this moment.
#[inline(always)]
fn stays(store: &Store, expire: Option<u32>, clock: u64, slot: u32) -> bool
    requires clock { clock < 2 ^ 62 }
    requires there { IsSome (held_at store.now slot) }
    ensures { (held : Held) → held_at store.now slot ≡ Some held → result ≡ is_kept clock expire held }
{
    let entry = store.entry(slot);
    entry.refs > 0 || is_alive(expire, entry.moment, clock)
}

/// Whether a slot has an entry that is there when the clock has come to this moment.
#[inline(always)]
fn is_live(store: &Store, expire: Option<u32>, clock: u64, slot: u32) -> bool
    requires { clock < 2 ^ 62 }
    ensures { result ≡ option_map_or (is_kept clock expire) (held_at store.now slot) false }
{
    if store.handle_at(slot).is_none() {
        return false;
    }
    stays(store, expire, clock, slot)
}

/// The slot of a key's entry, where it is there when the clock has come to this moment.
///
/// It is put into its callers, as a slot that comes back from a call waits until the entry was read, and what is read by it as well.
#[inline(always)]
pub(crate) fn live_slot(
    store: &Store,
    expire: Option<u32>,
    clock: u64,
    key: &StickKey,
) -> Option<u32>
    requires { clock < 2 ^ 62 }
    ensures live { IfSome result (IsLive store.now expire clock key.now) }
    ensures gone { IfNone result (IsGone store.now expire clock key.now) }
{
    let handle = store.find(key)?;
    if !stays(store, expire, clock, handle.slot) {
        return None;
    }
    Some(handle.slot)
}

/// Whether a slot has an entry that is there when the clock has come to this moment, and that a filter means.
#[inline(always)]
pub(crate) fn is_listed(
    store: &Store,
    expire: Option<u32>,
    clock: u64,
    choice: &Filter,
    slot: u32,
) -> bool
    requires { clock < 2 ^ 62 }
    ensures { result ≡ option_map_or (λ held. is_kept clock expire held && is_meant clock choice.now held) (held_at store.now slot) false }
{
    is_live(store, expire, clock, slot) && means(store, clock, choice, slot)
}
