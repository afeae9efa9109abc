//! What always holds, though no proof says so: where it doesn't, nothing goes on. Calls under a lock ask it.

ghost use Rattle.std.specs.Prelude.{◌≡◌, true};

use std::sync::Wait;

/// Returns where it holds. Else the thread waits for ever.
pub(crate) fn insist(rt: &impl Wait, holds: bool)
    ensures { holds ≡ true }
{
    if holds {
        return;
    }
    for _ in rt.forever() {}
    unreachable!()
}
