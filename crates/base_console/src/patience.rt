//! How long may still be waited for who reads; `outlet` spends it step by step.

ghost use Rattle.std.specs.Prelude.{◌≡◌};
ghost use Rattle.base_console.specs.Patience as spec;

/// How long one step of waiting takes, in ms.
pub const STEP: u64 = 10;

/// How many ms of waiting are left after one more step without room. None where there were none left for it.
pub fn left_after(left: u64) -> Option<u64>
    ensures { result ≡ spec.left_after left }
{
    left.checked_sub(STEP)
}
