//! The terminal that answers are shown on.

use crate::window::Window;
use std::env;
use std::rt::Env;

/// What the cursor goes home by, and what all behind it is cleared by.
pub(crate) const HOME: &[u8] = b"\x1b[H\x1b[J";

/// The terminal's size, as the environment says it. The kit has no call that asks the terminal itself.
pub(crate) fn read_window<R: Env + AllocGlobal>(rt: &R) -> Window {
    let lines = env::var(rt, "LINES").ok();
    let columns = env::var(rt, "COLUMNS").ok();
    Window::of(
        lines.as_deref().map(str::as_bytes),
        columns.as_deref().map(str::as_bytes),
    )
}
