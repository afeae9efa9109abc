//! Where a program's lines go, so that nobody waits for who reads them; `stickd` runs its proxy with one.
//!
//! - What decides is pure: the `Way` of writing to what a descriptor is open on, what an `Attempt` came to, how much of a patience is left,
//!   and the mark of a level. `Outlet` is the thin calls round it.
//! - `Console` has an outlet for standard output and one for standard error. A line that can't be written in time is lost, and counted.
//! - `Attended` is a runtime with a console: it says its lines there, and has each other capability of the runtime inside.
#![tactic(auto)]

mod attempt;
mod attended;
mod console;
mod forwarding;
mod marks;
mod outlet;
mod patience;
mod pieces;
mod way;

pub use attempt::{Attempt, attempt_of};
pub use attended::{Attended, Lines};
pub use console::{Console, PATIENCE};
pub use marks::{LostLines, mark_of};
pub use outlet::Outlet;
pub use patience::{STEP, left_after};
pub use way::{Kind, Way, way_of};
