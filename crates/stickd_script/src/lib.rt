//! The replay of a timed script, each line a moment in ms and what is done at it; `stickd replay` runs it, by `replay_script`.
//!
//! `stickd_input` takes the built-in setup from it.
#![tactic(auto)]

mod bad_lines;
mod built_in;
mod guests;
pub mod laws;
mod line;
mod loaded;
mod noting;
mod replay;
mod rolling;
mod server;
mod short_text;

pub use bad_lines::BadLines;
pub use built_in::built_in as built_in_setup;
pub use loaded::{Stopped, replay_loaded};
pub use replay::{FaultKind, ReplayFault, replay_script};
pub use rule_model::{LIFE, MAX_REFS, NamedSpec, Setup};
