//! What changed from one text of a configuration to the next, line by line; `tcp_proxy` tells it of rules that were renewed.
//!
//! Lines are compared by their words. `specs/Difference.antt` says which lines one text has beyond another.
#![tactic(auto)]

mod difference;

pub use difference::{line_at, lines_beyond};
