//! What the proxy warns of as it starts: descriptors, timeouts, limits that fail open, and tables with large shards; `tcp_proxy`
//! prints it.
//!
//! By `stickd_input`, `stickd check --explain` prints the warnings of tables.
//!
//! `specs/Warnings.antt` says which warnings there are, and `specs/Limits.antt` which limits fail open.
#![tactic(auto)]

mod descriptors;
mod file_lines;
pub mod laws;
mod limits;
mod no_effect;
mod room;
mod untracked;
mod warning;
mod warnings;

pub use descriptors::{StartPlan, allowed_descriptors, descriptors_wanted};
pub use file_lines::file_warnings;
pub use warning::{Shortage, Unread, Warning};
pub use warnings::{table_warnings, warnings_of};
