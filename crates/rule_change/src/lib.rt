//! What of a configuration may change while the proxy runs, and the setup that follows; `tcp_proxy` renews by it, and `tcp_relay`
//! asks it whether a setup may judge.
//!
//! Rules and the server may change. Tables, where clients come, shards and prefixes stay as they were until a restart.
//!
//! `specs/Changes.antt` says which change is the first, and `specs/Versions.antt` what is a version of a setup.
#![tactic(auto)]

mod change;
mod equality;
mod tables;
mod versions;

pub use change::{Change, NotRenewed, Part};
pub use versions::{is_version_of, renew};
