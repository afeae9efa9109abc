//! The settling of a table in shards: its books against what its callers keep; `tcp_proxy` calls it once all threads have ended.
#![tactic(auto)]

mod checking;
mod counts;
mod fault;
mod found;
pub mod laws;
mod replaying;
mod settling;
mod telling;
mod tickets;

pub use checking::check;
pub use fault::Fault;
pub use found::Found;
pub use replaying::replay;
pub use settling::{Settled, Unsettled, settle};
pub use telling::is_told;
