//! Housekeeping in tables that threads share: entries expire at their time, and long records begin again; `tcp_proxy` runs it.
#![tactic(auto)]

mod counts;
mod kept;
mod lengths;
mod pace;
mod rounds;

pub use counts::Counts;
pub use kept::Kept;
pub use pace::Pace;
pub use rounds::{housekeep, roll_long};
