//! One direction of a connection, from a reader to a writer; `tcp_link` turns a `Direction` each way.
//!
//! `pump` does the same over ports that wait, in one call. The program doesn't call it.
#![tactic(auto)]

mod carries;
mod direction;
mod flow;
mod halts;
pub mod laws;
mod pumping;
mod ready;
mod ready_stream;
mod steps;

pub use direction::Direction;
pub use flow::{Flow, MAX_TURNS, ROOM};
pub use halts::Halt;
pub use pumping::{Ending, PumpEnd, pump};
pub use ready::{ReadySink, ReadySource};
pub use ready_stream::ReadyStream;
pub use steps::{Cause, Step};
