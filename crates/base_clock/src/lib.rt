//! Moments in ms, from 0 to `MAX_MOMENT`, and the clocks that tell them; command services, housekeeping, connections, scripts and
//! the proxy read them.
#![tactic(auto)]

mod clock;
mod running_clock;
mod start;
mod stopped_clock;

pub use clock::Clock;
pub use running_clock::RunningClock;
pub use start::Start;
pub use stopped_clock::StoppedClock;

/// The greatest moment, in ms.
pub const MAX_MOMENT: u64 = (1 << 62) - 1;
