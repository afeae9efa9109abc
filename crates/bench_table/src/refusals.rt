//! What `tests/refusals` runs, each allocation of which it refuses in turn: the calls of a table that threads share, and the
//! connections of a world.

mod calls;
mod worlds;

use calls::make_calls;
use std::io;
use std::io::Print;
use std::sync::Wait;
use worlds::lead_connections;

/// Makes the calls and leads the connections; answers whether these went as their schedule says.
pub fn run_refusals<R: Wait + Print + AllocGlobal>(rt: &R) -> io::Result<bool> {
    make_calls(rt)?;
    lead_connections(rt)
}
