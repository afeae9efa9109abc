//! A latch, for which threads wait beside what else they wait for; `tcp_relay` wakes its workers by one as a drain begins, and
//! `tcp_proxy` the threads beside the listener as they are to end.
#![tactic(auto)]

mod latch;
mod waits;

pub use latch::Latch;
