//! Worlds: connections that share the tables of a setup, and go on in any order; only tests run them.
//!
//! `World::run` leads through schedules. The laws say what holds of connections whatever the schedule by which they go on.
#![tactic(auto)]

pub mod laws;
mod visit;
mod visitor;
mod world;

pub use admit_drive::Reference;
pub use visit::Visit;
pub use world::World;
