//! A connection goes on by ports: each is a table in shards, wherever they are kept, that it asks one event at a time.
//!
//! `specs/Moves.antt` says what a move does to the connection and to the ports.
#![tactic(auto)]

mod asking;
mod drive;
mod hearing;
mod moved;
mod visit;

pub use drive::advance;
pub use moved::{Moved, Rested};
pub use visit::{finish, judge};
