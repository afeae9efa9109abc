//! A connection goes on by the books of a setup's tables, one move each time; `admit_world` and `stickd_script` lead connections
//! by it.
//!
//! A move is one event of one shard, or one change of phase. `specs/Moves.antt` says what that does to the connection and to the
//! tables.
//!
//! `laws` says what every move keeps: what is out of a shard lies on it, and connections at which nothing is refused come to one
//! end. Those who lead connections, in a world or by a script, take what they prove of single moves from its lemmas.
#![tactic(auto)]

mod drive;
pub mod laws;
mod open;

pub use drive::{advance, advance_to_rest};
pub use open::open_tables;
pub use shard_port::Reference;
