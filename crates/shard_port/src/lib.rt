//! A table in shards, as connections ask it: the port, and that of the books of one thread.
//!
//! `specs/Port.antt` says what the answers of a port mean.
#![tactic(auto)]

mod books;
mod port;
mod reference;
mod replies;

pub use port::Port;
pub use reference::Reference;
pub use replies::{counted_value, row_or_none, shown_row};
