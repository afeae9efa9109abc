//! One record of the calls of each book, for all threads, which exists in proofs alone; and what each thread knows of it.
//!
//! `shard_book::Kept` notes each call of a book in it under the book's lock, and `shard_locks` gives each seat and each reference a
//! token of it. So each call of a shared table says what stands in its shard's record, and the laws hold of all threads at every moment.
#![tactic(auto)]

mod choosing;
mod dealing;
mod keeper;
pub mod laws;
mod naming;
mod record;
mod rules;
mod telling;
mod token;
mod view;

pub use dealing::Dealer;
pub use keeper::Keeper;
pub use naming::Naming;
pub use record::{Opened, Record};
pub use rules::{OneRecord, Sizes};
pub use token::Token;
pub use view::{Call, Caller, Part, View};
