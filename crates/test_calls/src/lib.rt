//! Calls of tables in shards for tests and benchmarks: events that are given, or drawn at random, and asked by callers that
//! hold references. They stand apart so that they are proved once for all.
//!
//! Worlds of connections from a few addresses under one limit, and what is counted of them: for `test_rules`, and for
//! `bench_table`, whose allocations are refused in turn.
//!
//! Crowds of clients of such a table, each on a thread of its own, which are admitted at a limit: for `bench_table`.
#![tactic(auto)]

mod asking;
mod books;
mod caller;
mod counts;
mod crowds;
mod draws;
mod purse;
mod random_numbers;
mod records;
mod setups;
mod telling;

pub use asking::ticket_of;
pub use books::books_of;
pub use caller::{Caller, Drawing};
pub use counts::{admitted, go_on, held, open_world, out, phase, visit};
pub use crowds::{Client, Crowd, admit_all};
pub use draws::key;
pub use purse::{Held, Purse, abandon_all};
pub use random_numbers::Random;
pub use records::{OpenTable, Planned, Records, TablePlan, open_alone, open_record};
pub use setups::limiting;
pub use telling::{Asked, Told};
