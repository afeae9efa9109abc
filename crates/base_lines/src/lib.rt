//! Lines, words and decimal numbers of bytes, and the service of a reader's lines; configurations, commands, scripts and `adopt`
//! read by it.
//!
//! Contracts cite the definitions in `specs`: `Parts` (the parts of bytes round those that part them), `Words`, `Parentheses`,
//! `Line` (a line that is not too long), `Number`, and `Chain`. The last is of items done one after another, their texts joined:
//! how far such work is done, and where it stops within an item.
//!
//! A crate above cites the lemmas on them by their files in `proofs`: `PartLemmas` (parts of a text that grows), `WordLemmas`,
//! `LineLemmas`, `NumberLemmas`, `ChainLemmas` and `ServiceLemmas`, as in `use Rattle.base_lines.proofs.PartLemmas.{parts_join}`.
#![tactic(auto)]

mod feed;
pub mod laws;
mod line;
mod number;
mod parentheses;
mod parts;
mod server;
mod service;
mod words;

pub use line::{LINE_LIMIT, LineSoFar, without_cr};
pub use number::{push_decimal, read_number};
pub use parentheses::{before_parenthesis, has_closing, inside};
pub use parts::Parts;
pub use server::LineServer;
pub use service::{LineFault, LineFaultKind, serve_lines};
pub use words::{Blanks, Words};
