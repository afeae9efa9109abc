//! What a stick table is and does, apart from any code; tables, shards, rules and commands share its types.
//!
//! `specs/` has the definitions of its state, of the step that each event makes, of runs, and of the laws that follow.
#![tactic(auto)]

mod equal_cells;
mod equal_events;
mod equal_filters;
mod equal_replies;
mod equal_rows;
mod equal_specification;
mod events;
mod filters;
mod gathering;
pub mod laws;
mod listed_rows;
mod packed_row;
mod replies;
mod row_room;
mod rows;
mod specification;

pub use equal_events::same_event;
pub use equal_replies::same_reply;
pub use equal_specification::same_spec;
pub use events::{Event, Stored};
pub use filters::{Filter, Op};
pub use gathering::Gathering;
pub use listed_rows::{InPlace, Reading, Rows};
pub use packed_row::PackedRow;
pub use replies::{Refusal, Reply};
pub use row_room::RowRoom;
pub use rows::{Cell, Cells, Record, Row, Ticket};
pub use specification::Spec;
