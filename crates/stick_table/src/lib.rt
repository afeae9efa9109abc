//! What every stick table does, and the plain one; books, shards, connections and the pooled table stand on it.
//!
//! The plain one goes over all its records at each event. The types and the definitions are those of `stick_model`.
#![tactic(auto)]

mod contents;
mod plain;
mod redoing;
mod running;
mod tables;

pub use plain::PlainTable;
pub use redoing::redo_all;
pub use running::run;
pub use stick_model::{
    Cell, Cells, Event, Filter, Op, Record, Refusal, Reply, Row, RowRoom, Rows, Spec, Stored,
    Ticket, laws,
};
pub use tables::Table;
