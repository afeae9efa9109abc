//! The texts of commands on stick tables, and of their answers; `table_cli` reads and prints by it, and `stickd_script`'s proofs
//! cite it.
//!
//! It says what form a line's words have, what event that asks, and what a reply is printed as (HAProxy Management Guide 2.8,
//! `show table`, `set table`, `clear table`).
#![tactic(auto)]

mod answer_text;
mod comparisons;
mod field_name;
mod filters;
mod form;
mod header;
mod labels;
mod message;
mod request;
mod rows;

pub use answer_text::Answer;
pub use comparisons::{Comparison, read_comparisons};
pub use field_name::read_field;
pub use filters::{Filtered, read_filtered};
pub use form::{Choice, Form, Request, read_form};
pub use header::push_header;
pub use message::Message;
pub use request::read_event;
