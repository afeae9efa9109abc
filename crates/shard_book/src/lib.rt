//! Books, a table in shards, and what each caller of one knows; commands, connections, locks, settling and scripts stand on it.
//!
//! A book is a table with the record of its calls. What the replies of a table's shards to one event come to is said here too:
//! numbers added up, rows in the order of their keys. A caller has a seat and its references.
#![tactic(auto)]

mod asking;
mod book;
mod books;
mod brief;
mod joining;
mod keeper;
mod kept;
pub mod laws;
mod named;
mod occupancy;
mod order;
mod receipt;
mod recorded;
mod seat;
pub mod seat_laws;
mod short;
mod track_ref;

pub use book::Book;
pub use books::Books;
pub use joining::{added, joined};
pub use keeper::Keeper;
pub use kept::Kept;
pub use named::Named;
pub use occupancy::Occupancy;
pub use order::in_key_order;
pub use receipt::Receipt;
pub use recorded::Recorded;
pub use seat::{Seat, serve};
pub use track_ref::TrackRef;
