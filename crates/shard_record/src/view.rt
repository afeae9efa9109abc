//! What tokens know; no value of these types is made, and clauses alone speak of them.

use std::collections::LinkedList;
use stick_key::StickKey;
use stick_model::{Event, Reply, Ticket};

/// A call that was answered, and the number of the seat that made it.
pub struct Call {
    pub seat: u32,
    pub event: Event,
    pub reply: Reply,
}

/// A seat that calls, by its number, and the calls of one book that it made.
pub struct Caller {
    pub number: u32,
    pub mine: LinkedList<Call>,
}

/// What a token knows of one book, and has of it.
pub struct Part {
    /// Whether it keeps the whole record.
    pub keeps: bool,
    /// The beginning of the record that it knows.
    pub log: LinkedList<Call>,
    /// Another beginning, of which it was told, and which it hasn't compared yet.
    pub told: LinkedList<Call>,
    /// The references that it has.
    pub held: LinkedList<(Ticket, StickKey)>,
    /// The seats for which it may call.
    pub callers: LinkedList<Caller>,
}

/// What a token knows of each book, by the book's number; of those behind the last it knows nothing.
pub type View = LinkedList<Part>;
