//! The events that books have counted, and the tickets that are out there; `check` compares them, and `settle` tells them.

ghost use Rattle.std.specs.Prelude.{◌≡◌, IfOk, map};
ghost use Rattle.shard_settling.specs.Settled.{counts_in, tickets_in, tickets_of};

use base_sequence::{NoMemory, Sequence};
use shard_book::Book;
use std::alloc::Global;
use stick_key::StickKey;
use stick_table::{Table, Ticket};

/// How many events each shard has counted, and the tickets that are out there, the shards in order.
#[derive(Drop)]
pub struct Found {
    pub counts: Vec<u64>,
    pub tickets: Vec<Sequence<Ticket>>,
}

/// What books have.
pub(crate) fn found_in<T: Table>(alloc: Global, books: &[Book<T>]) -> Result<Found, NoMemory>
    ensures counts { IfOk result (λ found. found.counts.items ≡ counts_in books.now) }
    ensures tickets { IfOk result (λ found. found.tickets.items ≡ tickets_in books.now) }
{
    let mut counts = Vec::new(alloc);
    let mut tickets = Vec::new(alloc);
    for book in books {
        counts.push(book.events())?;
        tickets.push(out_of(alloc, book)?)?;
    }
    Ok(Found { counts, tickets })
}

/// The tickets that are out. The table is copied for it, and the copy dropped: only a plain table lists them.
fn out_of<T: Table>(alloc: Global, book: &Book<T>) -> Result<Sequence<Ticket>, NoMemory>
    ensures { IfOk result (λ tickets. tickets ≡ tickets_of book.now.live) }
{
    let table = book.live().to_plain()?;
    let tickets = tickets_alone(alloc, table.tickets())?;
    Ok(Sequence::from_vec(tickets))
}

/// Tickets without their keys.
fn tickets_alone(alloc: Global, held: &[(Ticket, StickKey)]) -> Result<Vec<Ticket>, NoMemory>
    ensures { IfOk result (λ tickets. tickets.items ≡ map (λ one. one.0) held.now) }
{
    let mut tickets = Vec::new(alloc);
    for one in held {
        tickets.push(one.0)?;
    }
    Ok(tickets)
}
