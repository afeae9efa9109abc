//! A caller of books of its own, which have no lock: what is done under one, and nothing else.

ghost use Rattle.std.specs.Prelude.{◌<◌};
ghost use Rattle.stick_model.specs.Limits.{IsTableEvent};

use crate::locks::calls::{Calls, KEYS};
use base_sequence::NoMemory;
use shard_book::{Book, Seat, serve};
use std::alloc::Global;
use stick_key::shard_of;
use stick_table::{Event, Reply, Table};
use test_calls::{Held, key, ticket_of};

/// A caller of books of its own.
#[derive(Drop)]
pub struct BareCaller<T: Table> {
    alloc: Global,
    books: Vec<Book<T>>,
    seat: Seat,
    held: Vec<Held>,
}

/// Has the book of a shard answer an event, as it does under its lock.
fn serve_by<T: Table>(
    book: &mut Book<T>,
    seat: &mut Seat,
    shard: u32,
    event: Event,
) -> Option<Reply>
    requires shard { shard < 64 }
    requires event { IsTableEvent event }
{
    match serve(book, seat, shard, event) {
        Ok(reply) => Some(reply),
        Err(_) => None,
    }
}

/// The same by the book of the shard, where there is one.
fn serve_at<T: Table>(
    books: &mut Vec<Book<T>>,
    seat: &mut Seat,
    shard: u32,
    event: Event,
) -> Option<Reply>
    requires { IsTableEvent event }
{
    match books.get_mut(shard as usize) {
        Some(book) if shard < 64 => serve_by(book, seat, shard, event),
        _ => None,
    }
}

/// The same, of an event whose reply tells no ticket; answers whether there was a reply.
fn is_served<T: Table>(books: &mut Vec<Book<T>>, seat: &mut Seat, shard: u32, event: Event) -> bool
    requires { IsTableEvent event }
{
    serve_at(books, seat, shard, event).is_some()
}

impl<T: Table> BareCaller<T> {
    /// A caller of these books.
    pub fn new(alloc: Global, books: Vec<Book<T>>, seat: Seat) -> BareCaller<T> {
        BareCaller {
            alloc,
            books,
            seat,
            held: Vec::new(alloc),
        }
    }

    /// Tracks the key of a place; answers the reference, where it isn't refused.
    fn track(&mut self, place: u32) -> Option<Held> {
        let number = self.seat.number().wrapping_mul(KEYS).wrapping_add(place);
        let key = key(self.alloc, number).ok()?;
        let shards = self.books.len().clamp(1, 64) as u32;
        let shard = shard_of(&key, shards);
        let reply = serve_at(&mut self.books, &mut self.seat, shard, Event::Track(0, key))?;
        match ticket_of(&reply) {
            Some(ticket) => Some(Held { shard, ticket }),
            None => None,
        }
    }

    /// Gives a reference back; answers whether it was taken.
    fn release(&mut self, held: Held) -> bool {
        let event = Event::Release(0, held.ticket);
        is_served(&mut self.books, &mut self.seat, held.shard, event)
    }
}

impl<T: Table> Calls for BareCaller<T> {
    fn hold(&mut self, place: u32) -> bool {
        match self.track(place) {
            Some(held) => self.held.push(held).is_ok(),
            None => false,
        }
    }

    fn look(&mut self, place: u32) -> bool {
        match self.held.get(place as usize) {
            Some(held) => {
                let (shard, event) = (held.shard, Event::Look(0, held.ticket));
                is_served(&mut self.books, &mut self.seat, shard, event)
            }
            None => false,
        }
    }

    fn pass(&mut self, place: u32) -> bool {
        match self.track(place) {
            Some(held) => self.release(held),
            None => false,
        }
    }

    fn begin_again(&mut self) -> Result<(), NoMemory> {
        for book in self.books.iter_mut() {
            book.roll()?;
        }
        Ok(())
    }
}
