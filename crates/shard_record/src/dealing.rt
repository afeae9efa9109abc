//! The tokens with which the books and the seats of a record begin; whoever opens shared tables deals them.

ghost use Rattle.std.specs.Prelude.{◌≡◌, ◌+◌, ◌<◌, ◌≤◌, ℕ, [], IfOk};
ghost use Rattle.shard_record.specs.Views.{at};
ghost use Rattle.shard_record.specs.Telling.{IsSettled, spoken};
ghost use Rattle.shard_record.specs.Dealing.{IsLeft, SeesAll};

use crate::{Keeper, Naming, Opened, Record, Token};
use std::alloc::{AllocError, Global};
use std::marker::Model;
use std::sync::Arc;

/// A record, and what is left of its first token. Contracts see it as how many books and seats there are, and how many of them
/// were dealt.
#[derive(Drop)]
pub struct Dealer<J: Naming> {
    records: Arc<Record<J>, Global>,
    first: Token<J>,
    books: u32,
    kept: u32,
    seats: u32,
    seated: u32,
}

impl<J: Naming> Model for Dealer<J> {
    ghost use Rattle.std.specs.Prelude.{◌≡◌};
    ghost use Rattle.shard_record.specs.Dealing.{DealerState, IsLeft};

    ghost Value = { DealerState };

    ghost view = { λ dealer. record { books = dealer.books; kept = dealer.kept; seats = dealer.seats; seated = dealer.seated } };

    ghost invariant = { λ dealer. IsLeft dealer.kept dealer.books dealer.seated dealer.seats dealer.first × (dealer.books ≡ J.books) };
}

impl<J: Naming> Dealer<J> {
    /// Gives a record its name. Nothing was dealt yet. It takes memory, since all tables of the record share it.
    pub fn new(alloc: Global, opened: Opened) -> Result<Dealer<J>, AllocError>
        requires record { opened.first.table_id ≡ J.record_id }
        requires books { opened.books ≡ J.books }
        ensures { IfOk result (λ dealer. dealer ≡ record { books = opened.books; kept = 0; seats = opened.seats; seated = 0 }) }
    {
        let books = opened.books;
        let seats = opened.seats;
        let (records, first) = opened.named::<J>();
        let records = Arc::new(alloc, records)?;
        Ok(Dealer {
            records,
            first,
            books,
            kept: 0,
            seats,
            seated: 0,
        })
    }

    /// The record, as each table is to have it.
    pub fn records(&self) -> Result<Arc<Record<J>, Global>, AllocError> {
        Arc::try_clone(&self.records)
    }

    /// How many books were dealt.
    pub fn kept(&self) -> u32
        ensures kept { result ≡ self.now.kept }
        ensures books { self.now.books ≡ J.books }
    {
        self.kept
    }

    /// The token of the next seat, which may call any of the record's books. Nothing was called yet.
    pub fn seat(&mut self) -> Token<J>
        requires { self.old.seated < self.old.seats }
        ensures left { self.new ≡ record self.old { seated = self.old.seated + 1 } }
        ensures seer { SeesAll J.books result }
        ensures settled { IsSettled result }
    {
        let seat = deal_seat(
            &self.records,
            &mut self.first,
            self.books,
            self.kept,
            self.seats,
            self.seated,
        );
        self.seated += 1;
        seat
    }

    /// What keeps the record of the next book, of which nothing was called.
    pub fn keeper(&mut self) -> Keeper<J>
        requires { self.old.kept < self.old.books }
        ensures left { self.new ≡ record self.old { kept = self.old.kept + 1 } }
        ensures keeper { result ≡ record { book = self.old.kept; log = [] } }
    {
        let keeper = deal_keeper(
            &self.records,
            &mut self.first,
            self.books,
            self.kept,
            self.seats,
            self.seated,
        );
        self.kept += 1;
        keeper
    }
}

/// The token of a seat, which may call any of a record's books under the next number. Nothing was called yet.
fn deal_seat<J: Naming>(
    records: &Record<J>,
    first: &mut Token<J>,
    books: u32,
    kept: u32,
    seats: u32,
    number: u32,
) -> Token<J>
    requires number { number < seats }
    requires first { IsLeft kept books number seats first.old }
    ensures first { IsLeft kept books (number + 1) seats first.new }
    ensures seat { (book : ℕ) → book < books → at book result ≡ spoken number [] [] }
    ensures settled { IsSettled result }
{
    let mut seat = records.part_held(first);
    for book in 0..books {
        let one = records.part_seat(first, book, number);
        records.join(&mut seat, one);
    }
    seat
}

/// The token that keeps the record of the next book, of which nothing was called.
fn deal_keeper<J: Naming>(
    records: &Record<J>,
    first: &mut Token<J>,
    books: u32,
    book: u32,
    seats: u32,
    number: u32,
) -> Keeper<J>
    requires book { book < books }
    requires first { IsLeft book books number seats first.old }
    ensures first { IsLeft (book + 1) books number seats first.new }
    ensures keeper { result ≡ record { book = book; log = [] } }
{
    Keeper::new(records, first, book)
}
