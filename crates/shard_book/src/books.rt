//! The books of a table's shards, for callers on one thread; scripts and worlds keep their tables so.

ghost use Rattle.std.specs.Prelude.{◌≡◌, ◌≤◌, ◌<◌, ◌^◌, ◌-◌, ℕ, min, map, sum_by, Some, length, slice_get, IfOk, IfErr, OnOk, OnErr, IsOk};
ghost use Rattle.stick_model.specs.Limits.{IsTableSpec, IsTableEvent};
ghost use Rattle.stick_model.specs.declared.events.Event.TheVariants.{Release};
ghost use Rattle.shard_book.specs.BooksState.{AreBooks, ExtendsAt, IsOutAt, IsRefusedAt, LivesAt, live_states, opened_books};
ghost use Rattle.shard_book.specs.Keeping.{part_of};
ghost use Rattle.shard_book.specs.Rolling.{RollsInPart, calls_counted, rolled_books, rolled_first};
ghost use Rattle.shard_book.specs.BookState.{BookState, rolled};

use crate::{Book, Keeper, Occupancy};
use base_sequence::NoMemory;
use std::alloc::Global;
use std::marker::Model;
use stick_key::size_of_shard;
use stick_table::{Event, PlainTable, Refusal, Reply, Spec, Table};

/// The seat for which commands are recorded.
const COMMANDS: u32 = 0;

/// A table in shards, each with a book of its own, for callers on one thread.
#[derive(Drop)]
pub struct Books<T: Table> {
    spec: Spec,
    books: Vec<Book<T>>,
}

impl<T: Table> Model for Books<T> {
    ghost use Rattle.shard_book.specs.BooksState.{BooksState, AreBooks};

    ghost Value = { BooksState };

    ghost view = { λ table. record { spec = table.spec; books = table.books.items } };

    ghost invariant = { λ table. AreBooks (record { spec = table.spec; books = table.books.items }) };
}

/// What a shard of a table is made with: all as the table, and the shard's part of its size.
fn spec_of_shard(spec: &Spec, shards: u32, shard: u32) -> Result<Spec, NoMemory>
    requires { 1 ≤ shards }
    ensures { IfOk result (λ part. part ≡ part_of spec.now shards shard) }
{
    let mut part = spec.copy()?;
    part.size = size_of_shard(spec.size, shards, shard);
    Ok(part)
}

/// How many calls the records of books have together.
fn count_calls<T: Table>(books: &Vec<Book<T>>) -> u64
    ensures { result ≡ min (sum_by (λ (book : BookState). length book.calls) books.now.items) (2 ^ 64 - 1) }
{
    let mut count = 0u64;
    for book in books.as_slice() {
        count = count.saturating_add(book.calls().len() as u64);
    }
    count
}

/// Rolls books in turn, up to the first that is refused.
fn roll_each<T: Table>(books: &mut Vec<Book<T>>) -> Result<(), NoMemory>
    ensures ok { OnOk result (books.new.items ≡ map rolled books.old.items) }
    ensures err { OnErr result ((count : ℕ) × (count < length books.old.items) × (books.new.items ≡ rolled_first count books.old.items)) }
{
    for shard in 0..books.as_slice().len() {
        match books[shard].roll() {
            Ok(()) => {}
            Err(error) => return Err(error),
        }
    }
    Ok(())
}

impl<T: Table> Books<T> {
    /// The books of a table's empty shards. The first shards have one place more, where the size is no multiple.
    pub fn new(alloc: Global, spec: Spec, shards: u32) -> Result<Books<T>, NoMemory>
        requires spec { IsTableSpec spec }
        requires some { 1 ≤ shards }
        requires few { shards ≤ 64 }
        requires places { shards ≤ spec.size }
        ensures opened { IfOk result (λ table. table ≡ opened_books spec shards) }
        ensures books { IfOk result (λ table. AreBooks table) }
    {
        let mut books = Vec::new(alloc);
        for shard in 0..shards {
            let part = spec_of_shard(&spec, shards, shard)?;
            let book = Book::open(alloc, part)?;
            books.push(book)?;
        }
        Ok(Books { spec, books })
    }

    /// Has the book of a shard answer an event, as `Book::call` does. The books of the other shards stay.
    pub fn call(&mut self, shard: u32, seat: u32, event: Event) -> Result<Reply, Refusal>
        requires shard { shard < length self.old.books }
        requires event { IsTableEvent event }
        ensures before { AreBooks self.old }
        ensures books { AreBooks self.new }
        ensures ok { IfOk result (λ reply. ExtendsAt self.old shard seat event reply self.new) }
        ensures lives { OnOk result (LivesAt (live_states self.old) shard event) }
        ensures refused { IfErr result (IsRefusedAt (live_states self.old) shard event) }
        ensures release { (now : _) (ticket : _) → event ≡ Release now ticket → IsOutAt (live_states self.old) shard ticket → IsOk result }
        ensures err { OnErr result (self.new ≡ self.old) }
    {
        let book = &mut self.books[shard as usize];
        book.call(seat, event)
    }

    /// How many calls the records of all shards have together; the count ends at 2^64 - 1.
    pub fn recorded(&self) -> u64
        ensures { result ≡ calls_counted self.now }
    {
        count_calls(&self.books)
    }

    /// Rolls the book of each shard in turn, as `Book::roll` does, so that no record has calls left. Where one is refused,
    /// those before it are rolled, and it and those behind it stay as they were.
    pub fn roll(&mut self) -> Result<(), NoMemory>
        ensures books { AreBooks self.new }
        ensures ok { OnOk result (self.new ≡ rolled_books self.old) }
        ensures err { OnErr result (RollsInPart self.old self.new) }
    {
        roll_each(&mut self.books)
    }

    /// What of a shard is occupied, as `Book::occupancy`.
    pub fn shard_occupancy(&self, shard: u32) -> Occupancy
        requires { shard < length self.now.books }
        ensures { (book : BookState) → slice_get self.now.books shard ≡ Some book → result.references ≡ length book.live.tickets }
    {
        self.book(shard).occupancy()
    }

    /// The book of a shard.
    pub fn book(&self, shard: u32) -> &Book<T>
        requires { shard < length self.now.books }
        ensures book { slice_get self.now.books shard ≡ Some result.now }
        ensures books { AreBooks self.now }
    {
        &self.books[shard as usize]
    }
}

impl<T: Table> Keeper for Books<T> {
    ghost use Rattle.std.specs.Prelude.{length};
    ghost use Rattle.shard_book.specs.BooksState.{AreBooks, BooksState, ExtendsAt, IsLiveAt, IsRefusedAt, live_states};

    ghost table = { λ table. table.spec };

    ghost parts = { λ table. length table.books };

    ghost State = { BooksState };

    ghost state = { λ table. table };

    // What is asked is recorded for seat 0, and each shard has its book still.
    ghost answers = { λ old i event reply new. ExtendsAt old i 0 event reply new × AreBooks new };

    ghost refuses = { λ old i event refusal. IsRefusedAt (live_states old) i event refusal };

    // That shard's own table.
    ghost holds = { λ old i live. IsLiveAt old i live };

    fn size(&self) -> u32 {
        self.spec.size
    }

    fn shards(&self) -> u32 {
        self.books.as_slice().len() as u32
    }

    fn spec(&self) -> &Spec {
        &self.spec
    }

    fn occupancy(&self, shard: u32) -> Occupancy {
        self.shard_occupancy(shard)
    }

    fn copied(&self, shard: u32) -> Result<PlainTable, NoMemory> {
        self.book(shard).copied()
    }

    fn ask(&mut self, shard: u32, event: Event) -> Result<Reply, Refusal> {
        self.call(shard, COMMANDS, event)
    }
}
