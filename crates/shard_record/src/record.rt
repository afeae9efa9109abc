//! The record, its first tokens, and the steps of tokens; `telling` makes them for a call under a lock.

ghost use Rattle.std.specs.Prelude.{◌≡◌, ℕ, [], map, IfOk};
ghost use Rattle.shard_record.specs.Parts.{MayAppend, appended, callers_alone, compared, held_alone, joined, without_callers, without_held};
ghost use Rattle.shard_record.specs.Dealing.{IsLeft};
ghost use Rattle.shard_record.specs.Views.{AreCompared, at, book_alone, keeper_alone, opening, paired, put, seat_alone, without_book, without_keeper, without_seat};

use crate::choosing::{OfBook, OfCall, OfSeat};
use crate::rules::{
    Appends, Compares, Joins, OneRecord, PartsBook, PartsCallers, PartsHeld, PartsKeeper,
    PartsSeat, Sizes,
};
use crate::{Naming, Token, View};
use atomic_table::{Seat, Table};
use std::alloc::{AllocError, Global};
use std::marker::{Brand, PhantomData};
use stick_model::{Event, Reply};

type Block = Table<(), View, Sizes, OneRecord, Global>;

/// A record that has no name yet, and its first token.
#[derive(Drop)]
pub struct Opened {
    table: Block,
    first: Seat<(), View>,
    pub books: u32,
    pub seats: u32,
    pub ghost fresh: { (first.table_id ≡ table.shared.table_id) × (first.me ≡ (opening books seats, [])) × (table.shared.table_id.words ≡ 1) },
}

/// The record of the calls of each book, by the book's number. It exists in proofs alone: its one word is never written.
#[derive(Drop)]
pub struct Record<J: Naming> {
    table: Block,
    of: PhantomData<J>,
    ghost named: { (table.shared.table_id ≡ J.record_id) × (table.shared.table_id.words ≡ 1) },
}

impl Opened {
    /// A record without calls, for so many books and seats. It takes memory for one word.
    pub fn new(alloc: Global, books: u32, seats: u32) -> Result<Opened, AllocError>
        ensures sizes { IfOk result (λ opened. (opened.books ≡ books) × (opened.seats ≡ seats)) }
    {
        let (table, first) = Table::of_words(alloc, &[0], &Sizes { books, seats })?;
        Ok(Opened {
            table,
            first,
            books,
            seats,
        })
    }

    /// The record under a name, and its first token: that keeps the record of each book, and may call for each seat.
    pub fn named<J: Naming>(self) -> (Record<J>, Token<J>)
        requires { self.first.table_id ≡ J.record_id }
        ensures opening { result.1 ≡ opening self.books self.seats }
        ensures begun { IsLeft 0 self.books 0 self.seats result.1 }
    {
        let Opened {
            table,
            first,
            books: _,
            seats: _,
        } = self;
        (
            Record {
                table,
                of: PhantomData,
            },
            Token {
                seat: first,
                of: PhantomData,
            },
        )
    }
}

impl<J: Naming> Record<J> {
    /// The right to keep the record of a book goes to another token.
    pub fn part_keeper(&self, me: &mut Token<J>, book: u32) -> Token<J>
        ensures left { me.new ≡ without_keeper book me.old }
        ensures given { result ≡ keeper_alone book me.old }
    {
        self.keeper_of::<Brand>(me, book)
    }

    /// A seat of a book goes to another token, with what is known of the book.
    pub fn part_seat(&self, me: &mut Token<J>, book: u32, number: u32) -> Token<J>
        ensures left { me.new ≡ without_seat book number me.old }
        ensures given { result ≡ seat_alone book number me.old }
    {
        self.seat_of::<Brand>(me, book, number)
    }

    /// What it knew and has, and what the other knew and has; the two are compared.
    pub fn join(&self, me: &mut Token<J>, other: Token<J>)
        ensures both { me.new ≡ map compared (paired joined me.old other) }
        ensures compared { AreCompared (paired joined me.old other) me.new }
    {
        let Token { seat, of: _ } = other;
        self.table.shared.join_seat::<Joins>(&mut me.seat, seat);
        self.table.shared.load::<Compares>(&mut me.seat, 0);
    }

    /// All of a book goes to another token.
    pub(crate) fn part_book(&self, me: &mut Token<J>, book: u32) -> Token<J>
        ensures left { me.new ≡ without_book book me.old }
        ensures given { result ≡ book_alone book me.old }
    {
        self.book_of::<Brand>(me, book)
    }

    /// The references go to another token.
    pub(crate) fn part_held(&self, me: &mut Token<J>) -> Token<J>
        ensures left { me.new ≡ map without_held me.old }
        ensures given { result ≡ map held_alone me.old }
    {
        Token {
            seat: self.table.shared.split_seat::<PartsHeld>(&mut me.seat),
            of: PhantomData,
        }
    }

    /// The seats go to another token.
    pub(crate) fn part_callers(&self, me: &mut Token<J>) -> Token<J>
        ensures left { me.new ≡ map without_callers me.old }
        ensures given { result ≡ map callers_alone me.old }
    {
        Token {
            seat: self.table.shared.split_seat::<PartsCallers>(&mut me.seat),
            of: PhantomData,
        }
    }

    /// A call of a book stands behind the others.
    pub(crate) fn append(&self, me: &mut Token<J>, book: u32, event: &Event, reply: &Reply)
        requires may { MayAppend (at book me.old) event.now reply.now }
        ensures { me.new ≡ put book (appended event.now reply.now (at book me.old)) me.old }
    {
        self.append_as::<Brand>(me, book, event, reply)
    }

    fn append_as<C: OfCall>(&self, me: &mut Token<J>, book: u32, event: &Event, reply: &Reply)
        requires picked { (book ≡ C.called) × (event.now ≡ C.event) × (reply.now ≡ C.reply) }
        requires may { MayAppend (at book me.old) event.now reply.now }
        ensures { me.new ≡ put book (appended event.now reply.now (at book me.old)) me.old }
    {
        self.table.shared.load::<Appends<C>>(&mut me.seat, 0);
    }

    fn book_of<B: OfBook>(&self, me: &mut Token<J>, book: u32) -> Token<J>
        requires picked { book ≡ B.book }
        ensures left { me.new ≡ without_book book me.old }
        ensures given { result ≡ book_alone book me.old }
    {
        Token {
            seat: self.table.shared.split_seat::<PartsBook<B>>(&mut me.seat),
            of: PhantomData,
        }
    }

    fn keeper_of<B: OfBook>(&self, me: &mut Token<J>, book: u32) -> Token<J>
        requires picked { book ≡ B.book }
        ensures left { me.new ≡ without_keeper book me.old }
        ensures given { result ≡ keeper_alone book me.old }
    {
        Token {
            seat: self.table.shared.split_seat::<PartsKeeper<B>>(&mut me.seat),
            of: PhantomData,
        }
    }

    fn seat_of<S: OfSeat>(&self, me: &mut Token<J>, book: u32, number: u32) -> Token<J>
        requires picked { (book ≡ S.asked) × (number ≡ S.number) }
        ensures left { me.new ≡ without_seat book number me.old }
        ensures given { result ≡ seat_alone book number me.old }
    {
        Token {
            seat: self.table.shared.split_seat::<PartsSeat<S>>(&mut me.seat),
            of: PhantomData,
        }
    }
}
