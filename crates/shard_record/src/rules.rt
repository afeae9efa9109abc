//! The rule of a record, and its steps; `Record` makes them.

use crate::View;
use crate::choosing::{OfBook, OfCall, OfSeat};
use atomic_table::{Join, Play, Split, TableRule};
use std::marker::PhantomData;

/// For how many books and seats a record is made.
#[derive(Drop)]
pub struct Sizes {
    pub books: u32,
    pub seats: u32,
}

/// The rule of a record.
pub struct OneRecord;

impl TableRule<(), View, Sizes> for OneRecord {
    ghost use Rattle.shard_record.specs.Views.{AreKept, opening};

    ghost holds = { λ sizes state. AreKept state.views };

    ghost first = { λ sizes. opening sizes.books sizes.seats };
}

/// A step that notes a call.
pub(crate) struct Appends<C: OfCall> {
    of: PhantomData<C>,
}

impl<C: OfCall> Play<(), View> for Appends<C> {
    ghost use Rattle.shard_record.specs.Views.{Appended};

    ghost then = { Appended C.called C.event C.reply };
}

/// A step that compares what is known with what was told.
pub(crate) struct Compares;

impl Play<(), View> for Compares {
    ghost use Rattle.shard_record.specs.Views.{Compared};

    ghost then = { Compared };
}

/// Two tokens become one.
pub(crate) struct Joins;

impl Join<View> for Joins {
    ghost use Rattle.std.specs.Prelude.{[]};
    ghost use Rattle.shard_record.specs.Parts.{joined};
    ghost use Rattle.shard_record.specs.Views.{paired};

    ghost both = { paired joined };

    ghost spent = { [] };
}

/// References go to another token.
pub(crate) struct PartsHeld;

impl Split<View> for PartsHeld {
    ghost use Rattle.std.specs.Prelude.{map};
    ghost use Rattle.shard_record.specs.Parts.{held_alone, without_held};

    ghost left = { map without_held };

    ghost right = { map held_alone };
}

/// Seats go to another token.
pub(crate) struct PartsCallers;

impl Split<View> for PartsCallers {
    ghost use Rattle.std.specs.Prelude.{map};
    ghost use Rattle.shard_record.specs.Parts.{callers_alone, without_callers};

    ghost left = { map without_callers };

    ghost right = { map callers_alone };
}

/// All of a book goes to another token.
pub(crate) struct PartsBook<B: OfBook> {
    of: PhantomData<B>,
}

impl<B: OfBook> Split<View> for PartsBook<B> {
    ghost use Rattle.shard_record.specs.Views.{book_alone, without_book};

    ghost left = { without_book B.book };

    ghost right = { book_alone B.book };
}

/// The right to keep the record of a book goes to another token.
pub(crate) struct PartsKeeper<B: OfBook> {
    of: PhantomData<B>,
}

impl<B: OfBook> Split<View> for PartsKeeper<B> {
    ghost use Rattle.shard_record.specs.Views.{keeper_alone, without_keeper};

    ghost left = { without_keeper B.book };

    ghost right = { keeper_alone B.book };
}

/// A seat of a book goes to another token.
pub(crate) struct PartsSeat<S: OfSeat> {
    of: PhantomData<S>,
}

impl<S: OfSeat> Split<View> for PartsSeat<S> {
    ghost use Rattle.shard_record.specs.Views.{seat_alone, without_seat};

    ghost left = { without_seat S.asked S.number };

    ghost right = { seat_alone S.asked S.number };
}
