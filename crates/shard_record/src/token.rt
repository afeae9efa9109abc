//! What somebody knows of a record, as a token of no bytes; a book has one under its lock, and so have seats and references.

use crate::{Naming, View};
use atomic_table::Seat;
use std::marker::{Model, PhantomData};

/// What somebody knows of the record of this name, book by book. It has no bytes.
#[derive(Drop)]
pub struct Token<J: Naming> {
    pub(crate) seat: Seat<(), View>,
    pub(crate) of: PhantomData<J>,
}

impl<J: Naming> Model for Token<J> {
    ghost use Rattle.std.specs.Prelude.{◌≡◌, []};
    ghost use Rattle.shard_record.specs.Views.{View as AView};

    ghost Value = { AView };

    ghost view = { λ token. token.seat.me.0 };

    ghost invariant = { λ token. (token.seat.table_id ≡ J.record_id) × (token.seat.me.1 ≡ []) };
}
