//! What a step of a record is about; `Record` picks it at each step, by types that have no values.

use std::marker::Brand;

/// A book, by its number.
pub trait OfBook {
    ghost use Rattle.std.specs.Prelude.{ℕ};

    ghost book: { ℕ };
}

impl OfBook for Brand {
    ghost book = { 0 };
}

/// A seat, by its number, and a book that it may call.
pub trait OfSeat {
    ghost use Rattle.std.specs.Prelude.{ℕ};

    ghost asked: { ℕ };

    ghost number: { ℕ };
}

impl OfSeat for Brand {
    ghost asked = { 0 };

    ghost number = { 0 };
}

/// A call of a book that was answered.
pub trait OfCall {
    ghost use Rattle.std.specs.Prelude.{ℕ};
    ghost use Rattle.stick_model.specs.declared.events.Event.{Event as AnEvent};
    ghost use Rattle.stick_model.specs.declared.replies.Reply.{Reply as AReply};

    ghost called: { ℕ };

    ghost event: { AnEvent };

    ghost reply: { AReply };
}

impl OfCall for Brand {
    ghost use Rattle.stick_model.specs.declared.events.Event.TheVariants.{Expire};
    ghost use Rattle.stick_model.specs.declared.replies.Reply.TheVariants.{Absent};

    ghost called = { 0 };

    ghost event = { Expire 0 };

    ghost reply = { Absent };
}
