//! Which record it is: the types under locks, of seats and of references name it, so that they agree on it.

use std::marker::Brand;

/// Which record it is, of how many books, and with what the table of each was made, by its number. A lock tells of what lies under
/// it no more than its type says, and so all this is part of a type. Each program picks it once, by `Brand`.
pub trait Naming {
    ghost use Rattle.std.specs.Prelude.{ℕ};
    ghost use Rattle.atomic_table.specs.Seated.{TableId};
    ghost use Rattle.stick_model.specs.declared.specification.Spec.{Spec as ASpec};

    ghost record_id: { TableId };

    ghost books: { ℕ };

    ghost specs: { ℕ → ASpec };
}

impl Naming for Brand {
    ghost use Rattle.shard_record.specs.Views.{no_record, no_spec};

    ghost record_id = { no_record };

    ghost books = { 0 };

    ghost specs = { λ book. no_spec };
}
