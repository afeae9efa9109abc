//! Laws of records; each is the contract of an empty function, which no code calls.

ghost use Rattle.shard_record.specs.Calls.{KeyLaw};
ghost use Rattle.shard_record.specs.Laws.{AtOnceLaw};

/// Between any two steps of the threads, of each book: of all references that tokens have, whoever has them, at most `limit` of
/// a key have had a look that shows at most `limit`, by the one record; and a key has as many references out as tokens have.
pub fn at_once()
    ensures { AtOnceLaw }
{}

/// By what anybody knows of a record, a ticket is out by one key alone: that never changes.
pub fn one_key()
    ensures { KeyLaw }
{}
