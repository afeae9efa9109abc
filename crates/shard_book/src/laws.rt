//! Laws of books, and of tables in shards; each is the contract of an empty function, which no code calls.

ghost use Rattle.shard_book.specs.BooksState.{SizesLaw};
ghost use Rattle.shard_book.specs.Laws.{OneRecordLaw, ReplayLaw, ToldLaw};
ghost use Rattle.shard_book.specs.Rolling.{RollingLaw};

/// A book's record has one run from its base: what was answered, and the table as it is now, follow from it.
pub fn one_record()
    ensures { OneRecordLaw }
{}

/// A record can be made again from its base: no call of it is refused but for want of memory, since each had life left
/// and its reference out where it was made.
pub fn replay()
    ensures { ReplayLaw }
{}

/// What a seat was told grows by its own calls alone, each with its reply behind those before it.
pub fn told()
    ensures { ToldLaw }
{}

/// No answer changes by a roll: a record and the one behind its roll are, joined, one run from the first base, with the
/// replies of both, and lead to the same table.
pub fn rolling()
    ensures { RollingLaw }
{}

/// The sizes of a table's shards come to its size.
pub fn sizes()
    ensures { SizesLaw }
{}
