//! What a roll does to a shard's book; `Shards::roll` calls it under the shard's lock.

ghost use Rattle.std.specs.Prelude.{◌≡◌, ◌≤◌, ◌<◌, Ok, length, true, false, OnErr};
ghost use Rattle.shard_book.specs.BookState.{IsBook, rolled};

use base_sequence::NoMemory;
use shard_book::Kept;
use shard_record::Naming;
use stick_table::Table;

/// Has a book begin its calls again where it has at least so many, as `Kept::roll` does, and answers whether it did: what is done
/// under the shard's lock. The record of all calls stays. Where the table can't take its base for want of memory, nothing changes.
pub(crate) fn roll_long<T: Table, J: Naming>(
    kept: &mut Kept<T, J>,
    least: u64,
) -> Result<bool, NoMemory>
    ensures book { IsBook kept.new.book }
    ensures long { result ≡ Ok true → (least ≤ length kept.old.book.calls) × (kept.new.book ≡ rolled kept.old.book) }
    ensures short { result ≡ Ok false → (length kept.old.book.calls < least) × (kept.new ≡ kept.old) }
    ensures record { (kept.new.log ≡ kept.old.log) × (kept.new.number ≡ kept.old.number) }
    ensures refused { OnErr result (least ≤ length kept.old.book.calls) }
    ensures err { OnErr result (kept.new.book ≡ kept.old.book) }
{
    let count = kept.book().calls().len() as u64;
    if count < least {
        return Ok(false);
    }
    match kept.roll() {
        Ok(()) => Ok(true),
        Err(refused) => Err(refused),
    }
}
