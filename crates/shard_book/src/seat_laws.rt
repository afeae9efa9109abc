//! Laws of seats; each is the contract of an empty function, which no code calls.

ghost use Rattle.shard_book.specs.SeatLaws.{CallLaw, RefusalLaw};

/// A seat that was told an answer has one call more of that shard, and has seen a later event there than before; where
/// it keeps receipts, that of the call stands behind the others.
pub fn one_call()
    ensures { CallLaw }
{}

/// No event without a ticket is refused as stale, and no release as past the life; a release for which no receipt is kept
/// is refused as stale, or as the table is behind, alone.
pub fn refusals()
    ensures { RefusalLaw }
{}
