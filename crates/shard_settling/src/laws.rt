//! The law of a limit in settled tables; it is the contract of an empty function, which no code calls.

ghost use Rattle.shard_settling.specs.Laws.{SettledLimitLaw};

/// The limit law, of what threads hold: where a table with receipts is settled, for every shard, key and limit, at most
/// `limit` of the references to the shard that are shown had, by the receipts that are shown, a look whose row is of the key
/// and has at most `limit` references.
pub fn limit()
    ensures { SettledLimitLaw }
{}
