//! Laws of the definition of a verdict; each is the contract of an empty function, which no code calls.
//!
//! Those on limits are of rules that begin with `track-sc0 src` and `reject if { sc0_conn_cur gt L }`, both without any further
//! condition. Their table stores `conn_cur`, and no other rule tracks by sc0.
ghost use Rattle.rule_eval.specs.Ends.{EndsLaw};
ghost use Rattle.rule_eval.specs.Fetched.{DatumLaw, ElementLaw};
ghost use Rattle.rule_eval.specs.Limit.{FirstLaw, NeverLaw, OnceLaw, SecondLaw, ShownLaw, WithinLaw};
ghost use Rattle.rule_eval.specs.Tracking.{FreeLaw, TablesLaw, TrackingLaw};

/// Every evaluation comes to its verdict: after as many answers as the rules have criteria and actions, at the latest.
pub fn ends()
    ensures { EndsLaw }
{}

/// Whatever the answers were, a reference is wanted only for a slot that tracks nothing by them.
pub fn free()
    ensures { FreeLaw }
{}

/// Only a slot that tracks an entry by the answers so far is looked at or counted in.
pub fn tracking()
    ensures { TrackingLaw }
{}

/// A row or a reference is asked only of a table of the setup.
pub fn tables()
    ensures { TablesLaw }
{}

/// Behind such rules a connection whose source can be a key of the table is accepted only where its answers begin with a
/// reference and a row that shows at most L current connections, or where the table gave it no reference.
pub fn limit()
    ensures { WithinLaw }
{}

/// Behind such rules the first want is a reference to the source's entry, and the second, where it was given, a look at it.
pub fn limit_asks()
    ensures first { FirstLaw }
    ensures second { SecondLaw }
{}

/// Behind such rules no reference is asked for by sc0 after the first answer, and none at all for a source that can't be
/// a key of the table.
pub fn limit_asks_once()
    ensures once { OnceLaw }
    ensures never { NeverLaw }
{}

/// The current connections that a row shows are the references of its entry, where the table stores `conn_cur` and keeps
/// no value of it.
pub fn shown()
    ensures { ShownLaw }
{}

/// A fetch of a datum reads of a row its own field, or, where an array is stored in its place, the element that stands
/// for it; and a fetch of an element reads that element.
pub fn fetched()
    ensures datum { DatumLaw }
    ensures element { ElementLaw }
{}
