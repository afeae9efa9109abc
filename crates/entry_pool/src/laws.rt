//! Laws of pools; each is the contract of an empty function, which no code calls.

ghost use Rattle.entry_pool.specs.Laws.{GoneForEver, InsertedIsFound, OthersStay};

/// A handle that was used and finds nothing never finds a value again, whatever is called on the pool.
pub fn gone_for_ever<T>()
    ensures { GoneForEver T }
{}

/// The handle that an insert gave finds the value.
pub fn inserted_is_found<T>()
    ensures { InsertedIsFound T }
{}

/// A call changes what its own handle finds, and no other.
pub fn others_stay<T>()
    ensures { OthersStay T }
{}
