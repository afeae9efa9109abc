//! Laws of every move of a connection; each is the contract of an empty function, which no code calls.
ghost use Rattle.admit_drive.specs.Laws.{HomeLaw, OneRestLaw};

/// Where the references that are out of each shard are of keys that lie on it, a move leaves it so.
pub fn home()
    ensures { HomeLaw }
{}

/// A connection that goes on until it rests, with nothing refused, comes to one end, whatever slots the tables give to
/// references: it had the same answers and is as far, and every shard keeps the same records.
pub fn one_rest()
    ensures { OneRestLaw }
{}
