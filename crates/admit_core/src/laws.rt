//! Laws of every connection, whatever its references are; each is the contract of an empty function, which no code calls.
ghost use Rattle.admit_core.specs.History.{AdmittedLaw, EndedLaw, HeldLaw, RejectedLaw};
ghost use Rattle.admit_core.specs.Life.{LifeLaw};
ghost use Rattle.admit_core.specs.Shown.{LookLaw, ReadingLaw, RowLaw};

/// A connection is admitted only by its rules: where it is, their verdict on the answers that came is to accept it.
pub fn admitted<R>()
    ensures { AdmittedLaw R }
{}

/// A connection that was rejected counts nothing: no session, and no bytes.
pub fn rejected<R>()
    ensures { RejectedLaw R }
{}

/// A connection ends only once it holds no reference, and none is handed out.
pub fn ended<R>()
    ensures { EndedLaw R }
{}

/// A reference that came is held until it is handed out to be released. That a reference is asked for only by a slot
/// that holds none, and that the slot of one that was handed out is empty, is what `Conn::want` says.
pub fn held<R>()
    ensures { HeldLaw R }
{}

/// From the verdict to accept it to its end, a connection that ends has counted its sessions, rested until it was closed,
/// which it was once, counted the bytes with which it was closed, and given each of its references back, in this order and
/// each once.
pub fn life<R>()
    ensures { LifeLaw R }
{}

/// What a look shows of `conn_cur`, in every run of a table that stores it, is how many references its key has.
pub fn look()
    ensures { LookLaw }
{}

/// What the row of a key shows of `conn_cur`, in every state that a table storing it can come to, is how many references
/// the key has.
pub fn row()
    ensures { RowLaw }
{}

/// What a Get and a Look are answered of `conn_cur`, in every such state, is how many references the row's key has.
pub fn reading()
    ensures { ReadingLaw }
{}
