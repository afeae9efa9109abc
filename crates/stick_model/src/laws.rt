//! Laws of stick tables, of every run of every table; each is the contract of an empty function, which no code calls.

ghost use Rattle.stick_model.specs.Laws.{CountLaw, EmptyLegalLaw, ExpiryLaw, JoinLaw, LastingLaw, LimitLaw, NeverLostLaw, OneRunLaw, PurgeLaw, RedoLaw, ReferenceLaw, RoomLaw, RunLegalLaw, StepLegalLaw, StoredCountLaw, StoredJoinLaw, TallyLaw, TicketsLaw};

/// The limit law: in every run from a legal state, for every key and limit, at most `limit` references of the key are
/// out that had, in this run, a look whose row has at most `limit` references.
pub fn limit()
    ensures { LimitLaw }
{}

/// A list of stored calls has one run at most: its replies, and the state after it, are determined.
pub fn one_run()
    ensures { OneRunLaw }
{}

/// The stored calls of a run can be made again from where it began, from the empty table or any other state, and then
/// give its replies and the state after it.
pub fn redo()
    ensures { RedoLaw }
{}

/// A run counts as many events as it has.
pub fn count()
    ensures { CountLaw }
{}

/// A run over two lists joined is a run over the one, then the other.
pub fn join()
    ensures { JoinLaw }
{}

/// A run of stored calls counts as many events as it has calls, and tells as many replies.
pub fn stored_count()
    ensures { StoredCountLaw }
{}

/// A run over two lists of stored calls joined is a run over the one, then the other.
pub fn stored_join()
    ensures { StoredJoinLaw }
{}

/// Stored calls that had life left where they were made are, when they are made again, refused for want of memory
/// alone: no life ends under them, and each of their references is out.
pub fn lasting()
    ensures { LastingLaw }
{}

/// A reply tells all that becomes of the references: `Tracked` is one more, `Released` that of its event less, and any
/// other leaves them as they are.
pub fn tickets()
    ensures { TicketsLaw }
{}

/// The empty table is legal.
pub fn empty_legal()
    ensures { EmptyLegalLaw }
{}

/// A step of an event that a table takes, and that has life left, keeps a state legal.
pub fn step_legal()
    ensures { StepLegalLaw }
{}

/// In a run from a legal state, of events that a table takes, that ends within the life, the state at each place is legal.
pub fn run_legal()
    ensures { RunLegalLaw }
{}

/// A tracked entry is never lost: in a step from a legal state the entry of a key with a reference out is neither
/// purged nor expired nor cleared, not even by the release of the last one. It is there before and after, as it was
/// or, in an event of that key, with what the event makes of its data.
pub fn never_lost()
    ensures { NeverLostLaw }
{}

/// In every run from the empty table, what a record keeps of a rate is the tally of what the run counted in that column
/// since the record was made, and the value it shows is their rate.
pub fn tally()
    ensures { TallyLaw }
{}

/// A purge takes the oldest untracked entries: each that it takes was refreshed before each untracked one that it
/// leaves, and they are as many as are to be purged, or all untracked ones where these are fewer. In a full table as many
/// are to be purged as its specification says.
pub fn purge()
    ensures oldest { PurgeLaw }
    ensures room { RoomLaw }
{}

/// In a legal state a reference that is out has an entry, and a look, a count and a release are answered from it:
/// never as absent.
pub fn reference()
    ensures { ReferenceLaw }
{}

/// In every run from the empty table, where a life is at least 1 ms, each entry is tracked, or has no date, or its date
/// is still to come.
pub fn expiry()
    ensures { ExpiryLaw }
{}
