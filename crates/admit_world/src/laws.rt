//! Laws of every world; each is the contract of an empty function, which no code calls.
ghost use Rattle.admit_world.specs.Alike.{OneWorldLaw};
ghost use Rattle.admit_world.specs.Limit.{AdmittedLimitLaw, AdmittedPassedLaw, ReferencesLaw};
ghost use Rattle.admit_world.specs.Schedules.{SchedulesJoinLaw};
ghost use Rattle.admit_world.specs.Shown.{AnsweredRowsLaw, RowsLaw};

/// Whatever the schedule, a reference is out exactly where a connection holds it, each once.
pub fn references()
    ensures { ReferencesLaw }
{}

/// Whatever the schedule: where the rules begin with `track-sc0 src` and `reject if { sc0_conn_cur gt L }` on a table
/// that stores `conn_cur`, and no other rule tracks by sc0, at most L admitted connections hold any one key by sc0.
pub fn limit()
    ensures { AdmittedLimitLaw }
{}

/// Whatever the schedule: behind such rules the reference that an admitted connection holds by sc0 is, by the record of
/// its book, one that had a look whose row has at most L references.
pub fn admitted_passed()
    ensures { AdmittedPassedLaw }
{}

/// Whatever the schedule, in a table that stores `conn_cur` the row of a key shows of it how many references of the key
/// connections hold.
pub fn rows()
    ensures { RowsLaw }
{}

/// Whatever the schedule, so does each row that a connection is answered, by a Get or a Look.
pub fn answered_rows()
    ensures { AnsweredRowsLaw }
{}

/// Two schedules joined are one, then the other, and as many elements are refused.
pub fn schedules_join()
    ensures { SchedulesJoinLaw }
{}

/// A schedule in which nothing is refused leads to one world, whatever slots the tables give to references: every
/// connection had the same answers and is as far, and every shard keeps the same records.
pub fn one_world()
    ensures { OneWorldLaw }
{}
