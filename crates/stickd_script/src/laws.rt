//! Laws of every script; each is the contract of a function that no code calls.
//!
//! Its body is empty, but for the call of a law on which it rests.

ghost use Rattle.stickd_script.specs.BadLines.{BadLineLaw};
ghost use Rattle.stickd_script.specs.Laws.{KeysLaw, ReferencesLaw};
ghost use Rattle.stickd_script.specs.Rolling.{RecordsLaw};
ghost use Rattle.stickd_script.specs.Unrefused.{OneOutputLaw, UnrefusedLaw};

use stick_key::laws::reads_one_key;

/// Wherever the lines of a script lead to from empty tables: a reference is out exactly where one open connection holds
/// it, once, and no ID is open twice.
pub fn references()
    ensures { ReferencesLaw }
{}

/// Wherever the lines of a script lead to from empty tables: each shard of a table keeps records of such keys alone as lie
/// on that shard, and so no key has records on two shards.
pub fn keys()
    ensures { KeysLaw }
{}

/// What a line says where nothing that it asks is refused is one of the texts that it may write.
pub fn unrefused()
    ensures { UnrefusedLaw }
{}

/// A line that is noted as bad is answered `bad line`, and changes nothing.
pub fn bad_line()
    ensures { BadLineLaw }
{}

/// The rolls behind a line change the tables' records alone: every shard stays what it is.
pub fn records()
    ensures { RecordsLaw }
{}

/// A script in which nothing is refused has one output, whatever slots the tables give to references, and whether or not
/// they roll behind its lines.
pub fn one_output()
    ensures { OneOutputLaw }
{
    reads_one_key();
}
