//! One connection, from its acceptance to the release of its references; `turning` judges, closes and ends by it.

ghost use Rattle.std.specs.Prelude.{◌≡◌, ◌≤◌, true, false, is_some, length, IfSome, Some, None, slice_get, vec_len};
ghost use Rattle.shard_book.specs.SeatState.{RefState};
ghost use Rattle.rule_model.specs.declared.sections.Setup.{Setup};
ghost use Rattle.rule_eval.specs.declared.wants.Samples.{Samples};
ghost use Rattle.admit_core.specs.Conn.{needed, progress_of, Stands};
ghost use Rattle.admit_core.specs.Connection.{Connection, arrived, closed_of};
ghost use Rattle.admit_core.specs.Left.{is_rest};
ghost use Rattle.admit_core.specs.declared.need.Need.TheVariants.{Rest};
ghost use Rattle.tcp_relay.specs.Connections.{IsVisitor};
ghost use Rattle.tcp_relay.specs.Moments.{HaveCalledAt};
ghost use Rattle.tcp_relay.specs.Passed.{HasPassedLimits, HavePassedStill, IsOf};
ghost use Rattle.tcp_relay.specs.Releasing.{GivesBack, OthersStay, held_there, is_ending, is_open_there};
ghost use Rattle.tcp_relay.specs.Seating.{AreIn, StoreAs};
ghost use Rattle.tcp_relay.specs.Untracked.{IsUntrackedSince};

use crate::admitted::Admitted;
use crate::fates::Ended;
use crate::rules::Rules;
use crate::shared::Shared;
use crate::width::Width;
use crate::worker::Worker;
use crate::{Gate, ServeRuntime};
use admit_core::Conn;
use admit_port::{finish, judge};
use base_clock::{Clock, RunningClock, StoppedClock};
use rule_eval::Samples;
use shard_locks::{Seated, SharedRef};
use shard_record::Naming;
use stick_table::Table;

/// A connection that has just come, with these samples, and is judged by these rules.
#[inline(always)]
pub(crate) fn arrive<'a, J: Naming, W: Width>(
    rules: &Rules<'a, W>,
    samples: Samples,
) -> Conn<'a, SharedRef<J>>
    ensures stands { Stands result (arrived rules.now.setup.now samples) }
    ensures connection { IsVisitor W.tables W.shards result }
{
    Conn::new(rules.setup, samples)
}

/// Has a connection judged by the rules, all at the moment that the clock shows as they begin, and passes it through the gate. Gives the
/// sign of it where it is admitted: then its source has passed the limit that the rules begin with, by the records that the seats know.
/// Where it holds no reference to its source, the table was asked for one, and gave none.
pub(crate) fn judge_one<'a, T: Table, J: Naming, R: ServeRuntime, G: Gate, W: Width>(
    shared: &Shared<'a, R, G, W>,
    seated: &mut Vec<Seated<'a, T, J, R>>,
    clock: &mut RunningClock<'_, R>,
    number: u64,
    conn: &mut Conn<'a, SharedRef<J>>,
) -> Option<Admitted<'a, J>>
    requires count { vec_len seated.old ≡ W.tables }
    requires shards { AreIn (λ one. one.table.shards) W.shards seated.old.items }
    requires current { StoreAs (λ one. one.table.spec) W.current seated.old.items }
    requires connection { IsVisitor W.tables W.shards conn.old }
    ensures count { vec_len seated.new ≡ W.tables }
    ensures shards { AreIn (λ one. one.table.shards) W.shards seated.new.items }
    ensures current { StoreAs (λ one. one.table.spec) W.current seated.new.items }
    ensures connection { IsVisitor W.tables W.shards conn.new }
    ensures rests { is_some result ≡ true → needed conn.new ≡ Rest }
    ensures admitted { is_some result ≡ is_rest (needed conn.new) }
    ensures sign { IfSome result (λ admitted. admitted.conn.value ≡ conn.new) }
    ensures still { HavePassedStill seated.old.items seated.new.items }
    ensures later { clock.old ≤ clock.new }
    ensures moment { (connection : Connection RefState) → Stands conn.old connection → HaveCalledAt clock.new seated.old.items seated.new.items }

    // Of one that has just come, by its own setup.
    ensures of { (setup : Setup) (samples : Samples) → Stands conn.old (arrived setup samples) → IsOf setup samples conn.new }
    ensures passed { (setup : Setup) (samples : Samples) → StoreAs (λ named. named.spec) W.current setup.tables → Stands conn.old (arrived setup samples) → is_some result ≡ true → HasPassedLimits setup samples seated.new.items conn.new }
    ensures ending { (setup : Setup) (samples : Samples) → Stands conn.old (arrived setup samples) → is_some result ≡ false → is_ending conn.new ≡ true }
    ensures untracked { (setup : Setup) (samples : Samples) → Stands conn.old (arrived setup samples) → is_some result ≡ true → IsUntrackedSince seated.old.items seated.new.items setup samples conn.new }
{
    let mut stopped = StoppedClock::at(clock.now());
    let ports = seated.as_mut_slice();
    let is_admitted = judge(shared.alloc, ports, conn, &mut stopped);
    shared.gate.pass(number);
    Admitted::of(conn, is_admitted)
}

/// Closes an admitted connection, after so many bytes came in and went out.
fn closed<'a, J: Naming, W: Width>(
    mut conn: Conn<'a, SharedRef<J>>,
    bytes_in: u64,
    bytes_out: u64,
) -> Conn<'a, SharedRef<J>>
    requires connection { IsVisitor W.tables W.shards conn }
    requires rests { needed conn ≡ Rest }
    ensures closed { progress_of result ≡ closed_of (progress_of conn.entry) bytes_in bytes_out }
    ensures connection { IsVisitor W.tables W.shards result }
    ensures ending { is_ending result ≡ true }
    ensures held { (progress_of result).held ≡ (progress_of conn.entry).held }
{
    conn.close(bytes_in, bytes_out);
    conn
}

/// Ends a connection that was rejected or closed: what is left to be counted is counted, and its references go back, all at the
/// moment that the clock shows. One whose references can't be given back still holds them.
fn leave<'a, T: Table, J: Naming, R: ServeRuntime, G, W: Width>(
    shared: &Shared<'a, R, G, W>,
    seated: &mut Vec<Seated<'a, T, J, R>>,
    clock: &mut RunningClock<'_, R>,
    conn: &mut Conn<'a, SharedRef<J>>,
)
    requires count { vec_len seated.old ≡ W.tables }
    requires shards { AreIn (λ one. one.table.shards) W.shards seated.old.items }
    requires current { StoreAs (λ one. one.table.spec) W.current seated.old.items }
    requires connection { IsVisitor W.tables W.shards conn.old }
    requires ending { is_ending conn.old ≡ true }
    ensures count { vec_len seated.new ≡ W.tables }
    ensures shards { AreIn (λ one. one.table.shards) W.shards seated.new.items }
    ensures current { StoreAs (λ one. one.table.spec) W.current seated.new.items }
    ensures connection { IsVisitor W.tables W.shards conn.new }
    ensures still { HavePassedStill seated.old.items seated.new.items }
    ensures later { clock.old ≤ clock.new }
    ensures moment { (connection : Connection RefState) → Stands conn.old connection → HaveCalledAt clock.new seated.old.items seated.new.items }
    ensures back { GivesBack clock.new seated.old.items seated.new.items (progress_of conn.old).held (progress_of conn.new).held }
{
    let mut stopped = StoppedClock::at(clock.now());
    let ports = seated.as_mut_slice();
    // A reference whose release is refused is still held.
    let _rested = finish(shared.alloc, ports, conn, &mut stopped);
}

/// Ends the connection of a place that is claimed, and counts it. Each reference that it holds is released, or is held in that place
/// from now on: where a release was refused.
#[inline(always)]
pub(crate) fn end_at<'a, T: Table, J: Naming, R: ServeRuntime, G, W: Width>(
    shared: &Shared<'a, R, G, W>,
    worker: &mut Worker<'a, T, J, R, W>,
    clock: &mut RunningClock<'_, R>,
    place: usize,
    mut conn: Conn<'a, SharedRef<J>>,
    is_admitted: bool,
)
    requires connection { IsVisitor W.tables W.shards conn }
    requires ending { is_ending conn ≡ true }
    requires free { slice_get worker.old.places.held.items place ≡ Some None }
    ensures back { GivesBack clock.new worker.old.seated.items worker.new.seated.items (progress_of conn.entry).held (held_there (λ one. one.conn) (slice_get worker.new.places.held.items place)) }
    ensures closed { is_open_there (λ one. is_some one.link) (slice_get worker.new.places.held.items place) ≡ false }
    ensures others { OthersStay place worker.old.places.held.items worker.new.places.held.items }
    ensures count { length worker.new.places.held.items ≡ length worker.old.places.held.items }
{
    worker.tally.count(is_admitted);
    leave(shared, &mut worker.seated, clock, &mut conn);
    if worker.places.part(place, conn) {
        worker.keeps = true;
    }
}

/// Ends an admitted connection of a place that is claimed, and counts how.
pub(crate) fn end_admitted<'a, T: Table, J: Naming, R: ServeRuntime, G, W: Width>(
    shared: &Shared<'a, R, G, W>,
    worker: &mut Worker<'a, T, J, R, W>,
    clock: &mut RunningClock<'_, R>,
    place: usize,
    conn: Conn<'a, SharedRef<J>>,
    ended: Ended,
)
    requires connection { IsVisitor W.tables W.shards conn }
    requires rests { needed conn ≡ Rest }
    requires free { slice_get worker.old.places.held.items place ≡ Some None }
    ensures back { GivesBack clock.new worker.old.seated.items worker.new.seated.items (progress_of conn.entry).held (held_there (λ one. one.conn) (slice_get worker.new.places.held.items place)) }
    ensures closed { is_open_there (λ one. is_some one.link) (slice_get worker.new.places.held.items place) ≡ false }
    ensures others { OthersStay place worker.old.places.held.items worker.new.places.held.items }
    ensures count { length worker.new.places.held.items ≡ length worker.old.places.held.items }
{
    worker.counted.count_end(ended);
    let conn = closed::<J, W>(conn, ended.traffic.bytes_in, ended.traffic.bytes_out);
    end_at(shared, worker, clock, place, conn, true);
    shared.control.gauge.leave();
}
