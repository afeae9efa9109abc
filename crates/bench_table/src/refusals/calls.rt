//! Makes each call of a table in shards once, without receipts and with them, and settles it: first with a reference that
//! is out and isn't shown, then with that given back. And it holds two references over a roll of the record and a hundred
//! calls, gives both back and rolls again. Where a growth is refused it asks once more, and says how often that was, and
//! how many answers were those that are wanted.

ghost use Rattle.std.specs.Prelude.{◌≡◌, ◌<◌};
ghost use Rattle.test_calls.specs.Planned.{IsNamed};

use shard_locks::{Shards, SharedSeat};
use shard_record::Naming;
use shard_settling::{Fault, Settled, Unsettled, settle};
use std::alloc::Global;
use std::io;
use std::marker::Brand;
use std::sync::Wait;
use std::sync::atomic::{AtomicBool, Ordering};
use stick_table::{Filter, PlainTable};
use test_calls::{
    Asked, Caller, Drawing, OpenTable, Planned, Purse, TablePlan, Told, abandon_all, open_alone,
    open_record,
};

/// A table and its seats.
type Opened<J> = OpenTable<PlainTable, J>;

/// What is done with the table, and what it is told. The keys of 5 and 7 lie on the first of two shards.
#[derive(Clone, Copy)]
enum Step {
    /// A look at what a shard was made with.
    Spec,
    Say(Asked, Told),
    /// A listing of both shards, which have one entry.
    List,
    Roll,
    Hold,
}

const GET: Step = Step::Say(Asked::Get(5, 40), Told::Row(1, 470, 4));

const RELEASE: Step = Step::Say(Asked::Release(0, 50), Told::Released);

/// What is done before the table is shown.
const CALLS: [Step; 10] = [
    Step::Spec,
    Step::Say(Asked::Put(5), Told::Written(true)),
    Step::Say(Asked::Track(5, 10), Told::Row(1, 500, 3)),
    Step::Say(Asked::Look(20), Told::Row(1, 490, 3)),
    Step::Say(Asked::Count(30), Told::Value(Some(4))),
    GET,
    // Where receipts are kept there are eight then, as many as they have places: so the release needs room for its own.
    GET,
    Step::List,
    Step::Roll,
    Step::Hold,
];

/// What is done before a hundred calls, the roll last.
const BEFORE: [Step; 5] = [
    Step::Say(Asked::Put(5), Told::Written(true)),
    Step::Say(Asked::Track(5, 10), Told::Row(1, 500, 3)),
    Step::Say(Asked::Count(30), Told::Value(Some(4))),
    Step::Say(Asked::Track(7, 35), Told::Row(1, 500, 0)),
    Step::Roll,
];

/// What is done after them.
const AFTER: [Step; 3] = [
    Step::Say(Asked::Release(1, 50), Told::Released),
    RELEASE,
    Step::Roll,
];

/// How often a growth was refused, how many answers were those that are wanted, and what was settled.
#[derive(Clone, Copy)]
struct Tally {
    refused: u32,
    wanted: u32,
    /// Calls of shards before one that refused a listing.
    listed: u64,
    calls: u64,
    references: u64,
}

/// Nothing, so far.
const START: Tally = Tally {
    refused: 0,
    wanted: 0,
    listed: 0,
    calls: 0,
    references: 0,
};

/// A table of 12 entries in two shards.
fn plan_of(keep: bool) -> TablePlan {
    TablePlan {
        size: 12,
        max_refs: 5,
        life: 1 << 62,
        shards: 2,
        seats: 1,
        keep,
    }
}

/// A caller by a seat, who holds what a purse has and draws nothing.
fn caller_of<J: Naming>(
    alloc: Global,
    table: &Shards<PlainTable, J>,
    seat: SharedSeat<J>,
    purse: Purse<J>,
) -> Caller<'_, PlainTable, J> {
    let drawing = Drawing {
        seed: 0,
        keys: 0,
        moments: 0,
    };
    Caller::new(alloc, table, seat, purse, drawing)
}

/// The shard of a number, of which there are as many as the table has.
fn place<J: Naming>(table: &Shards<PlainTable, J>, number: u32) -> u32
    ensures { result < table.now.shards }
{
    number % table.shards()
}

/// Whether the work is done for which the second shard is held.
fn is_held<J: Naming>(rt: &impl Wait, table: &Shards<PlainTable, J>) -> bool {
    let done = AtomicBool::new(false);
    table.hold(rt, place(table, 1), || done.store(true, Ordering::SeqCst));
    done.into_inner()
}

/// Whether there are two shards, and the second has half of the table's places.
fn is_halved<J: Naming>(table: &Shards<PlainTable, J>) -> bool {
    table.shards() == 2 && table.spec(place(table, 1)).size == 6
}

/// Whether the first shard's record begins again where no receipts are kept; or that it is refused.
fn is_rolled<J: Naming>(
    rt: &impl Wait,
    table: &Shards<PlainTable, J>,
    keeps: bool,
) -> Result<bool, u32> {
    match table.roll(rt, place(table, 0), 1) {
        Ok(rolled) => Ok(rolled != keeps),
        Err(_) => Err(0),
    }
}

/// Whether a step is answered as is wanted. A refusal says of how many shards the call was made before.
fn answer_of<J: Naming>(
    rt: &impl Wait,
    table: &Shards<PlainTable, J>,
    caller: &mut Caller<'_, PlainTable, J>,
    step: Step,
) -> Result<bool, u32> {
    match step {
        Step::Spec => Ok(is_halved(table)),
        Step::Say(asked, wanted) => match caller.say(rt, 0, asked) {
            Told::Refused(_) => Err(0),
            told => Ok(told == wanted),
        },
        Step::List => match caller.list(rt, 45, &Filter::Everything) {
            Ok(listed) => Ok(listed == (1, 1)),
            Err((shards, _)) => Err(shards),
        },
        Step::Roll => is_rolled(rt, table, caller.seat().seat().keeps()),
        Step::Hold => Ok(is_held(rt, table)),
    }
}

impl Tally {
    /// Counts an answer; says whether it was a refusal.
    fn is_refused(&mut self, answer: Result<bool, u32>) -> bool {
        match answer {
            Ok(wanted) => {
                self.wanted = self.wanted.saturating_add(u32::from(wanted));
                false
            }
            Err(listed) => {
                self.refused = self.refused.saturating_add(1);
                self.listed = self.listed.saturating_add(u64::from(listed));
                true
            }
        }
    }

    /// Takes a step, and once more where it is refused: but for a release without receipts, which is never refused for want of
    /// memory. Of a release that is refused the reference has come back, and is given back then.
    fn take<J: Naming>(
        &mut self,
        rt: &impl Wait,
        table: &Shards<PlainTable, J>,
        caller: &mut Caller<'_, PlainTable, J>,
        step: Step,
    ) {
        let is_release = matches!(step, Step::Say(Asked::Release(_, _), _));
        let answer = answer_of(rt, table, caller, step);
        if self.is_refused(answer) && (caller.seat().seat().keeps() || !is_release) {
            let answer = answer_of(rt, table, caller, step);
            self.is_refused(answer);
        }
    }

    /// Takes these steps.
    fn take_each<J: Naming>(
        &mut self,
        rt: &impl Wait,
        table: &Shards<PlainTable, J>,
        caller: &mut Caller<'_, PlainTable, J>,
        steps: &[Step],
    ) {
        for step in steps {
            self.take(rt, table, caller, *step);
        }
    }

    /// Counts that a table and its seats were refused; answers that there are none.
    fn note_none<V>(&mut self) -> Option<V> {
        self.refused = self.refused.saturating_add(1);
        None
    }

    /// The only table of a record, and its seat. Where they are refused that is counted.
    fn open<J: Naming>(&mut self, alloc: Global, keep: bool, planned: Planned) -> Option<Opened<J>>
        requires { IsNamed planned J.record_id J.books J.specs }
    {
        match open_alone(alloc, plan_of(keep), planned) {
            Ok(opened) => Some(opened),
            Err(_) => self.note_none(),
        }
    }

    /// Counts what was settled.
    fn count<J: Naming>(&mut self, settled: &Settled<PlainTable, J>) {
        for count in settled.counts.iter() {
            self.calls = self.calls.saturating_add(*count);
        }
        for tickets in settled.tickets.iter() {
            let more = tickets.as_slice().len() as u64;
            self.references = self.references.saturating_add(more);
        }
    }

    /// Settles a table without references, and counts what it has; or the fault, and the table as it comes back.
    fn settle_once<J: Naming>(
        &mut self,
        alloc: Global,
        opened: Opened<J>,
    ) -> Option<(Fault, Opened<J>)> {
        let (table, seats) = opened;
        match settle(alloc, table, seats, Vec::new(alloc)) {
            Ok(settled) => {
                self.count(&settled);
                None
            }
            Err(unsettled) => {
                let Unsettled {
                    fault,
                    found: _,
                    shards,
                    seats,
                    refs,
                } = unsettled;
                abandon_all(refs);
                Some((fault, (shards, seats)))
            }
        }
    }

    /// The same, and once more where there is no memory for it.
    fn settle<J: Naming>(
        &mut self,
        alloc: Global,
        opened: Opened<J>,
    ) -> Option<(Fault, Opened<J>)> {
        let (fault, opened) = self.settle_once(alloc, opened)?;
        if fault != Fault::Memory {
            return Some((fault, opened));
        }
        self.refused = self.refused.saturating_add(1);
        self.settle_once(alloc, opened)
    }

    /// Takes these steps by the last seat, which goes back to its place; answers the purse of what it holds then.
    fn call<J: Naming>(
        &mut self,
        rt: &impl Wait,
        alloc: Global,
        table: &Shards<PlainTable, J>,
        seats: &mut Vec<SharedSeat<J>>,
        purse: Purse<J>,
        steps: &[Step],
    ) -> Purse<J> {
        let Some(seat) = seats.pop() else {
            return purse;
        };
        let mut caller = caller_of(alloc, table, seat, purse);
        self.take_each(rt, table, &mut caller, steps);
        let (seat, purse) = caller.into_parts();
        // It has room: a seat was taken out of it.
        let _room = seats.push(seat);
        purse
    }
}

/// Makes each call of a table once, and settles it; answers whether a reference was missed, or that the table was refused.
fn lead_recorded<J: Naming, R: Wait>(
    rt: &R,
    alloc: Global,
    keep: bool,
    tally: &mut Tally,
    planned: Planned,
) -> Option<bool>
    requires record { IsNamed planned J.record_id J.books J.specs }
{
    let (table, mut seats) = tally.open::<J>(alloc, keep, planned)?;
    let purse = tally.call(rt, alloc, &table, &mut seats, Purse::new(alloc), &CALLS);
    let Some((fault, opened)) = tally.settle(alloc, (table, seats)) else {
        return Some(false);
    };
    let (table, mut seats) = opened;
    let _purse = tally.call(rt, alloc, &table, &mut seats, purse, &[RELEASE]);
    let _unsettled = tally.settle(alloc, (table, seats));
    Some(fault == Fault::MissingRefs(0))
}

/// The same of a new record.
fn lead_once<R: Wait>(rt: &R, alloc: Global, keep: bool, tally: &mut Tally) -> Option<bool> {
    match open_record(alloc, &[plan_of(keep)]) {
        Ok(planned) => lead_recorded::<Brand, R>(rt, alloc, keep, tally, planned),
        Err(_) => tally.note_none(),
    }
}

/// Takes two references, rolls the record, gets a row a hundred times, gives both back and rolls again; answers whether the table
/// wasn't refused.
fn rolls_recorded<J: Naming, R: Wait>(
    rt: &R,
    alloc: Global,
    tally: &mut Tally,
    planned: Planned,
) -> bool
    requires record { IsNamed planned J.record_id J.books J.specs }
{
    let Some(opened) = tally.open::<J>(alloc, false, planned) else {
        return false;
    };
    let (table, mut seats) = opened;
    let purse = tally.call(rt, alloc, &table, &mut seats, Purse::new(alloc), &BEFORE);
    let purse = tally.call(rt, alloc, &table, &mut seats, purse, &[GET; 100]);
    let _purse = tally.call(rt, alloc, &table, &mut seats, purse, &AFTER);
    true
}

/// The same of a new record.
fn rolls_once<R: Wait>(rt: &R, alloc: Global, tally: &mut Tally) -> bool {
    match open_record(alloc, &[plan_of(false)]) {
        Ok(planned) => rolls_recorded::<Brand, R>(rt, alloc, tally, planned),
        Err(_) => tally.note_none::<bool>().is_some(),
    }
}

/// Makes each call, without receipts and with them, and over rolls, each once more of another record where the table was refused;
/// prints what came of it.
pub(crate) fn make_calls<R: Wait + Print + AllocGlobal>(rt: &R) -> io::Result<()> {
    for keep in [false, true] {
        let mut tally = START;
        let missed = match lead_once(rt, rt.alloc(), keep, &mut tally) {
            Some(missed) => missed,
            None => lead_once(rt, rt.alloc(), keep, &mut tally).unwrap_or(false),
        };
        let Tally {
            refused,
            wanted,
            listed,
            calls,
            references,
        } = tally;
        let calls = calls.saturating_sub(listed);
        println!(rt;
            "{refused} refused, {wanted} of 11 as wanted, missing {missed}, settled {calls} calls, {references} references"
        )?;
    }
    let mut tally = START;
    if !rolls_once(rt, rt.alloc(), &mut tally) {
        rolls_once(rt, rt.alloc(), &mut tally);
    }
    let (refused, wanted) = (tally.refused, tally.wanted);
    println!(rt; "{refused} refused, {wanted} of 108 as wanted over two rolls")
}
