//! When a worker looks for silent peers; `turning` asks it after each poll.
//!
//! A peer is late only where nothing was there to be read from it. So silence is judged as of a moment that has passed, once all
//! that was ready then has been told and read. A poll that returns with room for more has told all that was ready as it began.
//! The system tells in turn what is ready (epoll(7)), so that as many full polls as all sockets fill have told it too.
//!
//! Silence has a clock of its own. While the worker is stalled its peers may wait for it, so of a stall just a tick counts. As that
//! much does count, a worker that is stalled again and again closes silent peers too.

ghost use Rattle.std.specs.Prelude.{◌≡◌, None};
ghost use Rattle.tcp_relay.specs.Sweeps.{counted_behind, counts, due_behind, due_next, is_told, left_of, shown_at, swept_at, told_of};

/// How often silent peers are looked for, in ms.
pub(crate) const TICK: u64 = 100;

/// How long a worker is held up at most between two polls, in ms. Where that takes longer, it was stalled.
pub(crate) const STALL: u64 = 500;

/// A moment as of which silent peers are to be looked for.
#[derive(Clone, Copy, Debug, PartialEq, Eq)]
pub(crate) struct Due {
    /// The moment, in ms by the clock of silence.
    as_of: u64,
    /// How many full polls it takes until all that was ready then has been told.
    polls: usize,
}

/// The clock of silence, and when silent peers are looked for by it.
#[derive(Clone, Copy, Debug, Drop, PartialEq, Eq)]
pub(crate) struct Sweep {
    /// When the last poll returned, in ms by the worker's clock.
    polled: u64,
    /// What the clock of silence showed then, in ms.
    counted: u64,
    /// As of when silent peers were last looked for, in ms by the clock of silence.
    swept: u64,
    due: Option<Due>,
}

impl Sweep {
    /// Silence counts from this moment on, in ms.
    pub(crate) fn new(moment: u64) -> Sweep
        ensures { result ≡ record { polled = moment; counted = moment; swept = moment; due = None } }
    {
        Sweep {
            polled: moment,
            counted: moment,
            swept: moment,
            due: None,
        }
    }

    /// What the clock of silence showed as the last poll returned, in ms: what is read behind it is heard then.
    pub(crate) fn counted(&self) -> u64
        ensures { result ≡ self.now.counted }
    {
        self.counted
    }

    /// What the clock of silence shows at a moment behind the last poll, in ms.
    pub(crate) fn shows(&self, moment: u64) -> u64
        ensures { result ≡ shown_at self.now moment }
    {
        let passed = moment.saturating_sub(self.polled);
        moment.min(self.counted.saturating_add(passed))
    }

    /// Whether silent peers are looked for as soon as the next polls have told what was ready.
    pub(crate) fn is_due(&self) -> bool {
        self.due.is_some()
    }

    /// A poll has returned at a moment in ms, full or with room for more; all sockets fill so many. Answers as of when silent peers
    /// are looked for, by the clock of silence, once what this poll told has been read.
    pub(crate) fn after_poll(&mut self, moment: u64, is_full: bool, polls: usize) -> Option<u64>
        ensures looks { result ≡ told_of self.old.due is_full }
        ensures polled { self.new.polled ≡ moment }
        ensures counted { self.new.counted ≡ counted_behind self.old moment }
        ensures swept { self.new.swept ≡ swept_at (told_of self.old.due is_full) self.old.swept }
        ensures due { self.new.due ≡ due_behind self.old moment is_full polls }
    {
        let more = counts(self.polled, moment);
        self.polled = moment;
        self.counted = moment.min(self.counted.saturating_add(more));
        let told = told_of(self.due, is_full);
        self.swept = swept_at(told, self.swept);
        self.due = due_next(left_of(self.due, is_full), self.swept, self.counted, polls);
        told
    }
}

/// How much of the time between two polls, at these moments in ms, counts as silence: all of it, or a tick of a stall.
fn counts(polled: u64, moment: u64) -> u64
    ensures { result ≡ counts polled moment }
{
    let passed = moment.saturating_sub(polled);
    if passed > STALL { TICK } else { passed }
}

/// Whether all that was ready at the moment that is due has been told, behind a poll.
fn is_told(due: Due, is_full: bool) -> bool
    ensures { result ≡ is_told due is_full }
{
    !is_full || due.polls <= 1
}

/// The moment that is due, once all that was ready then has been told.
fn told_of(due: Option<Due>, is_full: bool) -> Option<u64>
    ensures { result ≡ told_of due is_full }
{
    let due = due?;
    if is_told(due, is_full) {
        Some(due.as_of)
    } else {
        None
    }
}

/// What is still due behind a poll.
fn left_of(due: Option<Due>, is_full: bool) -> Option<Due>
    ensures { result ≡ left_of due is_full }
{
    let due = due?;
    if is_told(due, is_full) {
        return None;
    }
    Some(Due {
        as_of: due.as_of,
        polls: due.polls.saturating_sub(1),
    })
}

/// When silent peers were last looked for.
fn swept_at(told: Option<u64>, swept: u64) -> u64
    ensures { result ≡ swept_at told swept }
{
    match told {
        Some(as_of) => as_of,
        None => swept,
    }
}

/// What is due next: what still is, or this moment once a tick has passed.
fn due_next(due: Option<Due>, swept: u64, moment: u64, polls: usize) -> Option<Due>
    ensures { result ≡ due_next due swept moment polls }
{
    match due {
        Some(due) => Some(due),
        None => {
            if moment.saturating_sub(swept) >= TICK {
                Some(Due {
                    as_of: moment,
                    polls,
                })
            } else {
                None
            }
        }
    }
}
