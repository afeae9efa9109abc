//! The reports of the running proxy, the signals that stop it, and what its service manager hears; `service_threads` has one thread do
//! it.

ghost use Rattle.std.specs.Prelude.{◌≡◌, ◌-◌, ◌++◌, OnOk};
ghost use Rattle.tcp_stats.specs.CountValues.{count_of};
ghost use Rattle.tcp_proxy.specs.Saying.{line_of};

use crate::asks::{Ask, ask_of};
use crate::plan::KeepPlan;
use crate::running_program::Running;
use crate::shared::ProxyRuntime;
use crate::timetable::Timetable;
use base_clock::Clock;
use base_console::{Lines, mark_of};
use base_sequence::NoMemory;
use log::{Level, Log, info};
use shard_book::Keeper;
use std::alloc::Global;
use std::net::SocketAddr;
use std::sync::atomic::{AtomicBool, Ordering};
use std::time::Duration;
use std::{io, str, thread};
use tcp_stats::{Count, Counts, Occasion, Trouble, push_trouble, troubles};
use tcp_watch::{Notice, Teller, Told, push_status};

/// How many ms lie between two looks at signals and at the time. A program that has nothing to do wakes that often for it.
const LOOK: u64 = 250;

/// How many ms lie between two looks at the other threads, as they begin and as they end, and how many looks there are then.
const BRIEF_LOOK: u64 = 10;

const MOST_LOOKS: u32 = 200;

/// What is said, looked for and saved while the proxy runs.
#[derive(Clone, Copy, Debug)]
pub(crate) struct Reports<'a> {
    /// How many ms lie between two reports.
    pub report: Option<u64>,
    /// Whether what goes wrong is said, and rejected clients too.
    pub says_troubles: bool,
    pub says_rejected: bool,
    /// How many ms lie between two messages that the program is alive.
    pub alive: Option<u64>,
    /// Where and how often the tables are saved.
    pub keep: KeepPlan<'a>,
}

/// Where a client came from: one that was rejected as a key of a table is written, so that it can be pasted into a command; any other with
/// its port, which tells its connection.
fn client_text(alloc: Global, count: Count, source: SocketAddr) -> Result<String, NoMemory> {
    if count == Count::Rejected {
        let key = source.ip().to_canonical();
        return Ok(format!(in alloc; "{key}")?);
    }
    Ok(format!(in alloc; "{source}")?)
}

/// What is known of the last time of a count: where the client came from, and the system's words for its error.
fn last_text(alloc: Global, count: Count, last: Option<Occasion>) -> Result<String, NoMemory> {
    let Some(Occasion { source, error }) = last else {
        return Ok(String::new(alloc));
    };
    let client = match source {
        Some(source) => client_text(alloc, count, source)?,
        None => String::new(alloc),
    };
    let Some(number) = error else {
        return Ok(client);
    };
    let reason = io::Error::from_raw_os_error(number.cast_signed());
    match source {
        Some(_) => Ok(format!(in alloc; "{client}: {reason}")?),
        None => Ok(format!(in alloc; "{reason}")?),
    }
}

/// Appends a line that says what went wrong, behind its level, and what is known of the last time.
fn push_line(
    line: &mut Vec<u8>,
    level: &[u8],
    trouble: Trouble,
    last: &[u8],
) -> Result<(), NoMemory>
    ensures { OnOk result (line.new.items ≡ line.old.items ++ line_of level.now trouble last.now) }
{
    line.extend_from_slice(level)?;
    line.extend_from_slice(b"stickd: ")?;
    push_trouble(line, trouble, last)?;
    line.push(b'\n')?;
    Ok(())
}

/// Says one thing that went wrong, as a warning. Whether that can be said changes nothing.
fn say_trouble<R: Lines>(alloc: Global, rt: &R, trouble: Trouble, occasion: Option<Occasion>) {
    let mut line = Vec::new(alloc);
    let Ok(last) = last_text(alloc, trouble.count, occasion) else {
        return;
    };
    let mark = mark_of(Level::Warn, libc::isatty(libc::STDERR_FILENO) == 1);
    if push_line(&mut line, mark.as_bytes(), trouble, last.as_bytes()).is_ok() {
        rt.say_line(line.as_slice());
    }
}

/// Says what went wrong between two moments, a line for each cause.
fn say_troubles<R: ProxyRuntime>(
    alloc: Global,
    running: &Running<'_, R>,
    before: &Counts,
    now: &Counts,
) {
    let Ok(list) = troubles(alloc, before, now, running.reports.says_rejected) else {
        return;
    };
    for trouble in list.as_slice() {
        let occasion = running.control.last(trouble.count);
        say_trouble(alloc, running.rt, *trouble, occasion);
    }
}

/// Says a report, also to the service manager. One for which a table can't be asked is left out.
fn say_report<K: Keeper, C: Clock, R: ProxyRuntime>(
    running: &Running<'_, R>,
    teller: &mut Teller<'_, K, C, Running<'_, R>>,
) {
    let Ok(line) = teller.tell(Told::Report) else {
        return;
    };
    if let Ok(text) = str::from_utf8(line.as_slice()) {
        let text = text.trim_end();
        info!(running.rt; "{text}");
    }
    let mut status = Vec::new(teller.alloc);
    if push_status(&mut status, line.as_slice()).is_ok() {
        running.notify(status.as_slice());
    }
}

/// How much a count has grown.
fn growth(count: Count, before: &Counts, now: &Counts) -> u64
    ensures { result ≡ count_of now.now count - count_of before.now count }
{
    now.get(count).saturating_sub(before.get(count))
}

/// Sets the rates of the last second, and says what went wrong in it.
fn end_second<R: ProxyRuntime>(alloc: Global, running: &Running<'_, R>, before: &Counts) -> Counts {
    let now = running.counts();
    let board = running.board;
    board
        .connections
        .note_second(growth(Count::Accepted, before, &now));
    board
        .sessions
        .note_second(growth(Count::Admitted, before, &now));
    if running.reports.says_troubles {
        say_troubles(alloc, running, before, &now);
    }
    now
}

/// Does what signals ask that wait, of which so many had been seen before. How many are seen now.
fn look_for_signals<R: ProxyRuntime>(running: &Running<'_, R>, seen: u32) -> u32 {
    let Some(status) = running.status else {
        return seen;
    };
    let pending = status.count_pending();
    match ask_of(seen, pending, running.control.drain.has_begun()) {
        Ask::Nothing => {}
        Ask::Drain => running.begin_drain(running.drain),
        Ask::Hasten => running.begin_drain(0),
    }
    seen.max(pending)
}

/// Waits until this thread is the last of those beside the listener, so that a report tells all that they have counted; for two seconds at
/// most.
fn await_others<R: ProxyRuntime>(running: &Running<'_, R>) {
    for _look in 0..MOST_LOOKS {
        if running.board.at_work() <= 1 {
            return;
        }
        thread::sleep(running.rt, Duration::from_millis(BRIEF_LOOK));
    }
}

/// Tells the service manager that all threads run, once they do. Whether that is told.
fn tell_ready<R: ProxyRuntime>(running: &Running<'_, R>, was_told: bool) -> bool {
    if !was_told && running.control.start.is_over() {
        running.notify(Notice::Ready.bytes());
        return true;
    }
    was_told
}

/// Reports, looks for signals and says that the program is alive until the proxy stops. The last report tells the end.
pub(crate) fn report_on<K: Keeper, C: Clock, R: ProxyRuntime>(
    running: &Running<'_, R>,
    teller: &mut Teller<'_, K, C, Running<'_, R>>,
    stop: &AtomicBool,
) {
    let reports = running.reports;
    let mut timetable = Timetable::new(teller.clock.now(), reports.report, reports.alive);
    let mut before = Counts::new();
    let mut signals = 0;
    let mut is_ready = false;
    for _look in running.rt.forever() {
        if stop.load(Ordering::SeqCst) {
            break;
        }
        let look = if is_ready { LOOK } else { BRIEF_LOOK };
        thread::sleep(running.rt, Duration::from_millis(look));
        is_ready = tell_ready(running, is_ready);
        signals = look_for_signals(running, signals);
        let due = timetable.due(teller.clock.now());
        if due.alive {
            running.notify(Notice::Watchdog.bytes());
        }
        if due.second {
            before = end_second(teller.alloc, running, &before);
            running.rt.say_lost();
        }
        if due.report {
            say_report(running, teller);
        }
    }
    await_others(running);
    let _ = end_second(teller.alloc, running, &before);
    if reports.report.is_some() {
        say_report(running, teller);
    }
}
