//! Counts that one thread publishes while another reads them, and a gauge that several threads raise and lower.

use std::sync::Wait;
use std::thread;
use std::thread::Threads;
use tcp_stats::{Cells, Count, Counts, Gauge};

/// How many clients a thread counts.
const CLIENTS: u64 = 20_000;

/// Counts clients, every third of them rejected, and publishes after each.
fn publish_often(cells: &Cells) -> Counts {
    let mut counts = Counts::new();
    for client in 0..CLIENTS {
        counts.add(Count::Accepted, 1);
        let verdict = if client % 3 == 0 {
            Count::Rejected
        } else {
            Count::Admitted
        };
        counts.add(verdict, 1);
        counts.add(Count::BytesIn, client);
        cells.publish(&counts);
    }
    counts
}

/// Whether each count is what it was, or more.
fn is_grown(before: &Counts, now: &Counts) -> bool {
    Count::ALL
        .iter()
        .all(|count| before.get(*count) <= now.get(*count))
}

/// Whether no more clients have a verdict than were accepted.
fn is_possible(counts: &Counts) -> bool {
    counts
        .get(Count::Admitted)
        .saturating_add(counts.get(Count::Rejected))
        <= counts.get(Count::Accepted)
}

/// Reads until all clients were counted. None where a count fell, more had a verdict than were accepted, or they don't come.
fn read_often(cells: &Cells) -> Option<Counts> {
    let mut before = Counts::new();
    for _ in 0..1_000_000_000u64 {
        let now = cells.read();
        if !is_grown(&before, &now) || !is_possible(&now) {
            return None;
        }
        if now.in_hand() == 0 && now.get(Count::Accepted) == CLIENTS {
            return Some(now);
        }
        before = now;
    }
    None
}

/// What one thread published last, and what was read once it and a reader had ended.
fn publish_and_read<R: Threads + Wait + Sync>(rt: &R) -> Option<(Counts, Counts)> {
    let cells = Cells::new();
    let (published, seen) = thread::join(rt, || publish_often(&cells), || read_often(&cells));
    if seen?.get(Count::Accepted) != CLIENTS {
        return None;
    }
    Some((published, cells.read()))
}

#[test]
fn counts_never_fall_and_add_up(rt: HostRuntime) {
    let Some((published, read)) = publish_and_read(&rt) else {
        panic!(rt; "a count fell, or more had a verdict than were accepted");
    };
    assert!(rt; read == published);
    assert!(rt; read.get(Count::Accepted) == CLIENTS);
    assert!(rt; read.get(Count::Rejected) == 6_667 && read.get(Count::Admitted) == 13_333);
}

/// Enters and leaves, two at once at most.
fn enter_and_leave(gauge: &Gauge) {
    for _ in 0..CLIENTS {
        gauge.enter();
        gauge.enter();
        gauge.leave();
        gauge.leave();
    }
}

/// How many are open once two threads have entered and left, and how many were at most.
fn gauge_of_two<R: Threads + Wait + Sync>(rt: &R) -> (u64, u64) {
    let gauge = Gauge::new();
    thread::join(rt, || enter_and_leave(&gauge), || enter_and_leave(&gauge));
    (gauge.open(), gauge.most())
}

#[test]
fn a_gauge_comes_back_to_none(rt: HostRuntime) {
    let (open, most) = gauge_of_two(&rt);
    assert!(rt; open == 0 && 2 <= most && most <= 4);
}
