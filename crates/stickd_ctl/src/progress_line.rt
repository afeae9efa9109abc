//! The line of a terminal that tells how far something long has come; `client` and `tcp_proxy` show it.

use crate::progress::{Progress, is_due, push_progress};
use crate::stopping::ms_since;
use std::cell::Cell;
use std::str;
use std::time::{Clock, Instant};

/// What goes back to a line's beginning, and clears it.
const CLEAR: &str = "\r\x1b[K";

/// The line of something long that goes on, where standard error is a terminal. Anywhere else nothing is shown.
#[derive(Drop)]
pub struct ProgressLine<'a> {
    /// What is done to entries, as `listed`.
    verb: &'a str,
    /// When it began. None off a terminal, and where there is no clock.
    began: Option<Instant>,
    /// After how many ms the last line was shown, if one was.
    last: Cell<Option<u64>>,
}

impl<'a> ProgressLine<'a> {
    /// That of something that begins now.
    pub fn begin<R: Clock>(rt: &R, verb: &'a str) -> ProgressLine<'a> {
        let began = if libc::isatty(libc::STDERR_FILENO) == 1 {
            Instant::now(rt).ok()
        } else {
            None
        };
        ProgressLine {
            verb,
            began,
            last: Cell::new(None),
        }
    }

    /// Whether it may be shown at all: else nobody needs to count.
    pub fn is_shown(&self) -> bool {
        self.began.is_some()
    }

    /// After how many ms a line is due, if one is due now.
    fn due<R: Clock>(&self, rt: &R) -> Option<u64> {
        let ms = ms_since(rt, self.began?).ok()?;
        if is_due(ms, self.last.get()) {
            Some(ms)
        } else {
            None
        }
    }

    /// Tells how many entries are done, and how many there are where that is known, as soon as a line is due. What can't be told
    /// keeps nobody.
    pub fn tell<R: Clock + Eprint + AllocGlobal>(&self, rt: &R, entries: u64, whole: Option<u64>) {
        let Some(ms) = self.due(rt) else {
            return;
        };
        let mut text = Vec::new(rt.alloc());
        let progress = Progress { entries, whole, ms };
        if push_progress(&mut text, self.verb.as_bytes(), progress).is_err() {
            return;
        }
        if let Ok(line) = str::from_utf8(text.as_slice()) {
            let _ = eprint!(rt; "{line}");
        }
        self.last.set(Some(ms));
    }

    /// Leaves nothing of the line.
    pub fn clear<R: Eprint>(&self, rt: &R) {
        if self.last.get().is_some() {
            let _ = eprint!(rt; "{CLEAR}");
        }
        self.last.set(None);
    }
}
