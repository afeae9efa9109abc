//! What others see of serving, and how they end it; `serve` is given it, and `turning` goes by it.

use crate::accept_errors::{AcceptFault, Shortage};
use crate::drain::Drain;
use crate::fates::Ending;
use crate::hearing::HeaderFault;
use crate::start_gate::StartGate;
use std::net::SocketAddr;
use tcp_link::{Link, Unreached};
use tcp_stats::{Cells, Count, Gauge, LastTimes, Occasion};

/// What others see of serving while it goes on, and how they end it.
#[derive(Clone, Copy, Drop)]
pub struct Control<'a> {
    /// In which the threads publish what they count, each in its own, by its number from 0 on. A thread without any publishes
    /// nothing.
    pub cells: &'a [Cells],
    /// Where it is noted who was the last that something went wrong for, if anybody looks.
    pub lasts: Option<&'a LastTimes>,
    /// Whether that is noted of rejected clients too.
    pub notes_rejected: bool,
    /// How many admitted connections are open.
    pub gauge: &'a Gauge,
    /// What ends serving.
    pub drain: &'a Drain,
    /// How far the start of the threads is.
    pub start: &'a StartGate,
}

impl<'a> Control<'a> {
    /// In which the thread with this number publishes what it counts.
    pub(crate) fn cells_of(&self, worker: u32) -> Option<&'a Cells> {
        self.cells.get(worker as usize)
    }

    /// What is known of the last time of a count, where that was noted.
    pub fn last(&self, count: Count) -> Option<Occasion> {
        self.lasts?.read(count)
    }

    /// Notes the last time of a count, where anybody looks.
    pub(crate) fn note(&self, count: Count, occasion: Occasion) {
        if let Some(lasts) = self.lasts {
            lasts.note(count, occasion);
        }
    }

    /// Notes that a client was rejected, where that is asked.
    pub(crate) fn note_rejected(&self, peer: SocketAddr) {
        if !self.notes_rejected {
            return;
        }
        let occasion = Occasion {
            source: Some(peer),
            error: None,
        };
        self.note(Count::Rejected, occasion);
    }

    /// Notes that a client of this peer was reset unjudged. Of one that is no trusted proxy, as of any that is rejected, where that is asked.
    pub(crate) fn note_unjudged(&self, fault: HeaderFault, peer: SocketAddr) {
        self.note_rejected(peer);
        if fault == HeaderFault::Untrusted && !self.notes_rejected {
            return;
        }
        let occasion = Occasion {
            source: Some(peer),
            error: None,
        };
        self.note(fault.count(), occasion);
    }

    /// Notes that no client could be accepted, as the system was short of something, and the number of its error.
    pub(crate) fn note_shortage(&self, shortage: Shortage, error: Option<u32>) {
        let occasion = Occasion {
            source: None,
            error,
        };
        self.note(shortage.count(), occasion);
    }

    /// The same of an error of accepting, where it says so.
    pub(crate) fn note_fault(&self, fault: AcceptFault, error: Option<u32>) {
        match fault {
            AcceptFault::NoneWaits | AcceptFault::Gone | AcceptFault::Unreadable => {}
            AcceptFault::Short(shortage) => self.note_shortage(shortage, error),
        }
    }

    /// Notes that the server of a client couldn't be connected to.
    pub(crate) fn note_unreached(&self, unreached: Unreached, peer: SocketAddr) {
        if let Some(count) = Ending::Unreached(unreached.fault).fate() {
            let occasion = Occasion {
                source: Some(peer),
                error: Some(unreached.error),
            };
            self.note(count, occasion);
        }
    }

    /// Notes how a connection ended, where something went wrong and anybody looks.
    pub(crate) fn note_end(&self, ending: Ending, link: &Link) {
        if self.lasts.is_none() {
            return;
        }
        if let Some(count) = ending.fate() {
            let occasion = Occasion {
                source: link.peer(),
                error: link.connect_error(),
            };
            self.note(count, occasion);
        }
    }
}
