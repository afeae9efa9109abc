//! What a worker counts of its connections, for those who look on; `Worker` has one, and `turning` publishes it.

ghost use Rattle.std.specs.Prelude.{◌≡◌, ◌≢◌, false, true};
ghost use Rattle.tcp_relay.specs.Counting.{missing, verdict_of, with_end, with_fault, with_one, with_one_if, with_traffic};
ghost use Rattle.tcp_relay.specs.Meeting.{raised};
ghost use Rattle.tcp_relay.specs.Traffics.{beyond, none};
ghost use Rattle.tcp_stats.specs.CountValues.{count_of};
ghost use Rattle.tcp_relay.specs.Hearings.{fault_count};
ghost use Rattle.tcp_stats.specs.declared.count.Count.TheVariants.{Accepted, Headers, Rejected};

use crate::accept_errors::{AcceptFault, Shortage};
use crate::fates::Ended;
use crate::hearing::HeaderFault;
use crate::traffic::Traffic;
use tcp_stats::{Cells, Count, Counts};

/// What a worker has counted, and whether some of it isn't published yet.
#[derive(Drop)]
pub(crate) struct Counted {
    counts: Counts,
    is_news: bool,
}

impl Counted {
    /// Nothing is counted.
    pub(crate) fn new() -> Counted
        ensures none { (count : Count) → count_of result.counts count ≡ 0 }
        ensures news { result.is_news ≡ false }
    {
        Counted {
            counts: Counts::new(),
            is_news: false,
        }
    }

    /// One more of a count.
    fn count(&mut self, count: Count)
        ensures counts { self.new.counts ≡ with_one count self.old.counts }
        ensures news { self.new.is_news ≡ true }
    {
        self.counts.add(count, 1);
        self.is_news = true;
    }

    /// A client was accepted.
    pub(crate) fn count_accepted(&mut self)
        ensures counts { self.new.counts ≡ with_one Accepted self.old.counts }
        ensures news { self.new.is_news ≡ true }
    {
        self.count(Count::Accepted);
    }

    /// The rules have admitted or rejected it.
    pub(crate) fn count_verdict(&mut self, is_admitted: bool)
        ensures counts { self.new.counts ≡ with_one (verdict_of is_admitted) self.old.counts }
        ensures news { self.new.is_news ≡ true }
    {
        if is_admitted {
            self.count(Count::Admitted);
        } else {
            self.count(Count::Rejected);
        }
    }

    /// A client has begun by a header, and is judged by it.
    pub(crate) fn count_header(&mut self)
        ensures counts { self.new.counts ≡ with_one Headers self.old.counts }
        ensures news { self.new.is_news ≡ true }
    {
        self.count(Count::Headers);
    }

    /// A client was reset unjudged, and is one of those that are rejected.
    pub(crate) fn count_unjudged(&mut self, fault: HeaderFault)
        ensures counts { self.new.counts ≡ with_one (fault_count fault) (with_one Rejected self.old.counts) }
        ensures news { self.new.is_news ≡ true }
    {
        self.count(Count::Rejected);
        self.count(fault.count());
    }

    /// A client couldn't be accepted, as the system is short of something.
    pub(crate) fn count_shortage(&mut self, shortage: Shortage)
        ensures counts { self.new.counts ≡ with_one (missing shortage) self.old.counts }
        ensures news { self.new.is_news ≡ true }
    {
        self.count(shortage.count());
    }

    /// Accepting has failed.
    pub(crate) fn count_fault(&mut self, fault: AcceptFault)
        ensures counts { self.new.counts ≡ with_fault fault self.old.counts }
        ensures news { fault ≢ AcceptFault.NoneWaits → fault ≢ AcceptFault.Gone → self.new.is_news ≡ true }
        ensures kept { self.old.is_news ≡ true → self.new.is_news ≡ true }
    {
        match fault {
            AcceptFault::NoneWaits | AcceptFault::Gone => {}
            AcceptFault::Unreadable => {
                self.count(Count::Accepted);
                self.count(Count::Rejected);
            }
            AcceptFault::Short(shortage) => self.count_shortage(shortage),
        }
    }

    /// One more, if there is a count to be raised.
    fn count_if(&mut self, count: Option<Count>)
        ensures counts { self.new.counts ≡ with_one_if count self.old.counts }
    {
        match count {
            Some(count) => self.count(count),
            None => {}
        }
    }

    /// An admitted connection has ended.
    pub(crate) fn count_end(&mut self, ended: Ended)
        ensures counts { self.new.counts ≡ with_end ended.ending (beyond ended.traffic ended.counted) self.old.counts }
        ensures news { self.new.is_news ≡ true }
    {
        self.count_if(ended.ending.fate());
        self.count(Count::Ended);
        self.add(ended.traffic.beyond(ended.counted));
    }

    /// These bytes more have passed.
    fn add(&mut self, more: Traffic)
        ensures counts { self.new.counts ≡ with_traffic more self.old.counts }
        ensures news { self.new.is_news ≡ self.old.is_news }
    {
        self.counts.add(Count::BytesIn, more.bytes_in);
        self.counts.add(Count::BytesOut, more.bytes_out);
    }

    /// These bytes more have passed through a connection that is open.
    pub(crate) fn count_traffic(&mut self, more: Traffic)
        ensures counts { self.new.counts ≡ with_traffic more self.old.counts }
        ensures news { more ≢ none → self.new.is_news ≡ true }
        ensures kept { self.old.is_news ≡ true → self.new.is_news ≡ true }
    {
        self.is_news = self.is_news || more.bytes_in > 0 || more.bytes_out > 0;
        self.add(more);
    }

    /// Raises a count to a number, where it is less.
    pub(crate) fn raise(&mut self, count: Count, number: u64)
        ensures counts { self.new.counts ≡ raised count number self.old.counts }
        ensures kept { self.old.is_news ≡ true → self.new.is_news ≡ true }
    {
        let more = number.saturating_sub(self.counts.get(count));
        self.counts.add(count, more);
        self.is_news = self.is_news || more > 0;
    }

    /// Publishes what isn't published yet, where there are cells for it.
    pub(crate) fn publish(&mut self, cells: Option<&Cells>)
        ensures counts { self.new.counts ≡ self.old.counts }
        ensures news { self.new.is_news ≡ false }
    {
        if !self.is_news {
            return;
        }
        self.is_news = false;
        if let Some(cells) = cells {
            cells.publish(&self.counts);
        }
    }
}
