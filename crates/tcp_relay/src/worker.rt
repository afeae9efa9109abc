//! What a worker has done, and what it holds; `gathering` makes it and takes it apart, and `turning` and `visiting` use it.

ghost use Rattle.std.specs.Prelude.{◌≡◌, ◌+◌, ◌*◌, ◌==◌, ◌&&◌, ◌||◌, ℕ, not, if◌then◌else◌, is_some, length, map, option_map, vec_capacity, vec_len};
ghost use Rattle.tcp_relay.specs.Counts.{more, sum};
ghost use Rattle.tcp_relay.specs.Seating.{AreIn, HaveEach, HaveFew, HaveRoom, StoreAs, held_in};
ghost use Rattle.tcp_relay.specs.Connections.{left_by_all};
ghost use Rattle.tcp_relay.specs.Passed.{HaveAllPassed};

use crate::buffers::Buffers;
use crate::counted::Counted;
use crate::leaving::put_connections;
use crate::places::Places;
use crate::seating::put_row;
use crate::watch::Watch;
use crate::width::Width;
use shard_locks::{Seated, SharedRef, SharedSeat};
use shard_record::Naming;
use std::marker::PhantomData;
use stick_table::Table;

/// What a worker has counted, each up to 2^64 - 1, and whether it couldn't wait for connections.
#[derive(Clone, Copy, Drop)]
pub(crate) struct Tally {
    pub(crate) admitted: u64,
    pub(crate) rejected: u64,
    pub(crate) unaccepted: u64,
    pub(crate) has_failed: bool,
}

impl Tally {
    /// Nothing is counted.
    pub(crate) fn new() -> Tally {
        Tally {
            admitted: 0,
            rejected: 0,
            unaccepted: 0,
            has_failed: false,
        }
    }

    /// Counts a connection that has ended.
    pub(crate) fn count(&mut self, is_admitted: bool)
        ensures admitted { self.new.admitted ≡ (if is_admitted then more self.old.admitted else self.old.admitted) }
        ensures rejected { self.new.rejected ≡ (if is_admitted then self.old.rejected else more self.old.rejected) }
        ensures unaccepted { self.new.unaccepted ≡ self.old.unaccepted }
        ensures failed { self.new.has_failed ≡ self.old.has_failed }
    {
        if is_admitted {
            self.admitted = self.admitted.saturating_add(1);
        } else {
            self.rejected = self.rejected.saturating_add(1);
        }
    }

    /// Counts a connection that couldn't be accepted.
    pub(crate) fn count_unaccepted(&mut self)
        ensures unaccepted { self.new.unaccepted ≡ more self.old.unaccepted }
        ensures admitted { self.new.admitted ≡ self.old.admitted }
        ensures rejected { self.new.rejected ≡ self.old.rejected }
        ensures failed { self.new.has_failed ≡ self.old.has_failed }
    {
        self.unaccepted = self.unaccepted.saturating_add(1);
    }

    /// Whether connections were rejected since an earlier tally, and no admitted one has ended.
    pub(crate) fn has_only_rejected(self, earlier: Tally) -> bool
        ensures exact { result ≡ (not (self.rejected == earlier.rejected) && (self.admitted == earlier.admitted)) }
    {
        self.rejected != earlier.rejected && self.admitted == earlier.admitted
    }

    /// What two have counted together.
    pub(crate) fn with(self, other: Tally) -> Tally
        ensures admitted { result.admitted ≡ sum self.admitted other.admitted }
        ensures rejected { result.rejected ≡ sum self.rejected other.rejected }
        ensures unaccepted { result.unaccepted ≡ sum self.unaccepted other.unaccepted }
        ensures failed { result.has_failed ≡ (self.has_failed || other.has_failed) }
    {
        Tally {
            admitted: self.admitted.saturating_add(other.admitted),
            rejected: self.rejected.saturating_add(other.rejected),
            unaccepted: self.unaccepted.saturating_add(other.unaccepted),
            has_failed: self.has_failed || other.has_failed,
        }
    }
}

/// A worker: the tables, each asked by its seat, what it has counted, and the connections that it holds. Each that is open has
/// passed the limit that its rules begin with, by what the seats know. A worker is lent to a thread, and shows afterwards what that
/// has done.
pub(crate) struct Worker<'a, T: Table, J: Naming, R, W: Width> {
    pub(crate) tally: Tally,
    pub(crate) counted: Counted,
    /// Whether the references of a connection couldn't be given back.
    pub(crate) keeps: bool,
    /// Each table, asked by its seat.
    pub(crate) seated: Vec<Seated<'a, T, J, R>>,
    pub(crate) places: Places<'a, J, W>,
    /// What its thread waits and carries by, until that takes it.
    pub(crate) buffers: Option<Buffers<W>>,
    /// What its thread waits for, from when it watches until that takes it.
    pub(crate) watch: Option<Watch>,
    of: PhantomData<W>,
    ghost count: { vec_len seated ≡ W.tables },
    ghost shards: { AreIn (λ one. one.table.shards) W.shards seated.items },
    ghost current: { StoreAs (λ one. one.table.spec) W.current seated.items },
    ghost passed: { HaveAllPassed (λ one. is_some one.link) (λ one. one.conn) W.setup seated.items places.held.items },
}

impl<'a, T: Table, J: Naming, R, W: Width> Worker<'a, T, J, R, W> {
    /// A worker that has done nothing, with each table by its seat and places for its connections.
    pub(crate) fn new(
        seated: Vec<Seated<'a, T, J, R>>,
        places: Places<'a, J, W>,
        buffers: Buffers<W>,
    ) -> Worker<'a, T, J, R, W>
        requires count { vec_len seated ≡ W.tables }
        requires shards { AreIn (λ one. one.table.shards) W.shards seated.items }
        requires current { StoreAs (λ one. one.table.spec) W.current seated.items }
        requires passed { HaveAllPassed (λ one. is_some one.link) (λ one. one.conn) W.setup seated.items places.held.items }
    {
        Worker {
            tally: Tally::new(),
            counted: Counted::new(),
            keeps: false,
            seated,
            places,
            buffers: Some(buffers),
            watch: None,
            of: PhantomData,
        }
    }

    /// Ends it: its seats go back to their tables, and the references that its connections still hold to those of their
    /// tables.
    pub(crate) fn end(
        self,
        seats: &mut Vec<Vec<SharedSeat<J>>>,
        refs: &mut Vec<Vec<SharedRef<J>>>,
    ) -> Tally
        requires tables { (length seats.old.items ≡ W.tables) × (length refs.old.items ≡ W.tables) }
        requires seats { HaveRoom 1 seats.old.items }
        requires refs { HaveRoom (W.most * 3) refs.old.items }
        ensures kept { held_in refs.new.items ≡ left_by_all (map (option_map (λ connection. connection.conn)) self.entry.places.held.items) (held_in refs.old.items) }
        ensures tally { result ≡ self.entry.tally }
        ensures tables { (length seats.new.items ≡ W.tables) × (length refs.new.items ≡ W.tables) }
        ensures seats { (count places : ℕ) → HaveEach count places seats.old.items → HaveEach (count + 1) places seats.new.items }
        ensures refs { (most places : ℕ) → HaveFew most places refs.old.items → HaveFew (most + W.most * 3) places refs.new.items }
    {
        let Worker {
            tally,
            counted: _counted,
            keeps: _,
            seated,
            places,
            buffers: _buffers,
            watch: _watch,
            of: _,
        } = self;
        put_row(seats, seated);
        put_connections(refs, places.into_connections());
        tally
    }
}
