//! Tables that are loaded, and the line of a terminal that tells how far that has come; `keeping` loads by it.

use base_lines::Parts;
use base_sequence::NoMemory;
use shard_book::{Keeper, Named, Occupancy};
use shard_locks::{Seated, SharedSeat};
use shard_record::Naming;
use std::alloc::Global;
use std::cell::Cell;
use std::time::Clock;
use stick_table::{Event, PlainTable, Refusal, Reply, Spec, Table};
use stickd_ctl::ProgressLine;

/// How many entries are made between two looks at the clock.
const LOOK: u64 = 256;

/// How many lines of a saved file make an entry: all but empty ones and comments.
fn count_saved(text: &[u8]) -> u64 {
    let mut lines = Parts::new(text, b'\n');
    let mut count = 0u64;
    while let Some(line) = lines.next() {
        if line.first().is_some_and(|byte| byte.is_ascii_digit()) {
            count = count.saturating_add(1);
        }
    }
    count
}

/// How far loading has come.
#[derive(Drop)]
pub(crate) struct Loading<'a, R> {
    rt: &'a R,
    line: ProgressLine<'a>,
    made: Cell<u64>,
    whole: u64,
}

impl<'a, R: Clock + Eprint + AllocGlobal> Loading<'a, R> {
    /// A saved text begins to be loaded.
    pub fn begin(rt: &'a R, text: &[u8]) -> Loading<'a, R> {
        let line = ProgressLine::begin(rt, "loaded");
        let whole = if line.is_shown() {
            count_saved(text)
        } else {
            0
        };
        Loading {
            rt,
            line,
            made: Cell::new(0),
            whole,
        }
    }

    /// One entry more is to be made.
    fn add(&self) {
        let made = self.made.get().saturating_add(1);
        self.made.set(made);
        if made % LOOK == 0 {
            self.line.tell(self.rt, made, Some(self.whole));
        }
    }

    /// It has ended: nothing of the line is left.
    pub fn end(&self) {
        self.line.clear(self.rt);
    }
}

/// A table that is loaded: each entry that it is asked to make is counted.
#[derive(Drop)]
pub(crate) struct Loaded<'a, K, R> {
    keeper: K,
    loading: &'a Loading<'a, R>,
}

impl<'a, K: Keeper, R: Clock + Eprint + AllocGlobal> Keeper for Loaded<'a, K, R> {
    ghost table = { λ loaded. K.table loaded.keeper };

    ghost parts = { λ loaded. K.parts loaded.keeper };

    ghost State = { K.State };

    ghost state = { λ loaded. K.state loaded.keeper };

    ghost answers = { K.answers };

    ghost refuses = { K.refuses };

    ghost holds = { K.holds };

    fn size(&self) -> u32 {
        self.keeper.size()
    }

    fn shards(&self) -> u32 {
        self.keeper.shards()
    }

    fn spec(&self) -> &Spec {
        self.keeper.spec()
    }

    fn occupancy(&self, shard: u32) -> Occupancy {
        self.keeper.occupancy(shard)
    }

    fn copied(&self, shard: u32) -> Result<PlainTable, NoMemory> {
        self.keeper.copied(shard)
    }

    fn ask(&mut self, shard: u32, event: Event) -> Result<Reply, Refusal> {
        if let Event::Put(..) = &event {
            self.loading.add();
        }
        self.keeper.ask(shard, event)
    }
}

/// A table of the proxy that is loaded.
pub(crate) type LoadedTable<'a, T, J, R> = Named<Loaded<'a, Seated<'a, T, J, R>, R>>;

/// Tables, each asked by its seat, as they are loaded.
pub(crate) fn begin_all<'a, T: Table, J: Naming, R>(
    alloc: Global,
    tables: Vec<Named<Seated<'a, T, J, R>>>,
    loading: &'a Loading<'a, R>,
) -> Result<Vec<LoadedTable<'a, T, J, R>>, NoMemory> {
    let mut all = Vec::with_capacity(alloc, tables.as_slice().len())?;
    for named in tables {
        let Named { name, keeper } = named;
        all.push(Named {
            name,
            keeper: Loaded { keeper, loading },
        })?;
    }
    Ok(all)
}

/// The seats of tables that are loaded, each in its place.
pub(crate) fn seats_of_loaded<T: Table, J: Naming, R>(
    tables: Vec<LoadedTable<'_, T, J, R>>,
    mut back: Vec<SharedSeat<J>>,
) -> Vec<SharedSeat<J>> {
    for named in tables {
        // The place is there.
        let _ = back.push(named.keeper.keeper.into_seat());
    }
    back
}
