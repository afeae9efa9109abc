//! The tables of a run, asked by one seat each before its threads start and behind them: loaded from a file, and saved to one;
//! `running` calls it, and `saver` while the threads run.

ghost use Rattle.std.specs.Prelude.{◌≡◌, ◌<◌, ◌^◌, map};
ghost use Rattle.rule_model.specs.declared.sections.NamedSpec.{NamedSpec as ItsSpec};
ghost use Rattle.table_cli.specs.Lives as spec;

use crate::loading::{LoadedTable, Loading, begin_all, seats_of_loaded};
use crate::plan::Plan;
use crate::running::report;
use crate::service_threads::{Asked, SeatedTable, ServiceThread, seats_of};
use crate::shared::ProxyRuntime;
use base_clock::{Clock, RunningClock, Start};
use base_sequence::NoMemory;
use log::{Log, error, info, warn};
use rule_model::Setup;
use shard_book::Named;
use shard_locks::{Seated, Shards, SharedSeat};
use shard_record::Naming;
use std::alloc::Global;
use std::rt::Files;
use std::{fs, io, mem};
use stick_table::Table;
use stickd_ctl::{Saved, replace_file, try_to_replace};
use table_cli::{
    LoadFault, Misfits, life_of, load, promises_end, say_misfits, say_unplaced, show_oldest_first,
};
use table_texts::Answer;
use tcp_relay::FaultKind;

/// The longest life that a setup's tables give, in ms: the moment at which they go on once they are loaded.
pub(crate) fn longest_life(setup: &Setup) -> u32
    ensures { result ≡ spec.longest_life (map (λ (named : ItsSpec). named.spec) setup.now.tables) }
{
    let mut longest = 0u32;
    for named in setup.tables.as_slice() {
        longest = longest.max(life_of(&named.spec));
    }
    longest
}

/// Tables, each asked by one of these seats, under the names of the setup.
fn seat_all<'a, T: Table, J: Naming, R>(
    alloc: Global,
    rt: &'a R,
    setup: &Setup,
    tables: &'a [Shards<T, J>],
    seats: Vec<SharedSeat<J>>,
) -> Result<Asked<'a, T, J, R>, NoMemory> {
    let back = Vec::with_capacity(alloc, tables.len())?;
    let mut seated = Vec::with_capacity(alloc, tables.len())?;
    for (place, seat) in seats.into_iter().enumerate() {
        let (Some(table), Some(named)) = (tables.get(place), setup.tables.as_slice().get(place))
        else {
            break;
        };
        let name = named.name.copy()?;
        let keeper = Seated::new(table, rt, seat);
        seated.push(Named { name, keeper })?;
    }
    Ok(Asked {
        tables: seated,
        back,
    })
}

/// The same as they are loaded, with a place for each of their seats.
fn seat_loaded<'a, T: Table, J: Naming, R>(
    alloc: Global,
    rt: &'a R,
    setup: &Setup,
    tables: &'a [Shards<T, J>],
    seats: Vec<SharedSeat<J>>,
    loading: &'a Loading<'a, R>,
) -> Result<(Vec<LoadedTable<'a, T, J, R>>, Vec<SharedSeat<J>>), NoMemory> {
    let Asked { tables, back } = seat_all(alloc, rt, setup, tables, seats)?;
    let tables = begin_all(alloc, tables, loading)?;
    Ok((tables, back))
}

/// Says what of a file wasn't loaded, and where nobody can tell whether it is whole.
fn say_loaded<K, R: Log + Eprint>(
    rt: &R,
    tables: &[Named<K>],
    path: &str,
    text: &[u8],
    skipped: &[LoadFault<'_>],
) -> io::Result<()> {
    if !text.is_empty() && !promises_end(text) {
        warn!(rt; "{path} doesn't say how many entries it has, so nobody can tell whether it is whole");
    }
    for named in tables {
        say_unplaced(rt, path, named.name.as_slice(), skipped)?;
    }
    say_misfits(rt, path, skipped)
}

/// What a saved file has. None where it can't be read, which is said on standard error.
fn read_saved<R: Files + Log + AllocGlobal>(rt: &R, path: &str) -> Option<Vec<u8>> {
    match fs::read(rt, path) {
        Ok(text) => Some(text),
        Err(reason) => {
            error!(rt; "{path} can't be read: {reason}");
            None
        }
    }
}

/// Makes the entries that a file keeps, by one seat of each table, which come back. None where the file can't be read or isn't what
/// was saved, which is said on standard error. Where that is a terminal, it tells meanwhile how far loading has come.
fn load_tables<T: Table, J: Naming, R: ProxyRuntime + Files + AllocGlobal + Eprint>(
    alloc: Global,
    rt: &R,
    setup: &Setup,
    tables: &[Shards<T, J>],
    seats: Vec<SharedSeat<J>>,
    path: &str,
    misfits: Misfits,
) -> io::Result<Option<Vec<SharedSeat<J>>>> {
    let Some(text) = read_saved(rt, path) else {
        return Ok(None);
    };
    let loading = Loading::begin(rt, text.as_slice());
    let Ok((mut tables, back)) = seat_loaded(alloc, rt, setup, tables, seats, &loading) else {
        report(rt, FaultKind::NoMemory)?;
        return Ok(None);
    };
    let loaded = load(alloc, tables.as_mut_slice(), text.as_slice(), misfits);
    loading.end();
    match loaded {
        Ok(skipped) => say_loaded(
            rt,
            tables.as_slice(),
            path,
            text.as_slice(),
            skipped.as_slice(),
        )?,
        Err(fault) => {
            error!(rt; "{path}: {fault}");
            return Ok(None);
        }
    }
    Ok(Some(seats_of_loaded(tables, back)))
}

/// Why tables aren't saved.
#[derive(Debug, Drop, thiserror::Error)]
pub(crate) enum SaveFault {
    #[error("out of memory")]
    NoMemory,
    #[error("{0}")]
    File(io::Error),
}

impl From<NoMemory> for SaveFault {
    fn from(_refused: NoMemory) -> SaveFault {
        SaveFault::NoMemory
    }
}

impl From<io::Error> for SaveFault {
    fn from(reason: io::Error) -> SaveFault {
        SaveFault::File(reason)
    }
}

/// Adds what the table of a place holds, at a moment.
fn save_one<T: Table, J: Naming, R: ProxyRuntime>(
    alloc: Global,
    tables: &[SeatedTable<'_, T, J, R>],
    place: usize,
    moment: u64,
    saved: &mut Saved,
) -> Result<(), NoMemory>
    requires { moment < 2 ^ 62 }
{
    let Some(named) = tables.get(place) else {
        return Ok(());
    };
    let name = named.name.as_slice();
    match show_oldest_first(alloc, tables, moment, name) {
        Answer::Listing(listing) => saved.add(name, listing.as_slice(), true),
        _ => Err(NoMemory),
    }
}

/// What tables hold at a moment.
fn text_of<T: Table, J: Naming, R: ProxyRuntime>(
    alloc: Global,
    tables: &[SeatedTable<'_, T, J, R>],
    moment: u64,
) -> Result<Vec<u8>, NoMemory>
    requires { moment < 2 ^ 62 }
{
    let mut saved = Saved::new(alloc);
    for place in 0..tables.len() {
        save_one(alloc, tables, place, moment, &mut saved)?;
    }
    saved.into_text()
}

/// Writes what tables hold at a moment to a file, which takes the place of the one before. Where that fails, that one stays.
pub(crate) fn save_tables<T: Table, J: Naming, R: ProxyRuntime>(
    alloc: Global,
    tables: &[SeatedTable<'_, T, J, R>],
    moment: u64,
    path: &str,
) -> Result<(), SaveFault>
    requires { moment < 2 ^ 62 }
{
    let text = text_of(alloc, tables, moment)?;
    replace_file(alloc, path, text.as_slice())?;
    Ok(())
}

/// Writes what the tables hold to a file, by one seat of each table. The seats that come back, and whether the file is written;
/// where it isn't, that is said on standard error. Where memory was short for the seats, none come back.
fn save_all<T: Table, J: Naming, R: ProxyRuntime + Files + AllocGlobal + Eprint>(
    alloc: Global,
    rt: &R,
    setup: &Setup,
    tables: &[Shards<T, J>],
    seats: Vec<SharedSeat<J>>,
    start: Start,
    path: &str,
) -> io::Result<(Vec<SharedSeat<J>>, bool)> {
    let moment = RunningClock::new(rt, start).now();
    let Ok(asked) = seat_all(alloc, rt, setup, tables, seats) else {
        report(rt, FaultKind::NoMemory)?;
        return Ok((Vec::new(alloc), false));
    };
    let is_saved = match save_tables(alloc, asked.tables.as_slice(), moment, path) {
        Ok(()) => {
            info!(rt; "saved to {path}");
            true
        }
        Err(fault) => {
            error!(rt; "{path} can't be written: {fault}");
            false
        }
    };
    Ok((seats_of(asked.tables, asked.back), is_saved))
}

/// Makes the entries of the plan's file, if it names one, by these seats, which come back. None where that can't be done, which is
/// said.
pub(crate) fn load_where<T: Table, J: Naming, R: ProxyRuntime + Files + AllocGlobal + Eprint>(
    alloc: Global,
    rt: &R,
    setup: &Setup,
    plan: Plan<'_>,
    tables: &[Shards<T, J>],
    seats: Vec<SharedSeat<J>>,
) -> io::Result<Option<Vec<SharedSeat<J>>>> {
    match plan.keep.load {
        Some(path) => load_tables(alloc, rt, setup, tables, seats, path, plan.keep.misfits),
        None => Ok(Some(seats)),
    }
}

/// Tries whether the plan's file can be written, if it names one, before anything is opened. False where it can't be, which is said.
pub(crate) fn can_save<R: ProxyRuntime + Files + AllocGlobal + Eprint>(
    alloc: Global,
    rt: &R,
    plan: Plan<'_>,
) -> io::Result<bool> {
    let Some(path) = plan.keep.save else {
        return Ok(true);
    };
    match try_to_replace(alloc, rt, path) {
        Ok(()) => Ok(true),
        Err(reason) => {
            error!(rt; "{path} can't be written: {reason}");
            Ok(false)
        }
    }
}

/// Writes what the tables hold to the plan's file, if it names one and serving ended well, by the seats of a thread that has ended.
/// Answers whether nothing is left undone.
pub(crate) fn save_where<T: Table, J: Naming, R: ProxyRuntime + Files + AllocGlobal + Eprint>(
    alloc: Global,
    rt: &R,
    setup: &Setup,
    plan: Plan<'_>,
    tables: &[Shards<T, J>],
    service_threads: &mut [ServiceThread<J>],
    start: Start,
) -> io::Result<bool> {
    let (Some(path), Some(thread)) = (plan.keep.save, service_threads.first_mut()) else {
        return Ok(true);
    };
    let seats = mem::replace(&mut thread.seats, Vec::new(alloc));
    let (seats, is_saved) = save_all(alloc, rt, setup, tables, seats, start, path)?;
    thread.seats = seats;
    Ok(is_saved)
}
