//! The tables of a setup are opened for threads to share; `running` calls it first.

ghost use Rattle.std.specs.Prelude.{◌≡◌, ◌≤◌, ◌+◌, ◌*◌, ◌++◌, ◌∷◌, [], length, vec_len, IfOk, IfSome, OnOk};
ghost use Rattle.stick_model.specs.Limits.{IsTableSpec};
ghost use Rattle.shard_record.specs.Dealing.{HasLeft};
ghost use Rattle.shard_locks.specs.Shared.{AreParts};
ghost use Rattle.admit_drive.specs.Tables.{CanOpen};
ghost use Rattle.tcp_relay.specs.Serving.{AreSeats, AreTablesOf};
ghost use Rattle.tcp_proxy.specs.Opened.{AreDeclared, HasPlaces, book_spec, but_for_seed, declared_table, seeded};

use base_sequence::NoMemory;
use rule_model::{NamedSpec, Setup};
use shard_locks::{Shards, SharedSeat};
use shard_record::{Dealer, Naming, Opened};
use std::alloc::Global;
use std::io;
use std::random::RandomSource;
use stick_table::Table;

/// Why tables can't be opened.
#[derive(Debug, Drop, thiserror::Error)]
pub(crate) enum OpenFault {
    #[error("out of memory")]
    NoMemory,
    #[error("no random numbers can be had: {0}")]
    NoSeed(io::Error),
}

impl From<NoMemory> for OpenFault {
    fn from(_refused: NoMemory) -> OpenFault {
        OpenFault::NoMemory
    }
}

/// The record of the calls of all tables of a setup, before it has a name; the seed of each table; and how many threads are to call
/// each table beside the one that does the housekeeping: the workers, and those that answer clients.
#[derive(Drop)]
pub(crate) struct CallRecord {
    pub opened: Opened,
    pub seeds: Vec<u64>,
    pub workers: u32,
    pub clients: u32,
}

/// A table, and the seats by which it is asked.
#[derive(Drop)]
struct OpenTable<T: Table, J: Naming> {
    table: Shards<T, J>,
    workers: Vec<SharedSeat<J>>,
    commands: Vec<SharedSeat<J>>,
    keeper: SharedSeat<J>,
}

/// The tables of a setup, and of each the seats by which it is asked: one for each worker, one for each thread that answers
/// commands, and one for housekeeping.
#[derive(Drop)]
pub(crate) struct OpenTables<T: Table, J: Naming> {
    pub tables: Vec<Shards<T, J>>,
    pub workers: Vec<Vec<SharedSeat<J>>>,
    pub commands: Vec<Vec<SharedSeat<J>>>,
    pub keepers: Vec<SharedSeat<J>>,
}

impl<T: Table, J: Naming> OpenTables<T, J> {
    /// One table more.
    fn add(&mut self, opened: OpenTable<T, J>) -> Result<(), NoMemory>
        ensures tables { OnOk result (self.new.tables.items ≡ self.old.tables.items ++ opened.table ∷ []) }
        ensures workers { OnOk result (self.new.workers.items ≡ self.old.workers.items ++ opened.workers ∷ []) }
        ensures commands { OnOk result (self.new.commands.items ≡ self.old.commands.items ++ opened.commands ∷ []) }
        ensures keepers { OnOk result (self.new.keepers.items ≡ self.old.keepers.items ++ opened.keeper ∷ []) }
    {
        self.tables.push(opened.table)?;
        self.workers.push(opened.workers)?;
        self.commands.push(opened.commands)?;
        self.keepers.push(opened.keeper)?;
        Ok(())
    }
}

/// A record for the calls of all tables of a setup, by so many workers and so many threads that answer clients. None where there
/// is no memory for it, or where its books or seats are more than 2^32 - 1.
fn open_unnamed(alloc: Global, setup: &Setup, workers: u32, clients: u32) -> Option<Opened>
    requires workers { (1 ≤ workers) × (workers ≤ 64) }
    requires clients { (1 ≤ clients) × (clients ≤ 256) }
    ensures books { IfSome result (λ opened. opened.books ≡ setup.now.shards * length setup.now.tables) }
    ensures seats { IfSome result (λ opened. opened.seats ≡ (workers + clients + 1) * length setup.now.tables) }
{
    let tables = u32::try_from(setup.tables.as_slice().len()).ok()?;
    let books = setup.shards.checked_mul(tables)?;
    let seats = (workers + clients + 1).checked_mul(tables)?;
    Opened::new(alloc, books, seats).ok()
}

/// A number that nobody outside can foresee.
fn draw_seed(rt: &impl RandomSource) -> io::Result<u64> {
    let mut bytes = [0u8; 8];
    rt.fill_bytes(&mut bytes)?;
    Ok(u64::from_le_bytes(bytes))
}

/// So many of these.
fn draw_seeds(alloc: Global, rt: &impl RandomSource, count: usize) -> Result<Vec<u64>, OpenFault>
    ensures count { IfOk result (λ seeds. length seeds.items ≡ count) }
{
    let mut seeds = Vec::new(alloc);
    let mut drawn = 0usize;
    while drawn < count {
        let seed = match draw_seed(rt) {
            Ok(seed) => seed,
            Err(reason) => return Err(OpenFault::NoSeed(reason)),
        };
        if seeds.push(seed).is_err() {
            return Err(OpenFault::NoMemory);
        }
        drawn += 1;
    }
    Ok(seeds)
}

/// A record for the calls of all tables of a setup, and a seed for each of these.
pub(crate) fn open_record(
    alloc: Global,
    rt: &impl RandomSource,
    setup: &Setup,
    workers: u32,
    clients: u32,
) -> Result<CallRecord, OpenFault>
    requires workers { (1 ≤ workers) × (workers ≤ 64) }
    requires clients { (1 ≤ clients) × (clients ≤ 256) }
    ensures callers { IfOk result (λ calls. (calls.workers ≡ workers) × (calls.clients ≡ clients)) }
    ensures clients { IfOk result (λ calls. (1 ≤ calls.clients) × (calls.clients ≤ 256)) }
    ensures places { IfOk result (λ calls. HasPlaces setup.now calls) }
{
    let Some(opened) = open_unnamed(alloc, setup, workers, clients) else {
        return Err(OpenFault::NoMemory);
    };
    let seeds = draw_seeds(alloc, rt, setup.tables.as_slice().len())?;
    Ok(CallRecord {
        opened,
        seeds,
        workers,
        clients,
    })
}

/// The last of some seats.
fn take_last<J: Naming>(seats: &mut Vec<SharedSeat<J>>) -> SharedSeat<J>
    requires { 1 ≤ vec_len seats.old }
    ensures { vec_len seats.new + 1 ≡ vec_len seats.old }
{
    seats.pop().unwrap()
}

/// A table and its seats. Strangers choose its keys: so its hashes are made with this seed.
fn open_table<T: Table, J: Naming>(
    alloc: Global,
    dealer: &mut Dealer<J>,
    named: &NamedSpec,
    seed: u64,
    shards: u32,
    workers: u32,
    clients: u32,
    keep: bool,
) -> Result<OpenTable<T, J>, NoMemory>
    requires spec { IsTableSpec named.now.spec }
    requires shards { (1 ≤ shards) × (shards ≤ 64) }
    requires places { shards ≤ named.now.spec.size }
    requires workers { (1 ≤ workers) × (workers ≤ 64) }
    requires clients { (1 ≤ clients) × (clients ≤ 256) }
    requires left { HasLeft dealer.old shards (workers + clients + 1) }
    requires parts { AreParts J.specs dealer.old.kept (seeded seed named.now) shards }
    ensures dealt { OnOk result (dealer.new ≡ record dealer.old { kept = dealer.old.kept + shards; seated = dealer.old.seated + (workers + clients + 1) }) }
    ensures table { IfOk result (λ opened. but_for_seed opened.table ≡ declared_table shards keep named.now) }
    ensures workers { IfOk result (λ opened. vec_len opened.workers ≡ workers) }
    ensures commands { IfOk result (λ opened. vec_len opened.commands ≡ clients) }
{
    let mut spec = named.spec.copy()?;
    spec.seed = seed;
    let callers = workers + clients + 1;
    let (table, mut seats) = Shards::new(alloc, dealer, spec, shards, callers, keep)?;
    let keeper = take_last(&mut seats);
    let commands = seats.split_off(workers as usize)?;
    Ok(OpenTable {
        table,
        workers: seats,
        commands,
        keeper,
    })
}

/// Opens the tables of a setup, in order of declaration, each in the setup's number of shards and by its seed. With `keep` their
/// seats keep receipts. One record has the calls of all, and says that they are made so. There are so many workers, 1 to 64, and so
/// many threads that answer clients, 1 to 256.
fn open_tables<T: Table, J: Naming>(
    alloc: Global,
    dealer: &mut Dealer<J>,
    setup: &Setup,
    seeds: &[u64],
    workers: u32,
    clients: u32,
    keep: bool,
) -> Result<OpenTables<T, J>, OpenFault>
    requires can_open { CanOpen setup.now }
    requires workers { (1 ≤ workers) × (workers ≤ 64) }
    requires clients { (1 ≤ clients) × (clients ≤ 256) }
    requires left { HasLeft dealer.old (setup.now.shards * length setup.now.tables) ((workers + clients + 1) * length setup.now.tables) }
    requires first { dealer.old.kept ≡ 0 }
    requires seeds { length seeds.now ≡ length setup.now.tables }
    requires specs { J.specs ≡ book_spec setup.now seeds.now }
    ensures tables { IfOk result (λ opened. AreDeclared setup.now.shards keep setup.now.tables opened.tables.items) }
    ensures served { IfOk result (λ opened. AreTablesOf setup.now opened.tables.items) }
    ensures workers { IfOk result (λ opened. AreSeats (length opened.tables.items) workers opened.workers) }
    ensures commands { IfOk result (λ opened. AreSeats (length opened.tables.items) clients opened.commands) }
    ensures keepers { IfOk result (λ opened. length opened.keepers.items ≡ length setup.now.tables) }
{
    let mut opened = OpenTables {
        tables: Vec::new(alloc),
        workers: Vec::new(alloc),
        commands: Vec::new(alloc),
        keepers: Vec::new(alloc),
    };
    let tables = setup.tables.as_slice();
    for table in 0..tables.len() {
        let one = open_table(
            alloc,
            dealer,
            &tables[table],
            seeds[table],
            setup.shards,
            workers,
            clients,
            keep,
        )?;
        opened.add(one)?;
    }
    Ok(opened)
}

/// Opens the tables of a setup as `open_tables` does, with a record that gets its name here.
pub(crate) fn open_recorded<T: Table, J: Naming>(
    alloc: Global,
    setup: &Setup,
    calls: CallRecord,
    keep: bool,
) -> Result<OpenTables<T, J>, OpenFault>
    requires can_open { CanOpen setup.now }
    requires workers { (1 ≤ calls.workers) × (calls.workers ≤ 64) }
    requires clients { (1 ≤ calls.clients) × (calls.clients ≤ 256) }
    requires name { (calls.opened.first.table_id ≡ J.record_id) × (calls.opened.books ≡ J.books) }
    requires specs { J.specs ≡ book_spec setup.now calls.seeds.items }
    requires places { HasPlaces setup.now calls }
    ensures tables { IfOk result (λ opened. AreDeclared setup.now.shards keep setup.now.tables opened.tables.items) }
    ensures served { IfOk result (λ opened. AreTablesOf setup.now opened.tables.items) }
    ensures workers { IfOk result (λ opened. AreSeats (length opened.tables.items) calls.workers opened.workers) }
    ensures commands { IfOk result (λ opened. AreSeats (length opened.tables.items) calls.clients opened.commands) }
    ensures keepers { IfOk result (λ opened. length opened.keepers.items ≡ length setup.now.tables) }
{
    let CallRecord {
        opened,
        seeds,
        workers,
        clients,
    } = calls;
    let Ok(mut dealer) = Dealer::new(alloc, opened) else {
        return Err(OpenFault::NoMemory);
    };
    let seeds = seeds.as_slice();
    open_tables(alloc, &mut dealer, setup, seeds, workers, clients, keep)
}
