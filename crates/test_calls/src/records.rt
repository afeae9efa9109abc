//! The record of the calls of some tables, and the tables.

ghost use Rattle.std.specs.Prelude.{◌≡◌, ◌≤◌, ◌+◌, ℕ, IfOk, true};
ghost use Rattle.stick_model.specs.Limits.{IsTableSpec};
ghost use Rattle.shard_record.specs.Dealing.{HasLeft};
ghost use Rattle.shard_book.specs.Keeping.{part_of};
ghost use Rattle.shard_locks.specs.Shared.{AreParts};
ghost use Rattle.test_calls.specs.Planned.{IsNamed, specs_in};

use crate::draws::spec;
use base_sequence::NoMemory;
use shard_locks::{Shards, SharedSeat};
use shard_record::{Dealer, Naming, Opened};
use std::alloc::{AllocError, Global};
use stick_key::size_of_shard;
use stick_table::{Spec, Table};
use stored_data::Column;

/// A table that is to be opened: what `spec` makes it of, its shards, and its seats, which keep receipts or don't.
#[derive(Clone, Copy)]
pub struct TablePlan {
    pub size: u32,
    pub max_refs: u32,
    pub life: u64,
    pub shards: u32,
    pub seats: u32,
    pub keep: bool,
}

impl TablePlan {
    /// What the whole table is made of.
    fn whole(self, alloc: Global) -> Result<Spec, NoMemory>
        ensures limits { IfOk result IsTableSpec }
        ensures size { IfOk result (λ spec. spec.size ≡ self.size) }
    {
        if self.size == 0 || self.size > 1 << 30 {
            return Err(NoMemory);
        }
        if self.max_refs == 0 || self.max_refs > 1 << 20 || self.life > 1 << 62 {
            return Err(NoMemory);
        }
        spec(alloc, self.size, self.max_refs, self.life)
    }
}

/// The record of the calls of some tables, which has no name yet; and what its books are to be made with.
#[derive(Drop)]
pub struct Planned {
    pub opened: Opened,
    pub specs: Vec<Spec>,
}

impl Planned {
    /// Its next books are the shards of such a table.
    fn add(&mut self, alloc: Global, plan: TablePlan) -> Result<(), NoMemory> {
        let whole = plan.whole(alloc)?;
        for shard in 0..plan.shards {
            let mut part = whole.copy()?;
            part.size = size_of_shard(whole.size, plan.shards, shard);
            self.specs.push(part)?;
        }
        Ok(())
    }
}

/// The record of the calls of these tables, which are to be opened in this order; it has no name yet.
pub fn open_record(alloc: Global, plans: &[TablePlan]) -> Result<Planned, NoMemory> {
    let (mut books, mut seats) = (0u32, 0u32);
    for plan in plans {
        books = books.saturating_add(plan.shards);
        seats = seats.saturating_add(plan.seats);
    }
    let mut planned = Planned {
        opened: Opened::new(alloc, books, seats)?,
        specs: Vec::new(alloc),
    };
    for plan in plans {
        planned.add(alloc, *plan)?;
    }
    Ok(planned)
}

/// Whether two tables store the same.
fn is_stored_alike(columns: &[Column], others: &[Column]) -> bool
    ensures { result ≡ true → columns.now ≡ others.now }
{
    columns == others
}

/// Whether two tables keep the same kind of entries as long.
fn is_of_kind(part: &Spec, whole: &Spec) -> bool
    ensures { result ≡ true → (part.now.kind ≡ whole.now.kind) × (part.now.expire ≡ whole.now.expire) × (part.now.columns ≡ whole.now.columns) }
{
    part.kind == whole.kind
        && part.expire == whole.expire
        && is_stored_alike(part.columns.columns(), whole.columns.columns())
}

/// Whether two tables make room alike, and give as many references.
fn is_full_alike(part: &Spec, whole: &Spec) -> bool
    ensures { result ≡ true → (part.now.nopurge ≡ whole.now.nopurge) × (part.now.purge ≡ whole.now.purge) × (part.now.max_refs ≡ whole.now.max_refs) }
{
    part.nopurge == whole.nopurge && part.purge == whole.purge && part.max_refs == whole.max_refs
}

/// Whether a specification is another one with this size.
fn is_part(part: &Spec, whole: &Spec, size: u32) -> bool
    ensures { result ≡ true → part.now ≡ record whole.now { size = size } }
{
    part.size == size
        && is_of_kind(part, whole)
        && is_full_alike(part, whole)
        && part.life == whole.life
        && part.seed == whole.seed
}

/// Whether this was planned for the book of a shard, that of the first shard being the book of this number.
fn is_planned(specs: &[Spec], first: u32, whole: &Spec, shards: u32, shard: u32) -> bool
    requires { 1 ≤ shards }
    ensures { result ≡ true → specs_in specs.now (first + shard) ≡ part_of whole.now shards shard }
{
    let Some(book) = first.checked_add(shard) else {
        return false;
    };
    match specs.get(book as usize) {
        Some(part) => is_part(part, whole, size_of_shard(whole.size, shards, shard)),
        None => false,
    }
}

/// Whether a table's shards are what was planned for the books from this number on.
fn are_planned(specs: &[Spec], first: u32, whole: &Spec, shards: u32) -> bool
    requires { 1 ≤ shards }
    ensures { result ≡ true → AreParts (specs_in specs.now) first whole.now shards }
{
    for shard in 0..shards {
        if !is_planned(specs, first, whole, shards, shard) {
            return false;
        }
    }
    true
}

/// A table in shards, and its seats.
pub type OpenTable<T, J> = (Shards<T, J>, Vec<SharedSeat<J>>);

/// The record of the calls of some tables, with books and seats for more.
#[derive(Drop)]
pub struct Records<J: Naming> {
    dealer: Dealer<J>,
    specs: Vec<Spec>,
    books: u32,
    seats: u32,
    ghost left: { HasLeft dealer books seats },
    ghost specs_are: { J.specs ≡ specs_in specs.items },
}

impl<J: Naming> Records<J> {
    /// A record without calls.
    pub fn new(alloc: Global, planned: Planned) -> Result<Records<J>, AllocError>
        requires { IsNamed planned J.record_id J.books J.specs }
    {
        let Planned { opened, specs } = planned;
        let books = opened.books;
        let seats = opened.seats;
        let dealer = Dealer::<J>::new(alloc, opened)?;
        Ok(Records {
            dealer,
            specs,
            books,
            seats,
        })
    }

    /// The empty shards of the next table, and its seats; and what is left of the record. Refused where another was planned.
    pub fn open<T: Table>(
        self,
        alloc: Global,
        plan: TablePlan,
    ) -> Result<(Records<J>, OpenTable<T, J>), NoMemory> {
        let Records {
            mut dealer,
            specs,
            books: had,
            seats: free,
        } = self;
        let TablePlan { shards, seats, .. } = plan;
        if shards == 0 || shards > 64 || plan.size < shards || had < shards {
            return Err(NoMemory);
        }
        if seats == 0 || seats > 1024 || free < seats {
            return Err(NoMemory);
        }
        let spec = plan.whole(alloc)?;
        if !are_planned(specs.as_slice(), dealer.kept(), &spec, shards) {
            return Err(NoMemory);
        }
        let opened = Shards::new(alloc, &mut dealer, spec, shards, seats, plan.keep)?;
        let left = Records {
            dealer,
            specs,
            books: had - shards,
            seats: free - seats,
        };
        Ok((left, opened))
    }
}

/// The only table of a record, and its seats.
pub fn open_alone<T: Table, J: Naming>(
    alloc: Global,
    plan: TablePlan,
    planned: Planned,
) -> Result<OpenTable<T, J>, NoMemory>
    requires { IsNamed planned J.record_id J.books J.specs }
{
    let records = Records::<J>::new(alloc, planned)?;
    let (_left, opened) = records.open(alloc, plan)?;
    Ok(opened)
}
