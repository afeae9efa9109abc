//! Each value that is given to a pool is dropped once, by who gets it back or at the end of the pool: no contract says so.

ghost use Rattle.std.specs.Prelude.{◌≤◌, ◌<◌};

use entry_pool::{Handle, Pool};
use std::alloc::{AllocError, Global};
use std::cell::Cell;
use std::rc::Rc;
use std::test::Fail;

/// A value that counts its drops.
struct Counted {
    drops: Rc<Cell<u32>>,
}

impl Drop for Counted {
    fn drop(self) {
        let Counted { drops } = self;
        drops.set(drops.get().saturating_add(1));
    }
}

type Counter = Rc<Cell<u32>>;

/// A counter that stands at 0.
fn new_counter(alloc: Global) -> Result<Counter, AllocError> {
    Ok(Rc::new(alloc, Cell::new(0u32))?)
}

/// Four counters.
fn counters(alloc: Global) -> Result<[Counter; 4], AllocError> {
    let (first, second) = (new_counter(alloc)?, new_counter(alloc)?);
    let (third, fourth) = (new_counter(alloc)?, new_counter(alloc)?);
    Ok([first, second, third, fourth])
}

/// Gives a pool a value with this counter, which comes back and is dropped where the pool is full. The handle, if it has one.
fn insert(pool: &mut Pool<Counted>, counter: &Counter, generation: u64) -> Option<Handle>
    requires { pool.old.newest < generation }
    ensures { pool.new.newest ≤ generation }
{
    match counter.clone() {
        Ok(drops) => pool.insert(Counted { drops }, generation).ok(),
        Err(_) => None,
    }
}

/// Takes the value of a handle out, and drops it.
fn remove(pool: &mut Pool<Counted>, handle: Option<Handle>)
    ensures { pool.new.newest ≤ pool.old.newest }
{
    if let Some(handle) = handle {
        drop(pool.remove(handle));
    }
}

/// How often each value was dropped.
fn dropped(counters: &[Counter; 4]) -> [u32; 4] {
    [
        counters[0].get(),
        counters[1].get(),
        counters[2].get(),
        counters[3].get(),
    ]
}

/// How often each of four values was dropped that a pool of two slots is given: once a third found no place, once the first was
/// taken out, once a fourth has its place, and once the pool is gone.
fn drops_of(alloc: Global, counters: &[Counter; 4]) -> Result<[[u32; 4]; 4], AllocError> {
    let mut pool = Pool::new(alloc, 2)?;
    let first = insert(&mut pool, &counters[0], 1);
    insert(&mut pool, &counters[1], 2);
    insert(&mut pool, &counters[2], 3);
    let full = dropped(counters);
    remove(&mut pool, first);
    let taken = dropped(counters);
    insert(&mut pool, &counters[3], 4);
    let reused = dropped(counters);
    drop(pool);
    Ok([full, taken, reused, dropped(counters)])
}

#[test]
fn each_value_is_dropped_once(rt: HostRuntime) -> Result<(), Fail> {
    let alloc = rt.alloc();
    let counters = counters(alloc)?;
    let wanted = [[0, 0, 1, 0], [1, 0, 1, 0], [1, 0, 1, 0], [1, 1, 1, 1]];
    assert!(rt; drops_of(alloc, &counters)? == wanted);
    Ok(())
}
