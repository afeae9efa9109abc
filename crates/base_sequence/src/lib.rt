//! A list that contracts see as the list of its items, and the error of a refused growth; crates from keys to programs use it.
#![tactic(auto)]

pub use std::alloc::AllocError as NoMemory;
use std::alloc::Global;
use std::marker::Model;

/// A list of values, seen by contracts as the list of its items.
#[derive(Debug, Drop)]
pub struct Sequence<T> {
    all: Vec<T>,
}

impl<T> Model for Sequence<T> {
    ghost use Rattle.std.specs.Prelude.{List};

    ghost Value = { List T };

    ghost view = { λ list. list.all.items };
}

impl<T> Sequence<T> {
    ghost use Rattle.std.specs.Prelude.{◌≡◌, [], ◌∷◌, ◌++◌, OnOk, OnErr, length};

    /// The empty list, which takes no memory.
    pub fn new(alloc: Global) -> Sequence<T>
        ensures { result ≡ [] }
    {
        Sequence {
            all: Vec::new(alloc),
        }
    }

    /// The items of a vector.
    pub fn from_vec(all: Vec<T>) -> Sequence<T>
        ensures { result ≡ all.items }
    {
        Sequence { all }
    }

    /// The items, in order.
    pub fn as_slice(&self) -> &[T]
        ensures { result.now ≡ self.now }
    {
        self.all.as_slice()
    }

    /// How many items there are.
    pub fn len(&self) -> usize
        ensures { result ≡ length self.now }
    {
        self.as_slice().len()
    }

    /// The items as a vector.
    pub fn into_vec(self) -> Vec<T>
        ensures { result.items ≡ self }
    {
        let Sequence { all } = self;
        all
    }
}

impl<T: Drop> Sequence<T> {
    ghost use Rattle.std.specs.Prelude.{◌≡◌, [], ◌∷◌, ◌++◌, OnOk, OnErr};

    /// Adds an item at the end. Where its growth is refused, the list stays and the item is dropped.
    pub fn push(&mut self, item: T) -> Result<(), NoMemory>
        ensures ok { OnOk result (self.new ≡ self.old ++ item ∷ []) }
        ensures err { OnErr result (self.new ≡ self.old) }
    {
        self.all.push(item)?;
        Ok(())
    }
}

impl<T: Copy> Sequence<T> {
    ghost use Rattle.std.specs.Prelude.{◌≡◌, IfOk};

    /// A copy of the items of a slice.
    pub fn from_slice(alloc: Global, items: &[T]) -> Result<Sequence<T>, NoMemory>
        ensures { IfOk result (λ list. list ≡ items.now) }
    {
        Ok(Sequence {
            all: Vec::from_slice(alloc, items)?,
        })
    }

    /// An equal list.
    pub fn copy(&self) -> Result<Sequence<T>, NoMemory>
        ensures { IfOk result (λ list. list ≡ self.now) }
    {
        Sequence::from_slice(*self.all.allocator(), self.as_slice())
    }
}
