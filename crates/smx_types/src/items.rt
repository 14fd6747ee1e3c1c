//! The type of all lists in this crate: a `Vec` that contracts see as a list. Out of memory.

ghost use Rattle.std.specs.Prelude.{◌≡◌, ◌++◌, ◌∷◌, [], List, Some, IfOk, OnOk, OnErr};
ghost use Rattle.std.specs.Cmp.Lexicographic.{pointwise};
ghost use Rattle.std.specs.Cmp.Rules.{comparing};
ghost use Rattle.std.proofs.Common.{rules};
ghost use Rattle.smx_types.specs.FaultWords.{no_memory_words};

use std::alloc::{AllocError, AllocFailed, Global};
use std::fmt;
use std::marker::Model;

/// An allocation failed. The contract of the call that returns `NoMemory` says what has then changed.
#[derive(Clone, Copy, Debug, PartialEq, Eq)]
pub struct NoMemory;

impl From<AllocError> for NoMemory {
    fn from(_e: AllocError) -> NoMemory {
        NoMemory
    }
}

impl<T: Drop> From<AllocFailed<T>> for NoMemory {
    fn from(_e: AllocFailed<T>) -> NoMemory {
        NoMemory
    }
}

impl fmt::Display for NoMemory {
    ghost output = { λ _. Some no_memory_words };

    fn fmt<W: fmt::Write>(&self, f: &mut fmt::Formatter<W>) -> fmt::Result {
        f.write_str("no memory")
    }
}

impl std::error::Error for NoMemory {}

/// Values that can be copied, unless memory runs out.
pub trait Copied: Drop {
    /// Copies the value. Fails only if out of memory.
    fn copied(&self, alloc: Global) -> Result<Self, NoMemory>
    where
        Self: Sized,
        ensures { IfOk result (λ c. c ≡ self.now) };

    /// Copies the values into a vector whose capacity is the number of values. Fails only if out of memory.
    fn copies(alloc: Global, items: &[Self]) -> Result<Vec<Self>, NoMemory>
    where
        Self: Sized,
        ensures { IfOk result (λ v. v.items ≡ items.now) }
    {
        let mut made = Vec::with_capacity(alloc, items.len())?;
        for item in items {
            made.push_reserved(item.copied(alloc)?);
        }
        Ok(made)
    }
}

impl<T: Copy> Copied for T {
    fn copied(&self, _alloc: Global) -> Result<T, NoMemory> {
        Ok(*self)
    }

    fn copies(alloc: Global, items: &[T]) -> Result<Vec<T>, NoMemory> {
        Ok(Vec::from_slice(alloc, items)?)
    }
}

/// A list of values. Contracts see it as a list.
#[derive(Debug, Drop)]
pub struct Items<T> {
    items: Vec<T>,
}

impl<T> Model for Items<T> {
    ghost Value = { List T };

    ghost view = { λ list. list.items.items };
}

impl<T> Items<T> {
    /// Makes an empty list. Does not allocate.
    pub fn new(alloc: Global) -> Items<T>
        ensures { result ≡ [] }
    {
        Items {
            items: Vec::new(alloc),
        }
    }

    /// Makes a list of these values, in their order. Does not allocate.
    pub fn from_vec(items: Vec<T>) -> Items<T>
        ensures { result ≡ items.items }
    {
        Items { items }
    }

    /// Returns the vector that holds the values. Does not allocate.
    pub fn into_vec(self) -> Vec<T>
        ensures { result.items ≡ self }
    {
        self.items
    }

    /// Frees the unused capacity of the list. The values don't change.
    pub fn shrink(&mut self)
        ensures { self.new ≡ self.old }
    {
        self.items.shrink_to_fit();
    }

    /// Returns all values, in order. Does not allocate.
    pub fn as_slice(&self) -> &[T]
        ensures { result.now ≡ self.now }
    {
        self.items.as_slice()
    }
}

impl<T: Drop> Items<T> {
    /// Appends a value. Fails only if out of memory, and then drops the value.
    pub fn push(&mut self, item: T) -> Result<(), NoMemory>
        ensures ok { OnOk result (self.new ≡ self.old ++ item ∷ []) }
        ensures err { OnErr result (self.new ≡ self.old) }
    {
        self.items.push(item)?;
        Ok(())
    }
}

impl<T: Copied> Items<T> {
    /// Copies the list. Fails only if out of memory.
    pub fn copy(&self, alloc: Global) -> Result<Items<T>, NoMemory>
        ensures { IfOk result (λ c. c ≡ self.now) }
    {
        let items = T::copies(alloc, self.items.as_slice())?;
        Ok(Items { items })
    }
}

impl<T: Copied> Copied for Items<T> {
    fn copied(&self, alloc: Global) -> Result<Items<T>, NoMemory> {
        self.copy(alloc)
    }
}

impl Clone for Items<u8> {
    ghost is_clone = { λ list copy. copy ≡ list };

    fn clone(&self) -> Result<Items<u8>, AllocError> {
        let items = Vec::from_slice(*self.items.allocator(), &self.items)?;
        Ok(Items { items })
    }
}

impl<T: PartialEq> PartialEq for Items<T> {
    ghost eq = { λ a b. pointwise T.eq a b };

    ghost laws = { Prim.search (comparing, rules) };

    fn eq(&self, other: &Items<T>) -> bool {
        self.items == other.items
    }
}
