ghost use Rattle.std.specs.Prelude.{◌≡◌, ◌++◌, ◌∷◌, [], OnOk, OnErr};

use crate::memory::Memory;
use std::alloc::Global;
use std::marker::Model;
use std::ops::DerefSlice;

/// A list. Contracts see it as the list of its items, wherever they lie in memory.
#[derive(Debug, Drop)]
pub struct Items<T> {
    items: Vec<T>,
}

impl<T> Model for Items<T> {
    ghost use Rattle.std.specs.Prelude.{List};
    ghost use Rattle.std.specs.Coded.{coded_list};

    ghost Value = { List T };

    ghost coded = { coded_list T.code };

    ghost view = { λ b. b.items.items };
}

impl<T> Items<T> {
    /// An empty list, which takes no memory yet.
    pub fn new(alloc: Global) -> Self
        ensures { result ≡ [] }
    {
        Items {
            items: Vec::new(alloc),
        }
    }

    /// The items of a vector.
    pub fn from_vec(items: Vec<T>) -> Self
        ensures { result ≡ items.items }
    {
        Items { items }
    }

    /// The items as a vector.
    pub fn into_vec(self) -> Vec<T>
        ensures { result.items ≡ self }
    {
        self.items
    }

    /// The items as a slice.
    pub fn as_slice(&self) -> &[T]
        ensures { result.now ≡ self.now }
    {
        &self.items
    }
}

/// A list is used as the slice of its items: `len`, `iter`, an index, a range.
impl<T> DerefSlice for Items<T> {
    type Elem = T;

    ghost deref_gives = { λ list slice. slice ≡ list };

    fn deref(&self) -> &[T]
        ensures { result.now ≡ self.now }
    {
        &self.items
    }
}

impl<T: Drop> Items<T> {
    /// Adds an item at the end. Where that is out of memory nothing is added.
    pub fn push(&mut self, item: T) -> Result<(), Memory>
        ensures ok { OnOk result (self.new ≡ self.old ++ item ∷ []) }
        ensures err { OnErr result (self.new ≡ self.old) }
    {
        Ok(self.items.push(item)?)
    }
}
