ghost use Rattle.std.specs.Prelude.{◌≡◌, ◌<◌, [], length, not, slice_get, Some, IfOk, OnOk, OnErr, Ok};
ghost use Rattle.std.specs.List.{AllByRecursion};
ghost use Rattle.std.specs.FinMap.{IsAntisymmetric};
ghost use Rattle.gc_base.specs.Ascending.{Ascends, has, with_item, without_item, is_subset};
ghost use Rattle.gc_base.specs.Places.{IsPlaceOrGap};

use crate::duplicate::{Duplicate, copies};
use crate::growth::insert_at;
use crate::memory::Memory;
use std::alloc::Global;
use std::marker::Model;

/// What a set may hold: its order is total, only equal items tie, and each value of the type is valid.
pub trait Item: Ord {
    /// Holds of each value of the type.
    ghost is_valid: { Self → Type 0 };

    /// That the value is valid, for a proof.
    fn known(&self)
        ensures { is_valid self.now };

    /// Only equal items tie.
    ghost exact: { IsAntisymmetric Self.cmp };
}

/// A set. Contracts see it as the list of its items, which strictly ascend.
#[derive(Debug, Drop)]
pub struct Ascending<T: Item> {
    items: Vec<T>,
}

impl<T: Item> Model for Ascending<T> {
    ghost use Rattle.std.specs.Prelude.{List};
    ghost use Rattle.std.specs.List.{AllByRecursion};
    ghost use Rattle.gc_base.specs.Ascending.{Ascends};

    ghost Value = { List T };

    ghost view = { λ s. s.items.items };

    ghost invariant = { λ s. Ascends T.cmp s.items.items × AllByRecursion T.is_valid s.items.items };
}

impl<T: Item> Ascending<T> {
    /// The empty set. It takes no memory yet.
    pub fn empty(alloc: Global) -> Ascending<T>
        ensures { result ≡ [] }
    {
        Ascending {
            items: Vec::new(alloc),
        }
    }

    /// How many items there are.
    pub fn len(&self) -> usize
        ensures { result ≡ length self.now }
    {
        self.items.len()
    }

    /// The item at a place below the length, by the order of the type.
    pub fn at(&self, i: usize) -> &T
        requires { i < length self.now }
        ensures { slice_get self.now i ≡ Some result.now }
    {
        &self.items[i]
    }

    /// All items; they strictly ascend, and each is valid.
    pub fn as_slice(&self) -> &[T]
        ensures items { result.now ≡ self.now }
        ensures ascends { Ascends T.cmp self.now }
        ensures valid { AllByRecursion T.is_valid self.now }
    {
        &self.items
    }

    /// Whether the set has an item.
    pub fn contains(&self, item: &T) -> bool
        ensures { result ≡ has T.cmp self.now item.now }
    {
        self.search(item).is_ok()
    }

    /// Whether each of its items is in another set.
    pub fn subset_of(&self, other: &Ascending<T>) -> bool
        ensures { result ≡ is_subset T.cmp self.now other.now }
    {
        self.items.iter().all(|item| other.contains(item))
    }

    // Where the item is, or where it would go.
    fn search(&self, item: &T) -> Result<usize, usize>
        ensures { IsPlaceOrGap (λ x. T.cmp x item.now) self.now result }
    {
        self.items.binary_search(item)
    }
}

impl<T: Item + Drop> Ascending<T> {
    /// Puts an item in, and answers whether it is new.
    pub fn insert(&mut self, item: T) -> Result<bool, Memory>
        ensures ok { OnOk result (self.new ≡ with_item T.cmp self.old item) }
        ensures new { IfOk result (λ is_new. is_new ≡ not (has T.cmp self.old item)) }
        ensures err { OnErr result (self.new ≡ self.old) }
    {
        match self.search(&item) {
            Ok(_) => Ok(false),
            Err(place) => {
                item.known();
                insert_at(&mut self.items, place, item)?;
                Ok(true)
            }
        }
    }

    /// Takes an item out, and answers whether it was there.
    pub fn remove(&mut self, item: &T) -> bool
        ensures rest { self.new ≡ without_item T.cmp self.old item.now }
        ensures was_there { result ≡ has T.cmp self.old item.now }
    {
        match self.search(item) {
            Ok(place) => {
                let _removed = self.items.remove(place);
                true
            }
            Err(_) => false,
        }
    }
}

impl<T: Item + Duplicate + Drop> Duplicate for Ascending<T> {
    fn copy(&self) -> Result<Ascending<T>, Memory> {
        let items = copies(*self.items.allocator(), self.as_slice())?;
        Ok(Ascending { items })
    }
}
