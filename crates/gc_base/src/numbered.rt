ghost use Rattle.std.specs.Prelude.{◌≡◌, ◌++◌, ◌∷◌, [], ◌<◌, ◌^◌, length, take, slice_get, Some, IfOk, OnOk, OnErr};

use crate::duplicate::{Duplicate, copies};
use crate::memory::Memory;
use std::alloc::Global;
use std::marker::Model;

/// A list whose items are named by their numbers, which are `u32`: it has fewer than 2^32 items.
#[derive(Debug, Drop)]
pub struct Numbered<T> {
    items: Vec<T>,
}

impl<T> Model for Numbered<T> {
    ghost use Rattle.std.specs.Prelude.{List, length, ◌<◌, ◌^◌};

    ghost Value = { List T };

    ghost view = { λ s. s.items.items };

    ghost invariant = { λ s. length s.items.items < 2 ^ 32 };
}

impl<T> Numbered<T> {
    /// The empty list. It takes no memory yet.
    pub fn new(alloc: Global) -> Numbered<T>
        ensures { result ≡ [] }
    {
        Numbered {
            items: Vec::new(alloc),
        }
    }

    /// How many items there are.
    pub fn len(&self) -> u32
        ensures count { result ≡ length self.now }
        ensures bound { length self.now < 2 ^ 32 }
    {
        self.items.len() as u32
    }

    /// The item of a number below the length.
    pub fn at(&self, i: u32) -> &T
        requires { i < length self.now }
        ensures { slice_get self.now i ≡ Some result.now }
    {
        &self.items[i as usize]
    }

    /// All items, in order.
    pub fn as_slice(&self) -> &[T]
        ensures { result.now ≡ self.now }
    {
        &self.items
    }
}

impl<T: Drop> Numbered<T> {
    /// Adds an item at the end. One past the last number is refused as want of memory.
    pub fn push(&mut self, item: T) -> Result<(), Memory>
        ensures ok { OnOk result (self.new ≡ self.old ++ item ∷ []) }
        ensures err { OnErr result (self.new ≡ self.old) }
    {
        if self.items.len() >= u32::MAX as usize {
            return Err(Memory);
        }
        self.items.push(item)?;
        Ok(())
    }

    /// Keeps the first n items, or all where there are no more. It takes no memory.
    pub fn cut(&mut self, n: u32)
        ensures { self.new ≡ take n self.old }
    {
        self.items.truncate(n as usize);
    }
}

impl<T: Duplicate + Drop> Duplicate for Numbered<T> {
    fn copy(&self) -> Result<Numbered<T>, Memory> {
        let _length = self.len();
        let items = copies(*self.items.allocator(), &self.items)?;
        Ok(Numbered { items })
    }
}
