ghost use Rattle.std.specs.Prelude.{◌≡◌, ◌==◌, ◌++◌, ◌∷◌, [], OnOk, slice_get};
ghost use Rattle.std.specs.List.{find};
ghost use Rattle.std.specs.Option.{option_copied};
ghost use Rattle.gc_build_recipe.specs.Places.{place_of};

use gc_base::{Memory, Sym};
use indexmap::IndexMap;
use std::alloc::Global;
use std::marker::Model;

/// What is of a variable.
pub trait OfVariable {
    ghost use Rattle.gc_base.specs.declared.place.Sym.{Sym as Variable};

    /// Its variable.
    ghost var_of: { Self → Variable };

    /// Its variable.
    fn var(&self) -> Sym
        ensures { result ≡ var_of self.now };
}

/// A list of what is of variables, in which the first item of a variable is found by the variable's number.
/// Contracts see the list.
#[derive(Debug, Drop)]
pub struct ByVariable<T: OfVariable> {
    items: Vec<T>,
    places: IndexMap<u32, usize>,
}

impl<T: OfVariable> Model for ByVariable<T> {
    ghost use Rattle.std.specs.Prelude.{List};
    ghost use Rattle.gc_build_recipe.specs.Places.{ArePlaces};

    ghost Value = { List T };

    ghost view = { λ b. b.items.items };

    ghost invariant = { λ b. ArePlaces T.var_of b.items.items b.places };
}

impl<T: OfVariable> ByVariable<T> {
    /// The empty list. It takes no memory yet.
    pub fn new(alloc: Global) -> ByVariable<T>
        ensures { result ≡ [] }
    {
        ByVariable {
            items: Vec::new(alloc),
            places: IndexMap::new(alloc),
        }
    }

    /// All items, in order.
    pub fn as_slice(&self) -> &[T]
        ensures { result.now ≡ self.now }
    {
        &self.items
    }

    /// The first item of a variable, if there is one.
    pub fn get(&self, var: Sym) -> Option<&T>
        ensures { option_copied result ≡ find (λ x. (T.var_of x).0 == var.0) self.now }
    {
        match self.place(var) {
            None => None,
            Some(place) => item_at(&self.items, place),
        }
    }

    /// Its place.
    pub fn place(&self, var: Sym) -> Option<usize>
        ensures { result ≡ place_of T.var_of self.now var.0 }
    {
        self.places.get(&var.0).copied()
    }
}

impl<T: OfVariable + Drop> ByVariable<T> {
    /// Adds an item at the end.
    pub fn push(&mut self, item: T) -> Result<(), Memory>
        ensures { OnOk result (self.new ≡ self.old ++ item ∷ []) }
    {
        let number = item.var().0;
        let place = self.items.len();
        let is_first = !self.places.contains_key(&number);
        self.places.reserve(1)?;
        self.items.push(item)?;
        if is_first {
            self.places.insert(number, place)?;
        }
        Ok(())
    }
}

// The item at a place, if there is one.
fn item_at<T>(items: &[T], place: usize) -> Option<&T>
    ensures { option_copied result ≡ slice_get items.now place }
{
    items.get(place)
}
