ghost use Rattle.std.specs.Prelude.{◌≡◌, ◌==◌, ◌++◌, ◌∷◌, [], ℕ, IfOk, OnOk};
ghost use Rattle.std.specs.List.{filter};
ghost use Rattle.std.specs.Option.{option_copied};
ghost use Rattle.gc_build_recipe.specs.Places.{gathered, listed};

use crate::by_variable::OfVariable;
use gc_base::{Memory, Sym};
use indexmap::IndexMap;
use std::alloc::Global;
use std::marker::Model;

/// The items of a list by their variables. Contracts see the list.
#[derive(Drop)]
pub struct Grouped<'a, T: OfVariable> {
    items: &'a [T],
    lists: IndexMap<u32, Vec<&'a T>>,
}

impl<'a, T: OfVariable> Model for Grouped<'a, T> {
    ghost use Rattle.std.specs.Prelude.{List};
    ghost use Rattle.gc_build_recipe.specs.Places.{AreGathered};

    ghost Value = { List T };

    ghost view = { λ g. g.items.now };

    ghost invariant = { λ g. AreGathered T.var_of g.items.now g.lists };
}

impl<'a, T: OfVariable> Grouped<'a, T> {
    /// These items by their variables. It looks at each once.
    pub fn of(alloc: Global, items: &'a [T]) -> Result<Grouped<'a, T>, Memory>
        ensures { IfOk result (λ g. g ≡ items.now) }
    {
        let mut lists = IndexMap::new(alloc);
        for item in items {
            add(alloc, &mut lists, item)?;
        }
        Ok(Grouped { items, lists })
    }

    /// The items of a variable, in their order, if it has any.
    pub fn of_variable(&self, var: Sym) -> Option<&Vec<&'a T>>
        ensures { listed (option_copied result) ≡ filter (λ x. (T.var_of x).0 == var.0) self.now }
    {
        self.lists.get(&var.0)
    }
}

// Adds an item to those of its variable.
fn add<'a, T: OfVariable>(
    alloc: Global,
    lists: &mut IndexMap<u32, Vec<&'a T>>,
    item: &'a T,
) -> Result<(), Memory>
    ensures { OnOk result ((number : ℕ) → gathered lists.new number
        ≡ gathered lists.old number ++ filter (λ x. (T.var_of x).0 == number) (item.now ∷ [])) }
{
    let number = item.var().0;
    match lists.get_mut(&number) {
        Some(list) => list.push(item)?,
        None => {
            let mut list = Vec::with_capacity(alloc, 1)?;
            list.push(item)?;
            lists.insert(number, list)?;
        }
    }
    Ok(())
}
