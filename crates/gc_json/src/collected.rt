ghost use Rattle.std.specs.Prelude.{◌≡◌, IfOk};

use gc_base::{Ascending, Item, Memory};
use std::alloc::Global;
use std::collections::BTreeSet;

/// The most items of a list that go into a set one by one. A longer list goes through a tree, so
/// that each item takes logarithmic time whatever their order.
pub(crate) const FEW: usize = 32;

// The items of a tree as a set. Each goes to the end.
pub(crate) fn set_of<T: Item + Drop>(
    alloc: Global,
    items: BTreeSet<T>,
) -> Result<Ascending<T>, Memory>
    ensures { IfOk result (λ set. set ≡ items.keys) }
{
    let mut set = Ascending::empty(alloc);
    for item in items {
        set.insert(item)?;
    }
    Ok(set)
}
