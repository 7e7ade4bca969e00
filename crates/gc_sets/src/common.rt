ghost use Rattle.std.specs.Prelude.{◌≡◌, ◌∷◌, [], fold, IfOk, OnOk};
ghost use Rattle.std.specs.List.{filter};
ghost use Rattle.gc_base.specs.Ascending.{has, with_item};
ghost use Rattle.gc_sets.specs.Intersections.{common_properties, shared};

use gc_base::{Ascending, Duplicate, Item, Memory, Properties, Property, ValueSet};
use std::alloc::Global;

// The items of a set that another has too.
pub(crate) fn common_items<T: Item + Duplicate + Drop>(
    alloc: Global,
    set: &Ascending<T>,
    others: &Ascending<T>,
) -> Result<Ascending<T>, Memory>
    ensures { IfOk result (λ kept. kept ≡ filter (has T.cmp others.now) set.now) }
{
    let mut kept = Ascending::empty(alloc);
    for item in set.as_slice() {
        insert_common(&mut kept, item, others)?;
    }
    Ok(kept)
}

// Adds a copy of an item that another set has.
fn insert_common<T: Item + Duplicate + Drop>(
    kept: &mut Ascending<T>,
    item: &T,
    others: &Ascending<T>,
) -> Result<(), Memory>
    ensures { OnOk result (kept.new ≡ fold (with_item T.cmp) kept.old (filter (has T.cmp others.now) (item.now ∷ []))) }
{
    if others.contains(item) {
        kept.insert(item.copy()?)?;
    }
    Ok(())
}

// The properties that have common values with others, with these.
pub(crate) fn common_properties(
    alloc: Global,
    properties: &Properties,
    others: &Properties,
) -> Result<Properties, Memory>
    ensures { IfOk result (λ kept. kept ≡ common_properties properties.now others.now) }
{
    let mut kept = Properties::empty(alloc);
    for property in properties.as_slice() {
        let Property { name, values } = shared(alloc, property, others)?;
        kept.put(name, values)?;
    }
    Ok(kept)
}

// A property, with those of its values that its name has among others too.
fn shared(alloc: Global, property: &Property, others: &Properties) -> Result<Property, Memory>
    ensures { IfOk result (λ both. both ≡ shared others.now property.now) }
{
    Ok(Property {
        name: property.name.copy()?,
        values: shared_values(alloc, property, others)?,
    })
}

// The values of a property that its name has among others too.
fn shared_values(
    alloc: Global,
    property: &Property,
    others: &Properties,
) -> Result<ValueSet, Memory>
    ensures { IfOk result (λ values. values ≡ (shared others.now property.now).values) }
{
    match others.get(&property.name) {
        Some(values) => common_items(alloc, &property.values, values),
        None => Ok(ValueSet::empty(alloc)),
    }
}
