ghost use Rattle.std.specs.Prelude.{◌≡◌, [], IfOk, OnOk, fold, slice_get};
ghost use Rattle.std.specs.Option.{option_copied, unwrap_or};
ghost use Rattle.gc_build_descriptions.specs.Described.{with_label, without_label, without_property};
ghost use Rattle.gc_build_descriptions.specs.Givens.{with_given};
ghost use Rattle.gc_build_recipe.specs.Places.{listed};

use crate::described::Description;
use crate::givens::Given;
use gc_base::{Duplicate, Memory, ValueSet};
use gc_build_recipe::{LabelOf, PropertyOf};
use std::alloc::Global;

/// Adds labels.
pub(crate) fn add_labels(
    description: &mut Description,
    labels: Option<&Vec<&LabelOf>>,
) -> Result<(), Memory>
    ensures { OnOk result (description.new ≡ fold with_label description.old (listed (option_copied labels.entry))) }
{
    let Some(labels) = labels else {
        return Ok(());
    };
    for label in labels {
        add_label(description, label)?;
    }
    Ok(())
}

// Adds a label.
fn add_label(description: &mut Description, label: &LabelOf) -> Result<(), Memory>
    ensures { OnOk result (description.new ≡ with_label description.old label.now) }
{
    description.labels.insert(label.label.copy()?)?;
    Ok(())
}

/// Gives properties to the element at a place among those of a variable.
pub(crate) fn give(
    alloc: Global,
    description: &mut Description,
    place: usize,
    givens: Option<&Vec<&Given<'_>>>,
) -> Result<(), Memory>
    ensures { OnOk result (description.new ≡ fold (with_given place) description.old (listed (option_copied givens.entry))) }
{
    let Some(givens) = givens else {
        return Ok(());
    };
    for given in givens {
        give_one(alloc, description, place, given)?;
    }
    Ok(())
}

// Gives a property, in place of what it was before.
fn give_one(
    alloc: Global,
    description: &mut Description,
    place: usize,
    given: &Given<'_>,
) -> Result<(), Memory>
    ensures { OnOk result (description.new ≡ with_given place description.old given.now) }
{
    let values = given_at(alloc, given, place)?;
    description.properties.put(given.property.copy()?, values)
}

// The values that the element at a place is given.
fn given_at(alloc: Global, given: &Given<'_>, place: usize) -> Result<ValueSet, Memory>
    ensures { IfOk result (λ values. values ≡ unwrap_or (slice_get given.now.values place) []) }
{
    match given.values.as_slice().get(place) {
        Some(values) => values.copy(),
        None => Ok(ValueSet::empty(alloc)),
    }
}

/// Takes away labels.
pub(crate) fn remove_labels(description: &mut Description, labels: Option<&Vec<&LabelOf>>)
    ensures { description.new ≡ fold without_label description.old (listed (option_copied labels.entry)) }
{
    let Some(labels) = labels else {
        return;
    };
    for label in labels {
        remove_label(description, label);
    }
}

// Takes away a label.
fn remove_label(description: &mut Description, label: &LabelOf)
    ensures { description.new ≡ without_label description.old label.now }
{
    description.labels.remove(&label.label);
}

/// Takes away properties.
pub(crate) fn remove_properties(
    alloc: Global,
    description: &mut Description,
    properties: Option<&Vec<&PropertyOf>>,
) -> Result<(), Memory>
    ensures { OnOk result (description.new ≡ fold without_property description.old (listed (option_copied properties.entry))) }
{
    let Some(properties) = properties else {
        return Ok(());
    };
    for property in properties {
        remove_property(alloc, description, property)?;
    }
    Ok(())
}

// Takes away a property.
fn remove_property(
    alloc: Global,
    description: &mut Description,
    lost: &PropertyOf,
) -> Result<(), Memory>
    ensures { OnOk result (description.new ≡ without_property description.old lost.now) }
{
    let none = ValueSet::empty(alloc);
    description.properties.put(lost.property.copy()?, none)
}
