ghost use Rattle.std.specs.Prelude.{◌≡◌, [], fold, IfOk, Option};
ghost use Rattle.std.specs.Option.{option_copied, unwrap_or};
ghost use Rattle.gc_base.specs.Ascending.{with_item};
ghost use Rattle.gc_base.specs.PropertyLists.{values_of};
ghost use Rattle.gc_sets.specs.Descriptions.{united_labels, united_values, united_properties};

use gc_base::{Ascending, Duplicate, Item, LabelSet, Memory, Properties, Property, ValueSet};

// Labels, and those of another set. They are used up, so none are left half united where memory is
// wanting.
pub(crate) fn unite_labels(labels: LabelSet, more: &LabelSet) -> Result<LabelSet, Memory>
    ensures { IfOk result (λ united. united ≡ united_labels labels more.now) }
{
    unite(labels, more)
}

// Properties, and the values of others. They are used up, so none are left half united where memory
// is wanting.
pub(crate) fn unite_properties(
    mut properties: Properties,
    more: &Properties,
) -> Result<Properties, Memory>
    ensures { IfOk result (λ united. united ≡ united_properties properties more.now) }
{
    for property in more.as_slice() {
        let values = values_with(&properties, property)?;
        properties.put(property.name.copy()?, values)?;
    }
    Ok(properties)
}

// The labels of both.
pub(crate) fn united_labels(labels: &LabelSet, more: &LabelSet) -> Result<LabelSet, Memory>
    ensures { IfOk result (λ united. united ≡ united_labels labels.now more.now) }
{
    unite_labels(labels.copy()?, more)
}

// The properties of both.
pub(crate) fn united_properties(
    properties: &Properties,
    more: &Properties,
) -> Result<Properties, Memory>
    ensures { IfOk result (λ united. united ≡ united_properties properties.now more.now) }
{
    unite_properties(properties.copy()?, more)
}

// The values that a name has in some properties, and those of one more.
fn values_with(properties: &Properties, more: &Property) -> Result<ValueSet, Memory>
    ensures { IfOk result (λ values. values ≡ united_values (unwrap_or (values_of properties.now more.now.name) []) more.now.values) }
{
    match properties.get(&more.name) {
        Some(values) => unite(values.copy()?, &more.values),
        None => {
            let _values = more.values.as_slice();
            more.values.copy()
        }
    }
}

// The items of a set, which is used up, and those of another.
fn unite<T: Item + Duplicate + Drop>(
    mut set: Ascending<T>,
    more: &Ascending<T>,
) -> Result<Ascending<T>, Memory>
    ensures { IfOk result (λ united. united ≡ fold (with_item T.cmp) set more.now) }
{
    for item in more.as_slice() {
        set.insert(item.copy()?)?;
    }
    Ok(set)
}
