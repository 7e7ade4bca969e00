ghost use Rattle.std.specs.Prelude.{◌∷◌, []};
ghost use Rattle.gc_json.specs.Gathering.{data_of};
ghost use Rattle.gc_json.specs.LiteralValues.{literal_of, values_among, values_of};
ghost use Rattle.gc_json.specs.Reading.{Gives, or_refused};
ghost use Rattle.gc_json.specs.declared.fault.Fault.TheVariants as fault;
ghost use Rattle.serde_json.specs.View.{view, items_view};

use crate::collected::{FEW, set_of};
use crate::fault::{Failure, Fault};
use gc_base::{Literal, Str, ValueSet};
use serde_json::Value;
use std::alloc::Global;
use std::collections::BTreeSet;

// The values of a property: those of an array, or one literal.
pub(crate) fn values_of(alloc: Global, value: &Value) -> Result<ValueSet, Failure<Fault>>
    ensures { Gives (λ values. values) (values_of (view value.now)) result }
{
    match value.as_array() {
        Some(items) => values_in(alloc, items),
        None => one_value(alloc, value),
    }
}

// A literal alone.
fn one_value(alloc: Global, value: &Value) -> Result<ValueSet, Failure<Fault>>
    ensures { Gives (λ values. values) (values_among (view value.now ∷ [])) result }
{
    let mut values = ValueSet::empty(alloc);
    values.insert(literal_of(alloc, value)?)?;
    Ok(values)
}

// The literals of an array.
fn values_in(alloc: Global, items: &[Value]) -> Result<ValueSet, Failure<Fault>>
    ensures { Gives (λ values. values) (values_among (data_of (items_view items.now))) result }
{
    if items.len() > FEW {
        many_values(alloc, items)
    } else {
        few_values(alloc, items)
    }
}

// The literals of a long array, which go through a tree.
fn many_values(alloc: Global, items: &[Value]) -> Result<ValueSet, Failure<Fault>>
    ensures { Gives (λ values. values) (values_among (data_of (items_view items.now))) result }
{
    let mut tree = BTreeSet::new(alloc);
    for item in items {
        let literal = literal_of(alloc, item)?;
        tree.insert(literal)?;
    }
    Ok(set_of(alloc, tree)?)
}

// The literals of a short array.
fn few_values(alloc: Global, items: &[Value]) -> Result<ValueSet, Failure<Fault>>
    ensures { Gives (λ values. values) (values_among (data_of (items_view items.now))) result }
{
    let mut values = ValueSet::empty(alloc);
    for item in items {
        let literal = literal_of(alloc, item)?;
        values.insert(literal)?;
    }
    Ok(values)
}

// The literal that a value is.
fn literal_of(alloc: Global, value: &Value) -> Result<Literal, Failure<Fault>>
    ensures { Gives (λ literal. literal) (or_refused fault.NotLiteral (literal_of (view value.now))) result }
{
    match value {
        Value::Bool(truth) => Ok(Literal::Truth(*truth)),
        Value::Number(number) => match number.as_i64() {
            Some(number) => Ok(Literal::Number(number)),
            None => Err(Failure::Refused(Fault::NotLiteral)),
        },
        Value::String(text) => Ok(Literal::Text(Str::of(alloc, text.as_str())?)),
        Value::Null => Err(Failure::Refused(Fault::NotLiteral)),
        Value::Array(_) => Err(Failure::Refused(Fault::NotLiteral)),
        Value::Object(_) => Err(Failure::Refused(Fault::NotLiteral)),
    }
}
