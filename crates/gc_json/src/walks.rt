ghost use Rattle.std.specs.Prelude.{◌≡◌, true, IfOk, option_map};
ghost use Rattle.gc_spec.specs.PropertyGraph.{is_walk};
ghost use Rattle.gc_json.specs.Reading.{Gives};
ghost use Rattle.gc_json.specs.WalkItems.{are_numbers, walk_items, id_on_walk, step_of, steps_among, walk_of, walk_in};
ghost use Rattle.serde_json.specs.View.{view, items_view};

use crate::element::Element;
use crate::fault::{Failure, Fault};
use gc_base::{Id, Step, StepList, Walk};
use gc_ppg::GraphBuilder;
use serde_json::Value;
use std::alloc::Global;

// The array of numbers at the key `walk`.
pub(crate) fn walk_items(element: &Element) -> Result<&[Value], Failure<Fault>>
    ensures { Gives (λ items. items_view items.now) (walk_items (option_map view element.now.walk)) result }
{
    let items = element
        .walk
        .as_ref()
        .and_then(Value::as_array)
        .ok_or(Fault::WrongShape)?;
    if !are_numbers(items) {
        return Err(Failure::Refused(Fault::WrongShape));
    }
    Ok(items)
}

// Whether each item is a whole number.
fn are_numbers(items: &[Value]) -> bool
    ensures { result ≡ are_numbers (items_view items.now) }
{
    for item in items {
        if item.as_u64().is_none() {
            return false;
        }
    }
    true
}

// The walk of an array, if it is one of the graph so far.
pub(crate) fn walk_in(
    alloc: Global,
    builder: &GraphBuilder,
    items: &[Value],
) -> Result<Walk, Failure<Fault>>
    ensures exact { Gives (λ walk. walk) (walk_in builder.now (items_view items.now)) result }
    ensures walk { IfOk result (λ walk. is_walk builder.now.nodes builder.now.edges walk ≡ true) }
{
    let walk = walk_of(alloc, items)?;
    if !builder.has_walk(&walk) {
        return Err(Failure::Refused(Fault::BadWalk));
    }
    Ok(walk)
}

// A node, and then steps.
fn walk_of(alloc: Global, items: &[Value]) -> Result<Walk, Failure<Fault>>
    ensures { Gives (λ walk. walk) (walk_of (items_view items.now)) result }
{
    match items.split_first() {
        None => Err(Failure::Refused(Fault::BadWalk)),
        Some((first, rest)) => {
            let start = id_on_walk(first)?;
            let steps = steps_of(alloc, rest)?;
            Ok(Walk { start, steps })
        }
    }
}

// The steps of edges and nodes in turn.
fn steps_of(alloc: Global, items: &[Value]) -> Result<StepList, Failure<Fault>>
    ensures { Gives (λ steps. steps) (steps_among (items_view items.now)) result }
{
    let mut steps = StepList::new(alloc);
    for i in 0..items.len() / 2 {
        let step = step_of(&items[2 * i], &items[2 * i + 1])?;
        steps.push(step)?;
    }
    if items.len() % 2 != 0 {
        return Err(Failure::Refused(Fault::BadWalk));
    }
    Ok(steps)
}

// An edge and a node.
fn step_of(edge: &Value, node: &Value) -> Result<Step, Failure<Fault>>
    ensures { Gives (λ step. step) (step_of (view edge.now) (view node.now)) result }
{
    let edge = id_on_walk(edge)?;
    let node = id_on_walk(node)?;
    Ok(Step { edge, node })
}

// An identity on a walk.
fn id_on_walk(value: &Value) -> Result<Id, Failure<Fault>>
    ensures { Gives (λ id. id) (id_on_walk (view value.now)) result }
{
    Ok(value.as_u64().and_then(Id::new).ok_or(Fault::BadWalk)?)
}
