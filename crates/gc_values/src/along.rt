ghost use Rattle.std.specs.Prelude.{◌≡◌, map, pos, slice_get};
ghost use Rattle.std.specs.Option.{option_copied, option_and_then};
ghost use Rattle.gc_base.specs.Walks.{edges_of};
ghost use Rattle.gc_values.specs.Arithmetic.{exact};
ghost use Rattle.gc_values.specs.PathParts.{stored_walk, walk_of, length_of, nodes_along, place_at, place_of, element_or_none, part_at};
ghost use Rattle.gc_values.specs.References.{value_seen};

use crate::context::Context;
use crate::literals::Literals;
use crate::numbers::{Operand, number};
use crate::val::Why;
use crate::val_ref::ValRef;
use gc_base::{Id, Step, Steps, Sym, Walk};
use gc_ppg::Graph;
use gc_rows::Datum;
use std::sync::ledger::Ledger;

/// The walk of a variable: a found one, or that of a stored path that its graph has.
pub(crate) fn walk_of<'a, L: Ledger>(
    context: &'a Context<'_>,
    path: Sym,
    steps: &mut Steps<L>,
) -> Option<&'a Walk>
    ensures { option_copied result ≡ walk_of context.now path }
{
    match context.datum_of(path) {
        Some(Datum::Found(walk)) => Some(walk.get()),
        Some(Datum::Stored(id)) => stored_walk(context.own_graph(path), *id, steps),
        _ => None,
    }
}

// The walk of a stored path of a graph.
fn stored_walk<'a, L: Ledger>(
    graph: Option<&'a Graph>,
    id: Id,
    steps: &mut Steps<L>,
) -> Option<&'a Walk>
    ensures { option_copied result ≡ stored_walk (option_copied graph.entry) id }
{
    match graph?.find_path(id, steps) {
        Some(path) => Some(&path.walk),
        None => None,
    }
}

/// The number of edges of a walk; the empty set where there is none.
pub(crate) fn length_of<'a>(walk: Option<&Walk>) -> ValRef<'a>
    ensures { value_seen result ≡ length_of (option_copied walk.entry) }
{
    match walk {
        None => ValRef::Set(Literals::Empty),
        Some(walk) => number(whole(walk.steps.as_slice().len())),
    }
}

// A count as a number, where it fits.
fn whole(count: usize) -> Result<i64, Why>
    ensures { result ≡ exact (pos count) }
{
    match i64::try_from(count) {
        Ok(number) => Ok(number),
        Err(_) => Err(Why::Overflow),
    }
}

/// A node of a walk by its index; the empty set where there is no walk.
pub(crate) fn node_of<'a>(walk: Option<&Walk>, index: &ValRef<'_>) -> ValRef<'a>
    ensures { value_seen result ≡ part_at nodes_along (option_copied walk.entry) (value_seen index.now) }
{
    match walk {
        None => ValRef::Set(Literals::Empty),
        Some(walk) => match place_of(Operand::of(index)) {
            Err(why) => ValRef::Undefined(why),
            Ok(place) => element_or_none(node_at(walk, place)),
        },
    }
}

/// An edge of a walk by its index; the empty set where there is no walk.
pub(crate) fn edge_of<'a>(walk: Option<&Walk>, index: &ValRef<'_>) -> ValRef<'a>
    ensures { value_seen result ≡ part_at edges_of (option_copied walk.entry) (value_seen index.now) }
{
    match walk {
        None => ValRef::Set(Literals::Empty),
        Some(walk) => match place_of(Operand::of(index)) {
            Err(why) => ValRef::Undefined(why),
            Ok(place) => element_or_none(edge_at(walk, place)),
        },
    }
}

// The place that an index names.
fn place_of(index: Operand) -> Result<Option<usize>, Why>
    ensures { result ≡ place_of index }
{
    match index {
        Operand::Missing(why) => Err(why),
        Operand::Empty => Ok(None),
        Operand::Number(number) => Ok(place(number)),
        Operand::Other => Err(Why::WrongKind),
    }
}

// The place of a number that is not negative.
fn place(number: i64) -> Option<usize>
    ensures { result ≡ place_at number }
{
    if number < 0 {
        None
    } else {
        Some(number as usize)
    }
}

// The node at a place of a walk; its start has the place 0.
fn node_at(walk: &Walk, place: Option<usize>) -> Option<Id>
    ensures { result ≡ option_and_then (slice_get (nodes_along walk.now)) place }
{
    let place = place?;
    if place == 0 {
        Some(walk.start)
    } else {
        later_node(walk.steps.as_slice(), place - 1)
    }
}

// The node to which the step at a place leads.
fn later_node(steps: &[Step], place: usize) -> Option<Id>
    ensures { result ≡ slice_get (map (λ step. step.node) steps.now) place }
{
    match steps.get(place) {
        Some(step) => Some(step.node),
        None => None,
    }
}

// The edge at a place of a walk.
fn edge_at(walk: &Walk, place: Option<usize>) -> Option<Id>
    ensures { result ≡ option_and_then (slice_get (edges_of walk.now)) place }
{
    match walk.steps.as_slice().get(place?) {
        Some(step) => Some(step.edge),
        None => None,
    }
}

// An element, or the empty set.
fn element_or_none<'a>(id: Option<Id>) -> ValRef<'a>
    ensures { value_seen result ≡ element_or_none id }
{
    match id {
        Some(id) => ValRef::Element(id),
        None => ValRef::Set(Literals::Empty),
    }
}
