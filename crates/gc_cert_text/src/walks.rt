//! The walks of a certificate, with their costs and runs.
ghost use Rattle.std.specs.Prelude.{◌≡◌, IfOk, option_map};
ghost use Rattle.serde_json.specs.View.{view, items_view};
ghost use Rattle.gc_json.specs.WalkItems.{step_of, steps_among, walk_of};
ghost use Rattle.gc_cert_text.specs.Numbers.{from_node, move_in, potential_in, walk_at, walk_doc_in};
ghost use Rattle.gc_cert_text.specs.Options.{found};

use crate::lists::{Told, list_at};
use crate::numbers::{cost_in, id_in, move_in, potential_in};
use crate::shapes::array_at;
use gc_base::{Id, Memory, Step, StepList, Walk};
use gc_cert::{Potential, WalkDoc};
use gc_prod::{Run, RunMove};
use serde_json::Value;
use std::alloc::Global;

impl Told for Potential {
    ghost told = { potential_in };

    fn of(_alloc: Global, value: &Value) -> Result<Option<Potential>, Memory> {
        Ok(potential_in(value))
    }
}

impl Told for RunMove {
    ghost told = { move_in };

    fn of(_alloc: Global, value: &Value) -> Result<Option<RunMove>, Memory> {
        Ok(move_in(value))
    }
}

impl Told for WalkDoc {
    ghost told = { walk_doc_in };

    fn of(alloc: Global, value: &Value) -> Result<Option<WalkDoc>, Memory> {
        walk_doc_in(alloc, value)
    }
}

// A walk with its cost and its run.
fn walk_doc_in(alloc: Global, value: &Value) -> Result<Option<WalkDoc>, Memory>
    ensures { IfOk result (λ found. found ≡ walk_doc_in (view value.now)) }
{
    let Some(cost) = value.get("cost").and_then(cost_in) else {
        return Ok(None);
    };
    let Some(run) = list_at(alloc, value, "run")? else {
        return Ok(None);
    };
    let Some(walk) = walk_at(alloc, value, "walk")? else {
        return Ok(None);
    };
    Ok(Some(WalkDoc {
        cost,
        run: Run::from_vec(run),
        walk,
    }))
}

// The walk at a key: its nodes and edges in turn.
pub(crate) fn walk_at(alloc: Global, value: &Value, key: &str) -> Result<Option<Walk>, Memory>
    ensures { IfOk result (λ walk. walk ≡ walk_at key.now (view value.now)) }
{
    match array_at(value, key) {
        None => Ok(None),
        Some(items) => walk_of(alloc, items),
    }
}

// A node, and then steps.
fn walk_of(alloc: Global, items: &[Value]) -> Result<Option<Walk>, Memory>
    ensures { IfOk result (λ walk. walk ≡ found (walk_of (items_view items.now))) }
{
    match items.split_first() {
        None => Ok(None),
        Some((first, rest)) => match id_in(first) {
            None => Ok(None),
            Some(start) => walk_from(alloc, start, rest),
        },
    }
}

// The walk from a node by steps.
fn walk_from(alloc: Global, start: Id, items: &[Value]) -> Result<Option<Walk>, Memory>
    ensures { IfOk result (λ walk. walk ≡ option_map (from_node start) (found (steps_among (items_view items.now)))) }
{
    match steps_of(alloc, items)? {
        None => Ok(None),
        Some(steps) => Ok(Some(Walk { start, steps })),
    }
}

// The steps of edges and nodes in turn.
fn steps_of(alloc: Global, items: &[Value]) -> Result<Option<StepList>, Memory>
    ensures { IfOk result (λ steps. steps ≡ found (steps_among (items_view items.now))) }
{
    let mut steps = StepList::new(alloc);
    for i in 0..items.len() / 2 {
        match step_of(&items[2 * i], &items[2 * i + 1]) {
            None => return Ok(None),
            Some(step) => steps.push(step)?,
        }
    }
    if items.len() % 2 != 0 {
        return Ok(None);
    }
    Ok(Some(steps))
}

// An edge and a node.
fn step_of(edge: &Value, node: &Value) -> Option<Step>
    ensures { result ≡ found (step_of (view edge.now) (view node.now)) }
{
    let edge = id_in(edge)?;
    let node = id_in(node)?;
    Some(Step { edge, node })
}
