ghost use Rattle.std.specs.Prelude.{◌≡◌, map, IfOk};
ghost use Rattle.std.specs.Option.{option_copied, option_map};
ghost use Rattle.gc_views.specs.Segments.{edge_of, joined_step, node_of, step_on, steps_on, walk_along};

use gc_base::{Id, Memory, Sequence, Step, Sym, Walk};
use gc_rows::{Datum, RowView};
use std::alloc::Global;

/// The variable of an edge of a chain, and that of the node behind it.
#[derive(Clone, Copy, Debug, PartialEq, Eq)]
pub(crate) struct Leg {
    pub edge: Sym,
    pub node: Sym,
}

/// The legs of a chain, in order.
pub(crate) type LegList = Sequence<Leg>;

/// The variables along a chain: that of its first node, and its legs.
#[derive(Drop)]
pub(crate) struct Trail {
    pub start: Sym,
    pub legs: LegList,
}

impl Trail {
    /// The walk of a row along the chain, if the row has one.
    pub(crate) fn walk(&self, alloc: Global, row: &RowView<'_>) -> Result<Option<Walk>, Memory>
        ensures { IfOk result (λ walk. walk ≡ walk_along row.now self.now) }
    {
        let Some(start) = node_of(row.get(self.start)) else {
            return Ok(None);
        };
        let Some(steps) = steps_on(alloc, row, self.legs.as_slice())? else {
            return Ok(None);
        };
        Ok(Some(Walk {
            start,
            steps: Sequence::from_vec(steps),
        }))
    }
}

// The steps that a row has for legs, if it has one for each.
fn steps_on(alloc: Global, row: &RowView<'_>, legs: &[Leg]) -> Result<Option<Vec<Step>>, Memory>
    ensures { IfOk result (λ steps. option_map (λ made. made.items) steps ≡ steps_on row.now legs.now) }
{
    let mut steps = Vec::new(alloc);
    for leg in legs {
        let Some(step) = step_on(row, *leg) else {
            return Ok(None);
        };
        steps.push(step)?;
    }
    Ok(Some(steps))
}

// The step that a row has for a leg, if it has one.
fn step_on(row: &RowView<'_>, leg: Leg) -> Option<Step>
    ensures { result ≡ step_on row.now leg }
{
    joined_step(edge_of(row.get(leg.edge)), node_of(row.get(leg.node)))
}

fn joined_step(edge: Option<Id>, node: Option<Id>) -> Option<Step>
    ensures { result ≡ joined_step edge node }
{
    match (edge, node) {
        (Some(edge), Some(node)) => Some(Step { edge, node }),
        _ => None,
    }
}

// The node that a variable stands for, if it does.
fn node_of(datum: Option<&Datum>) -> Option<Id>
    ensures { result ≡ node_of (option_copied datum.entry) }
{
    match datum {
        Some(Datum::Node(id)) => Some(*id),
        _ => None,
    }
}

// The edge that a variable stands for, if it does.
fn edge_of(datum: Option<&Datum>) -> Option<Id>
    ensures { result ≡ edge_of (option_copied datum.entry) }
{
    match datum {
        Some(Datum::Edge(id)) => Some(*id),
        _ => None,
    }
}
