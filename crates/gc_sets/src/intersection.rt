ghost use Rattle.std.specs.Prelude.{IfOk};
ghost use Rattle.gc_spec.specs.Coherence.{AreCoherent};
ghost use Rattle.gc_sets.specs.Intersections.{IsIntersection};

use crate::additions::assemble;
use crate::lists::in_common;
use gc_base::{Memory, Steps};
use gc_ppg::Graph;
use std::alloc::Global;
use std::sync::ledger::Ledger;

/// The intersection of two coherent graphs: the elements of both, each with its labels and values in
/// both.
pub fn intersect<L: Ledger>(
    alloc: Global,
    a: &Graph,
    b: &Graph,
    steps: &mut Steps<L>,
) -> Result<Graph, Memory>
    requires { AreCoherent a.now b.now }
    ensures { IfOk result (IsIntersection a.now b.now) }
{
    let _valid = (a.node_count(), b.node_count());
    let nodes = in_common(alloc, a, b, steps)?;
    let edges = in_common(alloc, a, b, steps)?;
    let paths = in_common(alloc, a, b, steps)?;
    let graph = assemble(alloc, nodes, edges, paths)?;
    let _valid_too = graph.node_count();
    Ok(graph)
}
