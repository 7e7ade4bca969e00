ghost use Rattle.std.specs.Prelude.{IfOk};
ghost use Rattle.gc_spec.specs.Coherence.{AreCoherent};
ghost use Rattle.gc_sets.specs.Unions.{IsUnion};

use crate::additions::assemble;
use crate::lists::together;
use gc_base::{Memory, Steps};
use gc_ppg::Graph;
use std::alloc::Global;
use std::sync::ledger::Ledger;

/// The union of two coherent graphs: the elements of either, and for an element of both its labels
/// and values in either.
pub fn union<L: Ledger>(
    alloc: Global,
    a: &Graph,
    b: &Graph,
    steps: &mut Steps<L>,
) -> Result<Graph, Memory>
    requires { AreCoherent a.now b.now }
    ensures { IfOk result (IsUnion a.now b.now) }
{
    let _valid = (a.node_count(), b.node_count());
    let nodes = together(alloc, a, b, steps)?;
    let edges = together(alloc, a, b, steps)?;
    let paths = together(alloc, a, b, steps)?;
    let graph = assemble(alloc, nodes, edges, paths)?;
    let _valid_too = graph.node_count();
    Ok(graph)
}
