ghost use Rattle.std.specs.Prelude.{◌≡◌, IfOk};
ghost use Rattle.gc_spec.specs.Coherence.{AreCoherent};
ghost use Rattle.gc_sets.specs.Differences.{difference};

use crate::additions::assemble;
use crate::lists::others;
use gc_base::{Memory, Steps};
use gc_ppg::Graph;
use std::alloc::Global;
use std::sync::ledger::Ledger;

/// The first graph without the elements of the second: an edge stays with both its ends, a stored
/// path with all its nodes and edges. Labels and properties are those of the first.
pub fn minus<L: Ledger>(
    alloc: Global,
    a: &Graph,
    b: &Graph,
    steps: &mut Steps<L>,
) -> Result<Graph, Memory>
    requires { AreCoherent a.now b.now }
    ensures { IfOk result (λ g. g ≡ difference a.now b.now) }
{
    let _valid = a.node_count();
    let nodes = others(alloc, a, b, steps)?;
    let edges = others(alloc, a, b, steps)?;
    let paths = others(alloc, a, b, steps)?;
    assemble(alloc, nodes, edges, paths)
}
