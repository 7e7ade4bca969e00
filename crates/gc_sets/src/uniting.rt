ghost use Rattle.std.specs.Prelude.{IfOk};
ghost use Rattle.gc_sets.specs.Claims.{Claims, IsOutcome};

use crate::gathering::gathered;
use crate::whole::assembled;
use gc_base::Memory;
use gc_ppg::{EdgeInfo, Graph, NodeInfo, PathInfo};
use std::alloc::Global;

/// The graph that has, at each identity, what all of these claims say of it together, in their order:
/// the labels and values of each, and the ends or the walk of the first. There is `None` exactly where
/// no graph is so: where two kinds of elements have one identity, an edge lacks an end, or a walk does
/// not go along nodes and edges that are claimed.
pub fn unite(
    alloc: Global,
    nodes: Vec<NodeInfo>,
    edges: Vec<EdgeInfo>,
    paths: Vec<PathInfo>,
) -> Result<Option<Graph>, Memory>
    ensures { let c : Claims = record { nodes = nodes.items; edges = edges.items; paths = paths.items } in
        IfOk result (IsOutcome c) }
{
    let nodes = gathered(nodes)?;
    let edges = gathered(edges)?;
    let paths = gathered(paths)?;
    assembled(alloc, nodes, edges, paths)
}
