ghost use Rattle.std.specs.Prelude.{IfOk};
ghost use Rattle.gc_sets.specs.Agreed.{AreOfOneGraph};
ghost use Rattle.gc_sets.specs.Claims.{Claims, IsClaimed};

use crate::gathering::gathered;
use crate::whole::graph_of;
use gc_base::Memory;
use gc_ppg::{EdgeInfo, Graph, NodeInfo, PathInfo};
use std::alloc::Global;

/// The graph that has, at each identity, what all of these claims say of it together, in their order: the
/// labels and values of each. They have to be those of one graph.
pub fn unite_agreed(
    alloc: Global,
    nodes: Vec<NodeInfo>,
    edges: Vec<EdgeInfo>,
    paths: Vec<PathInfo>,
) -> Result<Graph, Memory>
    requires { let c : Claims = record { nodes = nodes.items; edges = edges.items; paths = paths.items } in AreOfOneGraph c }
    ensures { let c : Claims = record { nodes = nodes.items; edges = edges.items; paths = paths.items } in IfOk result (IsClaimed c) }
{
    let nodes = gathered(nodes)?;
    let edges = gathered(edges)?;
    let paths = gathered(paths)?;
    let graph = graph_of(alloc, nodes, edges, paths)?;
    let _valid = graph.node_count();
    Ok(graph)
}
