//! Walks of a graph.
ghost use Rattle.std.specs.Prelude.{◌≡◌};
ghost use Rattle.gc_ppg.specs.Built.{has_ends};
ghost use Rattle.gc_spec.specs.PropertyGraph.{are_steps_from, is_among, is_joined, is_walk, node_ids};

use gc_base::{Id, Step, Steps, Walk};
use gc_ppg::{EdgeInfo, Graph};
use std::sync::ledger::Ledger;

// Whether a walk begins at a node of a graph and goes along its edges.
pub(crate) fn is_walk<L: Ledger>(graph: &Graph, walk: &Walk, steps: &mut Steps<L>) -> bool
    ensures { result ≡ is_walk graph.now.nodes graph.now.edges walk.now }
{
    is_node(graph, walk.start, steps)
        && are_steps_from(graph, walk.start, walk.steps.as_slice(), steps)
}

fn is_node<L: Ledger>(graph: &Graph, node: Id, steps: &mut Steps<L>) -> bool
    ensures { result ≡ is_among (node_ids graph.now.nodes) node }
{
    match graph.find_node(node, steps) {
        None => false,
        Some(_) => true,
    }
}

// Whether each step from a node goes along an edge to its own node.
fn are_steps_from<L: Ledger>(graph: &Graph, start: Id, list: &[Step], steps: &mut Steps<L>) -> bool
    ensures { result ≡ are_steps_from graph.now.edges start list.now }
{
    let mut node = start;
    for step in list {
        if !is_joined(graph, step.edge, node, step.node, steps) {
            return false;
        }
        node = step.node;
    }
    true
}

// Whether an edge joins two nodes, in one direction or the other.
fn is_joined<L: Ledger>(graph: &Graph, edge: Id, a: Id, b: Id, steps: &mut Steps<L>) -> bool
    ensures { result ≡ is_joined graph.now.edges edge a b }
{
    let _edges = graph.edge_count();
    match graph.find_edge(edge, steps) {
        None => false,
        Some(found) => has_ends(found, a, b),
    }
}

fn has_ends(edge: &EdgeInfo, a: Id, b: Id) -> bool
    ensures { result ≡ has_ends a b edge.now }
{
    edge.from == a && edge.to == b || edge.from == b && edge.to == a
}
