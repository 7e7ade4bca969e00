ghost use Rattle.std.specs.Prelude.{◌≡◌, true, [], IfOk, OnOk};
ghost use Rattle.std.specs.List.{list_all};
ghost use Rattle.gc_base.specs.Ascending.{Ascends};
ghost use Rattle.gc_spec.specs.PropertyGraph.{node_order, edge_order, path_order};
ghost use Rattle.gc_sets.specs.Wholes.{IsGraphOf, edge_fits, path_fits};

use gc_base::Memory;
use gc_ppg::{EdgeInfo, Graph, GraphBuilder, NodeInfo, PathInfo};
use std::alloc::Global;

/// The graph of just these elements, or `None` exactly where they are no graph.
pub(crate) fn assembled(
    alloc: Global,
    nodes: Vec<NodeInfo>,
    edges: Vec<EdgeInfo>,
    paths: Vec<PathInfo>,
) -> Result<Option<Graph>, Memory>
    requires nodes { Ascends node_order nodes.items }
    requires edges { Ascends edge_order edges.items }
    requires paths { Ascends path_order paths.items }
    ensures { IfOk result (IsGraphOf (record { nodes = nodes.items; edges = edges.items; paths = paths.items })) }
{
    let mut builder = with_nodes(alloc, nodes)?;
    if !edges_fit(&builder, &edges) {
        return Ok(None);
    }
    add_edges(&mut builder, edges)?;
    if !paths_fit(&builder, &paths) {
        return Ok(None);
    }
    add_paths(&mut builder, paths)?;
    let graph = builder.finish_plain()?;
    let _valid = graph.node_count();
    Ok(Some(graph))
}

/// The graph of just these elements, which are those of a graph: each edge and each stored path fits those before it, and
/// none is tested.
pub(crate) fn graph_of(
    alloc: Global,
    nodes: Vec<NodeInfo>,
    edges: Vec<EdgeInfo>,
    paths: Vec<PathInfo>,
) -> Result<Graph, Memory>
    requires nodes { Ascends node_order nodes.items }
    requires edges { Ascends edge_order edges.items }
    requires paths { Ascends path_order paths.items }
    requires edges_fit { list_all (edge_fits (record { nodes = nodes.items; edges = []; paths = [] })) edges.items ≡ true }
    requires paths_fit { list_all (path_fits (record { nodes = nodes.items; edges = edges.items; paths = [] })) paths.items ≡ true }
    ensures { IfOk result (λ g. g ≡ record { nodes = nodes.items; edges = edges.items; paths = paths.items }) }
{
    let mut whole = with_nodes(alloc, nodes)?;
    add_edges(&mut whole, edges)?;
    add_paths(&mut whole, paths)?;
    whole.finish_plain()
}

// A builder that has these nodes.
fn with_nodes(alloc: Global, nodes: Vec<NodeInfo>) -> Result<GraphBuilder, Memory>
    requires { Ascends node_order nodes.items }
    ensures { IfOk result (λ builder. builder ≡ record { nodes = nodes.items; edges = []; paths = [] }) }
{
    let mut builder = GraphBuilder::new(alloc);
    for node in nodes {
        builder.put_node(node)?;
    }
    Ok(builder)
}

// Whether each of some edges can be added.
fn edges_fit(builder: &GraphBuilder, edges: &[EdgeInfo]) -> bool
    ensures { result ≡ list_all (edge_fits builder.now) edges.now }
{
    edges.iter().all(|edge| edge_fits(builder, edge))
}

// Whether an edge can be added: its identity is new, and its ends are nodes.
fn edge_fits(builder: &GraphBuilder, edge: &EdgeInfo) -> bool
    ensures { result ≡ edge_fits builder.now edge.now }
{
    !builder.is_taken(edge.id) && builder.has_node(edge.from) && builder.has_node(edge.to)
}

// Adds edges that fit to nodes.
fn add_edges(builder: &mut GraphBuilder, edges: Vec<EdgeInfo>) -> Result<(), Memory>
    requires ascend { Ascends edge_order edges.items }
    requires none { builder.old.edges ≡ [] }
    requires fit { list_all (edge_fits builder.old) edges.items ≡ true }
    ensures { OnOk result (builder.new ≡ record builder.old { edges = edges.items }) }
{
    for edge in edges {
        builder.put_edge(edge)?;
    }
    Ok(())
}

// Whether each of some stored paths can be added.
fn paths_fit(builder: &GraphBuilder, paths: &[PathInfo]) -> bool
    ensures { result ≡ list_all (path_fits builder.now) paths.now }
{
    paths.iter().all(|path| path_fits(builder, path))
}

// Whether a stored path can be added: its identity is new, and its walk goes along the graph so far.
fn path_fits(builder: &GraphBuilder, path: &PathInfo) -> bool
    ensures { result ≡ path_fits builder.now path.now }
{
    !builder.is_taken(path.id) && builder.has_walk(&path.walk)
}

// Adds stored paths that fit to nodes and edges.
fn add_paths(builder: &mut GraphBuilder, paths: Vec<PathInfo>) -> Result<(), Memory>
    requires ascend { Ascends path_order paths.items }
    requires none { builder.old.paths ≡ [] }
    requires fit { list_all (path_fits builder.old) paths.items ≡ true }
    ensures { OnOk result (builder.new ≡ record builder.old { paths = paths.items }) }
{
    for path in paths {
        builder.put_path(path)?;
    }
    Ok(())
}
