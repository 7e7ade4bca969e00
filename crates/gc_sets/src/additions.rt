ghost use Rattle.std.specs.Prelude.{◌≡◌, ◌∷◌, false, [], IfOk, OnOk};
ghost use Rattle.std.specs.List.{filter};
ghost use Rattle.gc_spec.specs.PropertyGraph.{ids_of, node_ids, edge_ids, path_ids, is_among, is_walk};
ghost use Rattle.gc_sets.specs.Additions.{AreNew, ArePartsOf, with_nodes, with_standing, with_walking, assembled};
ghost use Rattle.gc_sets.specs.Elements.{stands};

use gc_base::Memory;
use gc_ppg::{EdgeInfo, Graph, GraphBuilder, NodeInfo, PathInfo};
use std::alloc::Global;

// The graph of some nodes, of those edges that stand between them, and of those stored paths that go
// along these. All identities are distinct.
pub(crate) fn assemble(
    alloc: Global,
    nodes: Vec<NodeInfo>,
    edges: Vec<EdgeInfo>,
    paths: Vec<PathInfo>,
) -> Result<Graph, Memory>
    requires { ArePartsOf nodes.items edges.items paths.items }
    ensures { IfOk result (λ g. g ≡ assembled nodes.items edges.items paths.items) }
{
    let mut builder = GraphBuilder::new(alloc);
    add_nodes(&mut builder, nodes)?;
    add_edges(&mut builder, edges)?;
    add_paths(&mut builder, paths)?;
    builder.finish_plain()
}

// Adds nodes whose identities are new.
fn add_nodes(builder: &mut GraphBuilder, nodes: Vec<NodeInfo>) -> Result<(), Memory>
    requires { AreNew (ids_of builder.old) (node_ids nodes.items) }
    ensures { OnOk result (builder.new ≡ with_nodes builder.old nodes.items) }
{
    for node in nodes {
        builder.put_node(node)?;
    }
    Ok(())
}

// Adds those of some edges whose ends are there. Their identities are new.
fn add_edges(builder: &mut GraphBuilder, edges: Vec<EdgeInfo>) -> Result<(), Memory>
    requires { AreNew (ids_of builder.old) (edge_ids edges.items) }
    ensures { OnOk result (builder.new ≡ with_standing builder.old edges.items) }
{
    for edge in edges {
        add_edge(builder, edge)?;
    }
    Ok(())
}

// Adds an edge if its ends are there. Its identity is new.
fn add_edge(builder: &mut GraphBuilder, edge: EdgeInfo) -> Result<(), Memory>
    requires { is_among (ids_of builder.old) edge.id ≡ false }
    ensures { OnOk result (builder.new ≡ with_standing builder.old (edge ∷ [])) }
{
    if builder.has_node(edge.from) && builder.has_node(edge.to) {
        builder.put_edge(edge)?;
    }
    Ok(())
}

// Adds those of some stored paths whose walks go along what is there. Their identities are new.
fn add_paths(builder: &mut GraphBuilder, paths: Vec<PathInfo>) -> Result<(), Memory>
    requires { AreNew (ids_of builder.old) (path_ids paths.items) }
    ensures { OnOk result (builder.new ≡ with_walking builder.old paths.items) }
{
    for path in paths {
        add_path(builder, path)?;
    }
    Ok(())
}

// Adds a stored path if its walk goes along what is there. Its identity is new.
fn add_path(builder: &mut GraphBuilder, path: PathInfo) -> Result<(), Memory>
    requires { is_among (ids_of builder.old) path.id ≡ false }
    ensures { OnOk result (builder.new ≡ with_walking builder.old (path ∷ [])) }
{
    if builder.has_walk(&path.walk) {
        builder.put_path(path)?;
    }
    Ok(())
}
