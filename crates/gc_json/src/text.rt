ghost use Rattle.std.specs.Prelude.{◌≡◌, ◌+◌, ◌∷◌, codes, length, IfOk, OnOk};
ghost use Rattle.gc_json.specs.CanonicalText.{canonical_text, element_count, graph_data, array_of, node_data, edge_data, path_data};
ghost use Rattle.gc_json.specs.Writing.{Adds, tokens_of};
ghost use Rattle.json.specs.Token.{key};

use crate::elements::{write_edge, write_node, write_path};
use gc_base::{Bytes, Memory, Steps};
use gc_ppg::Graph;
use json::Writer;
use std::alloc::Global;
use std::sync::ledger::Ledger;

/// The canonical text of a graph. It takes one step for each element.
pub fn print<L: Ledger>(alloc: Global, g: &Graph, steps: &mut Steps<L>) -> Result<Bytes, Memory>
    ensures text { IfOk result (λ text. text ≡ canonical_text g.now) }
    ensures steps { OnOk result (steps.new ≡ steps.old + element_count g.now) }
{
    let mut writer = Writer::new(Vec::new(alloc));
    write_graph(&mut writer, g, steps)?;
    Ok(Bytes::from_vec(writer.into_inner()))
}

/// Writes a graph as the object of a graph file. It takes one step for each element.
pub fn write_graph<L: Ledger>(
    writer: &mut Writer,
    g: &Graph,
    steps: &mut Steps<L>,
) -> Result<(), Memory>
    ensures tokens { Adds result writer.old writer.new (tokens_of (graph_data g.now)) }
    ensures steps { OnOk result (steps.new ≡ steps.old + element_count g.now) }
{
    writer.begin_object()?;
    write_edges(writer, g, steps)?;
    writer.key("gcore")?;
    writer.u64(1)?;
    write_nodes(writer, g, steps)?;
    write_paths(writer, g, steps)?;
    writer.end_object()?;
    Ok(())
}

fn write_nodes<L: Ledger>(
    writer: &mut Writer,
    g: &Graph,
    steps: &mut Steps<L>,
) -> Result<(), Memory>
    ensures tokens { Adds result writer.old writer.new
        (key (codes "nodes") ∷ tokens_of (array_of node_data g.now.nodes)) }
    ensures steps { OnOk result (steps.new ≡ steps.old + length g.now.nodes) }
{
    writer.key("nodes")?;
    writer.begin_array()?;
    for i in 0..g.node_count() {
        write_node(writer, g.node(i, steps))?;
    }
    writer.end_array()?;
    Ok(())
}

fn write_edges<L: Ledger>(
    writer: &mut Writer,
    g: &Graph,
    steps: &mut Steps<L>,
) -> Result<(), Memory>
    ensures tokens { Adds result writer.old writer.new
        (key (codes "edges") ∷ tokens_of (array_of edge_data g.now.edges)) }
    ensures steps { OnOk result (steps.new ≡ steps.old + length g.now.edges) }
{
    writer.key("edges")?;
    writer.begin_array()?;
    for i in 0..g.edge_count() {
        write_edge(writer, g.edge(i, steps))?;
    }
    writer.end_array()?;
    Ok(())
}

fn write_paths<L: Ledger>(
    writer: &mut Writer,
    g: &Graph,
    steps: &mut Steps<L>,
) -> Result<(), Memory>
    ensures tokens { Adds result writer.old writer.new
        (key (codes "paths") ∷ tokens_of (array_of path_data g.now.paths)) }
    ensures steps { OnOk result (steps.new ≡ steps.old + length g.now.paths) }
{
    writer.key("paths")?;
    writer.begin_array()?;
    for i in 0..g.path_count() {
        write_path(writer, g.path(i, steps))?;
    }
    writer.end_array()?;
    Ok(())
}
