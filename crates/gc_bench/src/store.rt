ghost use Rattle.std.specs.Prelude.{◌<◌, ◌^◌};

use crate::draw::Draw;
use gc_base::{Id, LabelSet, Memory, Name, Properties, Steps};
use gc_ppg::{BuildRefusal, EdgeInfo, Graph, GraphBuilder, NodeInfo};
use std::alloc::Global;
use std::sync::ledger::Ledger;

/// How large a graph to build.
#[derive(Clone, Copy)]
pub struct StoreSize {
    pub nodes: u32,
    pub edges: u32,
}

/// Builds a graph of nodes and edges that are added in random order. Each has one label.
pub fn build(alloc: Global, size: StoreSize, draw: &mut Draw) -> Result<Graph, Memory> {
    let mut builder = GraphBuilder::new(alloc);
    for number in draw.shuffled(alloc, size.nodes)? {
        let node = NodeInfo {
            id: id_of(u64::from(number)),
            labels: label(alloc, b"Node")?,
            properties: Properties::empty(alloc),
        };
        taken(builder.add_node(node))?;
    }
    if size.nodes > 0 {
        for number in draw.shuffled(alloc, size.edges)? {
            let edge = EdgeInfo {
                id: id_of(u64::from(size.nodes) + u64::from(number)),
                from: id_of(draw.below(u64::from(size.nodes))),
                to: id_of(draw.below(u64::from(size.nodes))),
                labels: label(alloc, b"to")?,
                properties: Properties::empty(alloc),
            };
            taken(builder.add_edge(edge))?;
        }
    }
    builder.finish()
}

/// Reads every edge at every node once, and gives the sum of their identities.
pub fn read_all<L: Ledger>(graph: &Graph, steps: &mut Steps<L>) -> u64 {
    let mut sum = 0u64;
    for i in 0..graph.node_count() {
        let node = graph.node(i, steps).id;
        sum = sum.wrapping_add(read_node(graph, node, steps));
    }
    sum
}

fn read_node<L: Ledger>(graph: &Graph, node: Id, steps: &mut Steps<L>) -> u64 {
    let mut sum = 0u64;
    for i in 0..graph.edge_count() {
        match graph.out_edge(node, i, steps) {
            Some(edge) => sum = sum.wrapping_add(edge.id.get()),
            None => break,
        }
    }
    for i in 0..graph.edge_count() {
        match graph.in_edge(node, i, steps) {
            Some(edge) => sum = sum.wrapping_add(edge.id.get()),
            None => break,
        }
    }
    sum
}

fn id_of(number: u64) -> Id
    requires { number < 2 ^ 33 }
{
    Id::new(number).unwrap()
}

fn label(alloc: Global, word: &[u8]) -> Result<LabelSet, Memory> {
    let mut labels = LabelSet::empty(alloc);
    if let Some(name) = Name::of(alloc, word)? {
        let _is_new = labels.insert(name)?;
    }
    Ok(labels)
}

// What is made here is never refused but for want of memory.
fn taken(answer: Result<(), BuildRefusal>) -> Result<(), Memory> {
    match answer {
        Err(BuildRefusal::Memory) => Err(Memory),
        _ => Ok(()),
    }
}
