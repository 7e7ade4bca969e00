ghost use Rattle.std.specs.Prelude.{◌≡◌, ◌+◌, ◌≤◌, length, IfOk, None, Some, nat_eq};
ghost use Rattle.std.specs.Cmp.Lexicographic.{pointwise};
ghost use Rattle.std.specs.Option.{option_copied};
ghost use Rattle.gc_prod.specs.SymbolHops.{hops, at_nodes, along_edges, along_edge, by_segments, fits, still, by_segment};

use crate::moves::{By, Hop};
use crate::segment::{Segment, SegmentList};
use gc_automata::On;
use gc_base::{LabelSet, Memory, Name, Steps};
use gc_ppg::{EdgeInfo, Graph, Kind, NodeInfo};
use std::alloc::Global;
use std::sync::ledger::Ledger;

// Along an edge, or against it.
#[derive(Clone, Copy)]
pub(crate) enum Way {
    Forward,
    Back,
}

#[tactic(auto, unfolding(crate::specs::SymbolHops::hops))]
// All hops along a symbol, in the order of the nodes, the edges or the segments.
pub(crate) fn symbol_hops<L: Ledger>(
    alloc: Global,
    graph: &Graph,
    segments: &SegmentList,
    on: &On,
    steps: &mut Steps<L>,
) -> Result<Vec<Hop>, Memory>
    ensures exact { IfOk result (λ found. found.items ≡ hops (record { graph = graph.now; segments = segments.now }) on.now) }
    ensures few { steps.new ≤ steps.old + (length graph.now.nodes + length graph.now.edges + length segments.now) }
{
    match on {
        On::Empty => node_hops(alloc, graph, None, steps),
        On::Label(label) => labelled_hops(alloc, graph, Way::Forward, label, steps),
        On::Back(label) => labelled_hops(alloc, graph, Way::Back, label, steps),
        On::Any => all_edge_hops(alloc, graph, Way::Forward, steps),
        On::AnyBack => all_edge_hops(alloc, graph, Way::Back, steps),
        On::Test(label) => node_hops(alloc, graph, Some(label), steps),
        On::View(view) => segment_hops(alloc, segments, view, steps),
    }
}

// For how many nodes there is room from the first: for all, unless they are tested.
fn room_at(graph: &Graph, label: Option<&Name>) -> usize {
    match label {
        None => graph.node_count(),
        Some(_) => 0,
    }
}

// The hops that stay at the nodes that fit.
fn node_hops<L: Ledger>(
    alloc: Global,
    graph: &Graph,
    label: Option<&Name>,
    steps: &mut Steps<L>,
) -> Result<Vec<Hop>, Memory>
    ensures exact { IfOk result (λ found. found.items ≡ at_nodes (option_copied label.entry) graph.now.nodes) }
    ensures few { steps.new ≤ steps.old + length graph.now.nodes }
{
    let mut found = Vec::with_capacity(alloc, room_at(graph, label))?;
    for i in 0..graph.node_count() {
        let node = graph.node(i, steps);
        if node_fits(node, label) {
            found.push(stay_at(node))?;
        }
    }
    Ok(found)
}

// The hops along the edges that have a label. Where all edges have it, none is looked at for it.
fn labelled_hops<L: Ledger>(
    alloc: Global,
    graph: &Graph,
    way: Way,
    label: &Name,
    steps: &mut Steps<L>,
) -> Result<Vec<Hop>, Memory>
    ensures exact { IfOk result (λ found. found.items ≡ along_edges way (Some label.now) graph.now.edges) }
    ensures few { steps.new ≤ steps.old + length graph.now.edges }
{
    let count = graph.label_count(Kind::Edge, label);
    if count == graph.edge_count() {
        all_edge_hops(alloc, graph, way, steps)
    } else {
        edge_hops(alloc, graph, way, label, count, steps)
    }
}

// The hops along all edges.
fn all_edge_hops<L: Ledger>(
    alloc: Global,
    graph: &Graph,
    way: Way,
    steps: &mut Steps<L>,
) -> Result<Vec<Hop>, Memory>
    ensures exact { IfOk result (λ found. found.items ≡ along_edges way None graph.now.edges) }
    ensures few { steps.new ≤ steps.old + length graph.now.edges }
{
    let mut found = Vec::with_capacity(alloc, graph.edge_count())?;
    for i in 0..graph.edge_count() {
        found.push(edge_hop(way, graph.edge(i, steps)))?;
    }
    Ok(found)
}

// The hops along the edges that are tested for a label, with room for so many.
fn edge_hops<L: Ledger>(
    alloc: Global,
    graph: &Graph,
    way: Way,
    label: &Name,
    room: usize,
    steps: &mut Steps<L>,
) -> Result<Vec<Hop>, Memory>
    ensures exact { IfOk result (λ found. found.items ≡ along_edges way (Some label.now) graph.now.edges) }
    ensures few { steps.new ≤ steps.old + length graph.now.edges }
{
    let mut found = Vec::with_capacity(alloc, room)?;
    for i in 0..graph.edge_count() {
        let edge = graph.edge(i, steps);
        if edge_fits(edge, label) {
            found.push(edge_hop(way, edge))?;
        }
    }
    Ok(found)
}

// The hops along the segments of a view. Each segment that is looked at is a step.
fn segment_hops<L: Ledger>(
    alloc: Global,
    segments: &SegmentList,
    view: &Name,
    steps: &mut Steps<L>,
) -> Result<Vec<Hop>, Memory>
    ensures exact { IfOk result (λ found. found.items ≡ by_segments view.now 0 segments.now) }
    ensures few { steps.new ≤ steps.old + length segments.now }
{
    let mut found = Vec::new(alloc);
    for i in 0..segments.len() {
        let segment = segments.at(i);
        steps.tick();
        if is_of(segment, view) {
            found.push(segment_hop(i, segment))?;
        }
    }
    Ok(found)
}

fn node_fits(node: &NodeInfo, label: Option<&Name>) -> bool
    ensures { result ≡ fits (option_copied label.entry) node.now.labels }
{
    has_label(&node.labels, label)
}

fn edge_fits(edge: &EdgeInfo, label: &Name) -> bool
    ensures { result ≡ fits (Some label.now) edge.now.labels }
{
    has_label(&edge.labels, Some(label))
}

fn is_of(segment: &Segment, view: &Name) -> bool
    ensures { result ≡ pointwise nat_eq segment.now.view view.now }
{
    segment.view == *view
}

// Whether a set of labels has a label that is asked for, if one is.
fn has_label(labels: &LabelSet, label: Option<&Name>) -> bool
    ensures { result ≡ fits (option_copied label.entry) labels.now }
{
    match label {
        None => true,
        Some(label) => labels.contains(label),
    }
}

fn stay_at(node: &NodeInfo) -> Hop
    ensures { result ≡ still node.now }
{
    Hop {
        from: node.id,
        to: node.id,
        cost: 0,
        by: By::Nothing,
    }
}

fn edge_hop(way: Way, edge: &EdgeInfo) -> Hop
    ensures { result ≡ along_edge way edge.now }
{
    let (from, to) = match way {
        Way::Forward => (edge.from, edge.to),
        Way::Back => (edge.to, edge.from),
    };
    let by = By::Edge(edge.id);
    Hop {
        from,
        to,
        cost: 1,
        by,
    }
}

fn segment_hop(number: u32, segment: &Segment) -> Hop
    ensures { result ≡ by_segment number segment.now }
{
    Hop {
        from: segment.walk.start,
        to: segment.walk.end(),
        cost: segment.cost,
        by: By::Segment(number),
    }
}
