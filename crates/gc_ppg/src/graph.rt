ghost use Rattle.std.specs.Prelude.{◌≡◌, ◌+◌, ◌<◌, ◌≤◌, ◌==◌, length, map, slice_get, Some, is_some, IfOk};
ghost use Rattle.std.specs.List.{filter};
ghost use Rattle.std.specs.Option.{option_copied, option_and_then};
ghost use Rattle.gc_base.specs.Ascending.{has};
ghost use Rattle.gc_base.specs.Literals.{text_order};
ghost use Rattle.gc_spec.specs.PropertyGraph.{IsGraph, node_at, edge_at, path_at};
ghost use Rattle.gc_ppg.specs.FreeIds.{IsFirstFree, IsLeastAbove};
ghost use Rattle.gc_ppg.specs.Reads.{handed_out};

use crate::element::{EdgeInfo, NodeInfo, PathInfo};
use crate::index::GraphIndex;
use crate::kind::{Element, Labelled};
use crate::node_edges::{NodeEdges, Side};
use crate::search::find;
use crate::shape::Kind;
use gc_base::{Id, Memory, Name, Numbered, Steps, copies};
use std::marker::Model;
use std::sync::ledger::Ledger;

/// A path property graph, valid by its type. Contracts see it as three lists of elements, each
/// ascending by identity. With an index, edges at a node and elements with a label are read at once;
/// without one, as in a graph that is only printed, all elements are gone over.
#[derive(Debug, Drop)]
pub struct Graph {
    nodes: Vec<NodeInfo>,
    edges: Vec<EdgeInfo>,
    paths: Vec<PathInfo>,
    index: Option<GraphIndex>,
}

/// A list of graphs, which are named by their numbers.
pub type GraphList = Numbered<Graph>;

impl Model for Graph {
    ghost use Rattle.gc_spec.specs.PropertyGraph.{PropertyGraph, IsGraph};

    ghost Value = { PropertyGraph };

    ghost view = { λ g. record { nodes = g.nodes.items; edges = g.edges.items; paths = g.paths.items } };

    ghost use Rattle.std.specs.Prelude.{IfSome};
    ghost use Rattle.gc_ppg.specs.Indexed.{IsIndex};

    ghost invariant = { λ g.
        IsGraph (record { nodes = g.nodes.items; edges = g.edges.items; paths = g.paths.items })
        × IfSome g.index (IsIndex (record { nodes = g.nodes.items; edges = g.edges.items; paths = g.paths.items })) };
}

impl Graph {
    ghost use Rattle.gc_ppg.specs.LabelledIds.{labelled_ids};
    ghost use Rattle.gc_ppg.specs.LabelReads.{kind_ids};
    ghost use Rattle.gc_ppg.specs.NodeSides.{edges_at};

    // The graph of these elements, without an index.
    pub(crate) fn of_elements(
        nodes: Vec<NodeInfo>,
        edges: Vec<EdgeInfo>,
        paths: Vec<PathInfo>,
    ) -> Graph
        requires { IsGraph (record { nodes = nodes.items; edges = edges.items; paths = paths.items }) }
        ensures { result ≡ record { nodes = nodes.items; edges = edges.items; paths = paths.items } }
    {
        Graph {
            nodes,
            edges,
            paths,
            index: None,
        }
    }

    /// The same graph with an index, as one needs in which patterns are matched.
    pub fn indexed(self) -> Result<Graph, Memory>
        ensures { IfOk result (λ g. g ≡ self) }
    {
        let alloc = *self.nodes.allocator();
        let index = GraphIndex::of(alloc, self.nodes(), self.edges(), self.paths())?;
        let Graph {
            nodes,
            edges,
            paths,
            index: _,
        } = self;
        Ok(Graph {
            nodes,
            edges,
            paths,
            index: Some(index),
        })
    }

    /// How many nodes there are.
    pub fn node_count(&self) -> usize
        ensures count { result ≡ length self.now.nodes }
        ensures valid { IsGraph self.now }
    {
        self.nodes.len()
    }

    /// How many edges there are.
    pub fn edge_count(&self) -> usize
        ensures count { result ≡ length self.now.edges }
        ensures valid { IsGraph self.now }
    {
        self.edges.len()
    }

    /// How many stored paths there are.
    pub fn path_count(&self) -> usize
        ensures count { result ≡ length self.now.paths }
        ensures valid { IsGraph self.now }
    {
        self.paths.len()
    }

    /// The node at a place below the count, by ascending identity. It takes one step.
    pub fn node<L: Ledger>(&self, i: usize, steps: &mut Steps<L>) -> &NodeInfo
        requires { i < length self.now.nodes }
        ensures node { slice_get self.now.nodes i ≡ Some result.now }
        ensures step { steps.new ≡ steps.old + 1 }
    {
        steps.tick();
        &self.nodes[i]
    }

    /// The edge at a place below the count, by ascending identity. It takes one step.
    pub fn edge<L: Ledger>(&self, i: usize, steps: &mut Steps<L>) -> &EdgeInfo
        requires { i < length self.now.edges }
        ensures edge { slice_get self.now.edges i ≡ Some result.now }
        ensures step { steps.new ≡ steps.old + 1 }
    {
        steps.tick();
        &self.edges[i]
    }

    /// The stored path at a place below the count, by ascending identity. It takes one step.
    pub fn path<L: Ledger>(&self, i: usize, steps: &mut Steps<L>) -> &PathInfo
        requires { i < length self.now.paths }
        ensures path { slice_get self.now.paths i ≡ Some result.now }
        ensures step { steps.new ≡ steps.old + 1 }
    {
        steps.tick();
        &self.paths[i]
    }

    /// The node of an identity, or `None` exactly where it is not there. A node takes one step.
    pub fn find_node<L: Ledger>(&self, id: Id, steps: &mut Steps<L>) -> Option<&NodeInfo>
        ensures node { option_copied result ≡ node_at self.now.nodes id }
        ensures step { steps.new ≡ steps.old + handed_out result }
    {
        counted(find(&self.nodes, id), steps)
    }

    /// Whether there is a node of an identity. It hands out no element.
    pub fn has_node(&self, id: Id) -> bool
        ensures { result ≡ is_some (node_at self.now.nodes id) }
    {
        match &self.index {
            Some(index) => find(index.node_ids(), id).is_some(),
            None => find(&self.nodes, id).is_some(),
        }
    }

    /// The edge of an identity, or `None` exactly where it is not there. An edge takes one step.
    pub fn find_edge<L: Ledger>(&self, id: Id, steps: &mut Steps<L>) -> Option<&EdgeInfo>
        ensures edge { option_copied result ≡ edge_at self.now.edges id }
        ensures step { steps.new ≡ steps.old + handed_out result }
    {
        counted(find(&self.edges, id), steps)
    }

    /// The stored path of an identity, or `None` exactly where it is not there. A path takes one
    /// step.
    pub fn find_path<L: Ledger>(&self, id: Id, steps: &mut Steps<L>) -> Option<&PathInfo>
        ensures path { option_copied result ≡ path_at self.now.paths id }
        ensures step { steps.new ≡ steps.old + handed_out result }
    {
        counted(find(&self.paths, id), steps)
    }

    /// The i-th edge that leaves a node, by ascending identity, or `None` exactly where there is
    /// none. An edge takes one step.
    pub fn out_edge<L: Ledger>(&self, node: Id, i: usize, steps: &mut Steps<L>) -> Option<&EdgeInfo>
        ensures edge { option_copied result ≡ slice_get (filter (λ e. e.from == node) self.now.edges) i }
        ensures step { steps.new ≡ steps.old + handed_out result }
    {
        counted(self.nth_out(node, i), steps)
    }

    /// The i-th edge that comes to a node, by ascending identity, or `None` exactly where there is
    /// none. An edge takes one step.
    pub fn in_edge<L: Ledger>(&self, node: Id, i: usize, steps: &mut Steps<L>) -> Option<&EdgeInfo>
        ensures edge { option_copied result ≡ slice_get (filter (λ e. e.to == node) self.now.edges) i }
        ensures step { steps.new ≡ steps.old + handed_out result }
    {
        counted(self.nth_in(node, i), steps)
    }

    /// The edges at a side of a node, which are then read one by one.
    pub fn edges_at(&self, node: Id, side: Side) -> NodeEdges<'_>
        ensures { result ≡ record { side = side; all = edges_at side node self.now.edges } }
    {
        match &self.index {
            Some(index) => NodeEdges::placed(&self.edges, side, node, index.places_at(node, side)),
            None => NodeEdges::gone_over(&self.edges, side, node),
        }
    }

    /// The first identity that is above all of the graph, or 0 where it has no element. It is at most
    /// one more than the largest identity. It hands out no element.
    pub fn first_free(&self) -> u64
        ensures free { IsFirstFree self.now result }
        ensures most { result ≤ 9007199254740992 }
        ensures valid { IsGraph self.now }
    {
        let nodes = above(0, self.nodes());
        let edges = above(nodes, self.edges());
        above(edges, self.paths())
    }

    /// A copy of the graph, without an index. Each element takes one step.
    pub fn copy<L: Ledger>(&self, steps: &mut Steps<L>) -> Result<Graph, Memory>
        ensures same { IfOk result (λ g. g ≡ self.now) }
        ensures step { steps.new ≡ steps.old + (length self.now.nodes + length self.now.edges + length self.now.paths) }
    {
        let alloc = *self.nodes.allocator();
        count_all(self.nodes().len(), steps);
        count_all(self.edges().len(), steps);
        count_all(self.paths().len(), steps);
        let nodes = copies(alloc, self.nodes())?;
        let edges = copies(alloc, self.edges())?;
        let paths = copies(alloc, self.paths())?;
        Ok(Graph::of_elements(nodes, edges, paths))
    }

    /// How many elements of a kind have a label.
    pub fn label_count(&self, kind: Kind, label: &Name) -> usize
        ensures { result ≡ length (labelled_ids self.now kind label.now) }
    {
        match &self.index {
            Some(index) => index.labelled(kind, label).len(),
            None => self.counted_with(kind, label),
        }
    }

    /// The i-th element of a kind that has a label, by ascending identity, or `None` exactly where
    /// there is none. An element takes one step.
    pub fn with_label<L: Ledger>(
        &self,
        kind: Kind,
        label: &Name,
        i: usize,
        steps: &mut Steps<L>,
    ) -> Option<Id>
        ensures element { result ≡ slice_get (labelled_ids self.now kind label.now) i }
        ensures step { steps.new ≡ steps.old + handed_out result }
    {
        let found = self.nth_with_label(kind, label, i);
        if found.is_some() {
            steps.tick();
        }
        found
    }

    // The i-th element of a kind that has a label.
    fn nth_with_label(&self, kind: Kind, label: &Name, i: usize) -> Option<Id>
        ensures { result ≡ slice_get (labelled_ids self.now kind label.now) i }
    {
        match &self.index {
            Some(index) => match nth_place(index.labelled(kind, label), i) {
                Some(place) => self.id_at(kind, place),
                None => None,
            },
            None => self.gone_over_with(kind, label, i),
        }
    }

    // How many elements of a kind have a label, by going over all.
    fn counted_with(&self, kind: Kind, label: &Name) -> usize
        ensures { result ≡ length (labelled_ids self.now kind label.now) }
    {
        match kind {
            Kind::Node => count_with(&self.nodes, label),
            Kind::Edge => count_with(&self.edges, label),
            Kind::Path => count_with(&self.paths, label),
        }
    }

    // The i-th element of a kind that has a label, by going over all.
    fn gone_over_with(&self, kind: Kind, label: &Name, i: usize) -> Option<Id>
        ensures { result ≡ slice_get (labelled_ids self.now kind label.now) i }
    {
        match kind {
            Kind::Node => nth_with(&self.nodes, label, i),
            Kind::Edge => nth_with(&self.edges, label, i),
            Kind::Path => nth_with(&self.paths, label, i),
        }
    }

    // The i-th edge that leaves a node.
    fn nth_out(&self, node: Id, i: usize) -> Option<&EdgeInfo>
        ensures { option_copied result ≡ slice_get (filter (λ e. e.from == node) self.now.edges) i }
    {
        match &self.index {
            Some(index) => self.edge_at(index.leaving(node, i)),
            None => nth_leaving(&self.edges, node, i),
        }
    }

    // The i-th edge that comes to a node.
    fn nth_in(&self, node: Id, i: usize) -> Option<&EdgeInfo>
        ensures { option_copied result ≡ slice_get (filter (λ e. e.to == node) self.now.edges) i }
    {
        match &self.index {
            Some(index) => self.edge_at(index.coming(node, i)),
            None => nth_coming(&self.edges, node, i),
        }
    }

    // The identity of the element of a kind at a place.
    fn id_at(&self, kind: Kind, place: usize) -> Option<Id>
        ensures { result ≡ slice_get (kind_ids self.now kind) place }
    {
        match kind {
            Kind::Node => id_of(&self.nodes, place),
            Kind::Edge => id_of(&self.edges, place),
            Kind::Path => id_of(&self.paths, place),
        }
    }

    // The edge at a place, if there is one.
    fn edge_at(&self, place: Option<usize>) -> Option<&EdgeInfo>
        ensures { option_copied result ≡ option_and_then (slice_get self.now.edges) place }
    {
        match place {
            Some(place) => self.edges.get(place),
            None => None,
        }
    }

    // All nodes, by ascending identity.
    pub(crate) fn nodes(&self) -> &[NodeInfo]
        ensures nodes { result.now ≡ self.now.nodes }
        ensures valid { IsGraph self.now }
    {
        &self.nodes
    }

    // All edges, by ascending identity.
    pub(crate) fn edges(&self) -> &[EdgeInfo]
        ensures edges { result.now ≡ self.now.edges }
        ensures valid { IsGraph self.now }
    {
        &self.edges
    }

    // All stored paths, by ascending identity.
    pub(crate) fn paths(&self) -> &[PathInfo]
        ensures paths { result.now ≡ self.now.paths }
        ensures valid { IsGraph self.now }
    {
        &self.paths
    }
}

// The first number from one on that is above the identities of some elements.
fn above<T: Element>(start: u64, elements: &[T]) -> u64
    ensures { IsLeastAbove start (map T.id_of elements.now) result }
{
    let mut free = start;
    for element in elements {
        free = free.max(element.id().get() + 1);
    }
    free
}

// The i-th of some places.
fn nth_place(places: &[usize], i: usize) -> Option<usize>
    ensures { result ≡ slice_get places.now i }
{
    match places.get(i) {
        Some(place) => Some(*place),
        None => None,
    }
}

// Counts so many elements that are handed out.
fn count_all<L: Ledger>(elements: usize, steps: &mut Steps<L>)
    ensures { steps.new ≡ steps.old + elements }
{
    for _ in 0..elements {
        steps.tick();
    }
}

// The identity of the element at a place.
fn id_of<T: Element>(elements: &[T], place: usize) -> Option<Id>
    ensures { result ≡ slice_get (map T.id_of elements.now) place }
{
    match elements.get(place) {
        Some(element) => Some(element.id()),
        None => None,
    }
}

// The i-th of those edges that leave a node.
pub(crate) fn nth_leaving(edges: &[EdgeInfo], node: Id, i: usize) -> Option<&EdgeInfo>
    ensures { option_copied result ≡ slice_get (filter (λ e. e.from == node) edges.now) i }
{
    edges.iter().filter(|edge| edge.from == node).nth(i)
}

// The i-th of those edges that come to a node.
pub(crate) fn nth_coming(edges: &[EdgeInfo], node: Id, i: usize) -> Option<&EdgeInfo>
    ensures { option_copied result ≡ slice_get (filter (λ e. e.to == node) edges.now) i }
{
    edges.iter().filter(|edge| edge.to == node).nth(i)
}

// How many elements have a label.
fn count_with<T: Labelled>(elements: &[T], label: &Name) -> usize
    ensures { result ≡ length (filter (λ x. has text_order (T.labels_of x) label.now) elements.now) }
{
    elements
        .iter()
        .filter(|element| element.labels().contains(label))
        .count()
}

// The identity of the i-th element that has a label.
fn nth_with<T: Labelled>(elements: &[T], label: &Name, i: usize) -> Option<Id>
    ensures { result ≡ slice_get (map T.id_of (filter (λ x. has text_order (T.labels_of x) label.now) elements.now)) i }
{
    match labelled(elements, label, i) {
        Some(element) => Some(element.id()),
        None => None,
    }
}

// The i-th element that has a label.
fn labelled<'a, T: Labelled>(elements: &'a [T], label: &Name, i: usize) -> Option<&'a T>
    ensures { option_copied result ≡ slice_get (filter (λ x. has text_order (T.labels_of x) label.now) elements.now) i }
{
    elements
        .iter()
        .filter(|element| element.labels().contains(label))
        .nth(i)
}

// An answer, with one step where an element is handed out.
pub(crate) fn counted<'a, T, L: Ledger>(
    answer: Option<&'a T>,
    steps: &mut Steps<L>,
) -> Option<&'a T>
    ensures same { result ≡ answer.entry }
    ensures step { steps.new ≡ steps.old + handed_out result }
{
    if answer.is_some() {
        steps.tick();
    }
    answer
}
