ghost use Rattle.std.specs.Prelude.{◌≡◌, ◌==◌, ℕ, List, IfOk, slice_get};
ghost use Rattle.std.specs.List.{filter};
ghost use Rattle.std.specs.Option.{option_and_then};
ghost use Rattle.gc_spec.specs.PropertyGraph.{node_ids};
ghost use Rattle.gc_ppg.specs.Indexed.{IsIndex};
ghost use Rattle.gc_ppg.specs.KeyedPlaces.{AreEnds};
ghost use Rattle.gc_ppg.specs.NodeSides.{far_of};
ghost use Rattle.gc_ppg.specs.declared.node_edges.Side.TheVariants.{Leaving, Coming};

use crate::element::{EdgeInfo, NodeInfo, PathInfo};
use crate::label_index::LabelIndex;
use crate::node_edges::Side;
use crate::places::{PlaceAt, Places};
use crate::shape::Kind;
use gc_base::{Id, Memory, Name};
use std::alloc::Global;

// The identities of the nodes of a graph, and where the edges at each node and the elements with each label stand.
#[derive(Debug, Drop)]
pub(crate) struct GraphIndex {
    node_ids: Vec<Id>,
    leaving: Places,
    coming: Places,
    node_labels: LabelIndex,
    edge_labels: LabelIndex,
    path_labels: LabelIndex,
}

impl GraphIndex {
    ghost use Rattle.gc_ppg.specs.Indexed.{ends_at, labels_in};
    ghost use Rattle.gc_ppg.specs.KeyedPlaces.{at_key, place_in, run_at};
    ghost use Rattle.gc_ppg.specs.LabelPlaces.{places_of};

    // The index of a graph of these elements.
    pub(crate) fn of(
        alloc: Global,
        nodes: &[NodeInfo],
        edges: &[EdgeInfo],
        paths: &[PathInfo],
    ) -> Result<GraphIndex, Memory>
        ensures { IfOk result (IsIndex (record { nodes = nodes.now; edges = edges.now; paths = paths.now })) }
    {
        let node_ids = ids_of(alloc, nodes)?;
        let leaving = by_source(alloc, edges)?;
        let coming = by_target(alloc, edges)?;
        let node_labels = LabelIndex::of(alloc, nodes)?;
        let edge_labels = LabelIndex::of(alloc, edges)?;
        let path_labels = LabelIndex::of(alloc, paths)?;
        Ok(GraphIndex {
            node_ids,
            leaving,
            coming,
            node_labels,
            edge_labels,
            path_labels,
        })
    }

    // The identities of the nodes, ascending.
    pub(crate) fn node_ids(&self) -> &[Id]
        ensures { result.now ≡ self.now.node_ids.items }
    {
        &self.node_ids
    }

    // The place of the i-th edge that leaves a node.
    pub(crate) fn leaving(&self, node: Id, i: usize) -> Option<usize>
        ensures { result ≡ place_in self.now.leaving node i }
    {
        self.leaving.at(node.get(), i)
    }

    // The place of the i-th edge that comes to a node.
    pub(crate) fn coming(&self, node: Id, i: usize) -> Option<usize>
        ensures { result ≡ place_in self.now.coming node i }
    {
        self.coming.at(node.get(), i)
    }

    // The places from where those of the edges at a side of a node begin on.
    pub(crate) fn places_at(&self, node: Id, side: Side) -> &[PlaceAt]
        ensures { (i : ℕ) → run_at node result.now i ≡ slice_get (at_key node (ends_at side self.now)) i }
    {
        match side {
            Side::Leaving => self.leaving.from(node.get()),
            Side::Coming => self.coming.from(node.get()),
        }
    }

    // The places of the elements of a kind that have a label, ascending.
    pub(crate) fn labelled(&self, kind: Kind, label: &Name) -> &[usize]
        ensures { result.now ≡ places_of (labels_in self.now kind) label.now }
    {
        match kind {
            Kind::Node => self.node_labels.places(label),
            Kind::Edge => self.edge_labels.places(label),
            Kind::Path => self.path_labels.places(label),
        }
    }
}

// The identities of nodes, one beside the other: to look one up there touches less memory than to look up its node.
fn ids_of(alloc: Global, nodes: &[NodeInfo]) -> Result<Vec<Id>, Memory>
    ensures { IfOk result (λ ids. ids.items ≡ node_ids nodes.now) }
{
    let mut ids = Vec::with_capacity(alloc, nodes.len())?;
    for node in nodes {
        ids.push(node.id)?;
    }
    Ok(ids)
}

// The places of edges by their sources.
fn by_source(alloc: Global, edges: &[EdgeInfo]) -> Result<Places, Memory>
    ensures { IfOk result (AreEnds (λ e. e.from) (far_of Leaving) edges.now) }
{
    let mut places = Vec::with_capacity(alloc, edges.len())?;
    for (place, edge) in edges.iter().enumerate() {
        let key = edge.from.get();
        let far = edge.far_end(Side::Leaving);
        places.push(PlaceAt { key, place, far })?;
    }
    Places::of(places)
}

// The places of edges by their targets.
fn by_target(alloc: Global, edges: &[EdgeInfo]) -> Result<Places, Memory>
    ensures { IfOk result (AreEnds (λ e. e.to) (far_of Coming) edges.now) }
{
    let mut places = Vec::with_capacity(alloc, edges.len())?;
    for (place, edge) in edges.iter().enumerate() {
        let key = edge.to.get();
        let far = edge.far_end(Side::Coming);
        places.push(PlaceAt { key, place, far })?;
    }
    Places::of(places)
}
