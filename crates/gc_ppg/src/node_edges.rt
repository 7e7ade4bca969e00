ghost use Rattle.std.specs.Prelude.{◌≡◌, ◌+◌, ◌≤◌, ◌<◌, ◌==◌, ℕ, IfSome, Some, None, slice_get, if◌then◌else◌};
ghost use Rattle.std.specs.Option.{option_copied, option_and_then, option_map};
ghost use Rattle.gc_ppg.specs.KeyedPlaces.{run_at};
ghost use Rattle.gc_ppg.specs.NodeSides.{ArePlacesAt, edges_at, far_end, far_of};
ghost use Rattle.gc_ppg.specs.declared.node_edges.FarEnd.{FarEnd};
ghost use Rattle.gc_ppg.specs.Reads.{handed_out};

use crate::element::EdgeInfo;
use crate::graph::{counted, nth_coming, nth_leaving};
use crate::places::PlaceAt;
use gc_base::{Id, Steps};
use std::marker::Model;
use std::sync::ledger::Ledger;

/// A side of a node: the edges that leave it, or those that come to it.
#[derive(Clone, Copy)]
pub enum Side {
    Leaving,
    Coming,
}

/// An edge as it is seen from a node: its identity, and the node at its other end.
#[derive(Clone, Copy, Debug)]
pub struct FarEnd {
    pub edge: Id,
    pub node: Id,
}

/// The edges at a side of a node, by ascending identity. Contracts see the side and the list.
#[derive(Drop)]
pub struct NodeEdges<'a> {
    edges: &'a [EdgeInfo],
    side: Side,
    node: Id,
    places: Option<&'a [PlaceAt]>,
}

impl<'a> Model for NodeEdges<'a> {
    ghost use Rattle.gc_ppg.specs.NodeSides.{SideEdges};

    ghost Value = { SideEdges };

    ghost use Rattle.gc_ppg.specs.NodeSides.{ArePlacesAt, edges_at};
    ghost use Rattle.std.specs.Prelude.{IfSome};

    ghost view = { λ n. record { side = n.side; all = edges_at n.side n.node n.edges.now } };

    ghost invariant = { λ n. IfSome n.places (λ places. ArePlacesAt n.side n.node n.edges.now places.now) };
}

impl<'a> NodeEdges<'a> {
    // Those at places among all edges.
    pub(crate) fn placed(
        edges: &'a [EdgeInfo],
        side: Side,
        node: Id,
        places: &'a [PlaceAt],
    ) -> NodeEdges<'a>
        requires { ArePlacesAt side node edges.now places.now }
        ensures { result ≡ record { side = side; all = edges_at side node edges.now } }
    {
        NodeEdges {
            edges,
            side,
            node,
            places: Some(places),
        }
    }

    // Those among all edges, which are gone over for each.
    pub(crate) fn gone_over(edges: &'a [EdgeInfo], side: Side, node: Id) -> NodeEdges<'a>
        ensures { result ≡ record { side = side; all = edges_at side node edges.now } }
    {
        NodeEdges {
            edges,
            side,
            node,
            places: None,
        }
    }

    /// The i-th edge, or `None` exactly where there is none. An edge takes one step.
    pub fn get<L: Ledger>(&self, i: usize, steps: &mut Steps<L>) -> Option<&'a EdgeInfo>
        ensures edge { option_copied result ≡ slice_get self.now.all i }
        ensures step { steps.new ≡ steps.old + handed_out result }
    {
        counted(self.nth(i), steps)
    }

    /// The i-th edge as it is seen from the node, or `None` exactly where there is none. It takes one step as the
    /// edge does, which is not read where an index tells of it.
    pub fn far_end<L: Ledger>(&self, i: usize, steps: &mut Steps<L>) -> Option<FarEnd>
        ensures end { result ≡ option_map (far_of self.now.side) (slice_get self.now.all i) }
        ensures step { steps.new ≡ steps.old + handed_out result }
    {
        let found = self.nth_end(i);
        if found.is_some() {
            steps.tick();
        }
        found
    }

    fn nth_end(&self, i: usize) -> Option<FarEnd>
        ensures { result ≡ option_map (far_of self.now.side) (slice_get self.now.all i) }
    {
        match self.places {
            Some(places) => end_at(run_at(places, i, self.node)),
            None => end_of(self.side, nth_at(self.edges, self.side, self.node, i)),
        }
    }

    fn nth(&self, i: usize) -> Option<&'a EdgeInfo>
        ensures { option_copied result ≡ slice_get self.now.all i }
    {
        match self.places {
            Some(places) => edge_at(self.edges, run_at(places, i, self.node)),
            None => nth_at(self.edges, self.side, self.node, i),
        }
    }

    /// The first number from one on at which the edge may lead to another node; what is passed over does not. It
    /// hands out no edge.
    pub fn next_to(&self, i: usize, other: Id) -> usize
        ensures later { i ≤ result }
        ensures passed { (k : ℕ) → i ≤ k → k < result → IfSome (slice_get self.now.all k) (λ e. far_end self.now.side e ≡ other → ⊥) }
    {
        match self.places {
            Some(places) => next_at(places, i, self.node, other),
            None => i,
        }
    }
}

// The i-th place, if it is of a node.
fn run_at(places: &[PlaceAt], i: usize, node: Id) -> Option<PlaceAt>
    ensures { result ≡ run_at node places.now i }
{
    match places.get(i) {
        Some(place) => of_node(*place, node),
        None => None,
    }
}

fn of_node(place: PlaceAt, node: Id) -> Option<PlaceAt>
    ensures { result ≡ (if place.key == node then Some place else None) }
{
    if place.key == node.get() {
        Some(place)
    } else {
        None
    }
}

// The edge at a place, if there is one.
fn edge_at(edges: &[EdgeInfo], place: Option<PlaceAt>) -> Option<&EdgeInfo>
    ensures { option_copied result ≡ option_and_then (slice_get edges.now) (option_map (λ p. p.place) place) }
{
    match place {
        Some(place) => edges.get(place.place),
        None => None,
    }
}

// The far end of which a place tells, if there is one.
fn end_at(place: Option<PlaceAt>) -> Option<FarEnd>
    ensures { result ≡ option_map (λ p. p.far) place }
{
    match place {
        Some(place) => Some(place.far),
        None => None,
    }
}

// The far end of an edge, if there is one.
fn end_of(side: Side, edge: Option<&EdgeInfo>) -> Option<FarEnd>
    ensures { result ≡ option_map (far_of side) (option_copied edge.entry) }
{
    match edge {
        Some(edge) => Some(edge.far_end(side)),
        None => None,
    }
}

// The i-th edge at a side of a node, by going over all.
fn nth_at(edges: &[EdgeInfo], side: Side, node: Id, i: usize) -> Option<&EdgeInfo>
    ensures { option_copied result ≡ slice_get (edges_at side node edges.now) i }
{
    match side {
        Side::Leaving => nth_leaving(edges, node, i),
        Side::Coming => nth_coming(edges, node, i),
    }
}

// The first number from one on of a place with another end, or past those of the node.
fn next_at(places: &[PlaceAt], i: usize, node: Id, other: Id) -> usize
    ensures later { i ≤ result }
    ensures passed { (k : ℕ) → i ≤ k → k < result → IfSome (run_at node places.now k) (λ p. p.far.node ≡ other → ⊥) }
{
    let mut at = i;
    while at < places.len() && places[at].key == node.get() && places[at].far.node != other {
        at += 1;
    }
    at
}
