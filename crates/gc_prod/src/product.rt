ghost use Rattle.std.specs.Prelude.{◌≡◌, ◌+◌, ◌<◌, IfOk, slice_get, slice_index, length, Some, map};
ghost use Rattle.std.specs.Prelude.{◌≤◌, ℕ};
ghost use Rattle.std.specs.List.{AllByRecursion, flat_map};
ghost use Rattle.std.specs.Option.{option_copied};
ghost use Rattle.std.specs.Ordering.{nat_cmp};
ghost use Rattle.gc_base.specs.Ascending.{Ascends};
ghost use Rattle.gc_spec.specs.PropertyGraph.{IsGraph, node_ids};
ghost use Rattle.gc_automata.specs.Moves.{IsNetwork, IsThere};
ghost use Rattle.gc_ppg.specs.Reads.{handed_out};
ghost use Rattle.gc_prod.specs.Landings.{Lands};
ghost use Rattle.gc_prod.specs.Preparing.{leg_bundle, leg_landing};
ghost use Rattle.gc_prod.specs.Products.{moved, moves_by};
ghost use Rattle.gc_prod.specs.Segments.{AreSegments};
ghost use Rattle.gc_prod.specs.SymbolHops.{segment_steps};

use crate::by_number::ByNumber;
use crate::moves::{Hop, Move};
use crate::places::place_of;
use crate::preparing::{Fan, Leg, by_state, legs};
use crate::segment::{Segment, SegmentList};
use gc_automata::Automaton;
use gc_base::{Id, Memory, Step, Steps};
use gc_ppg::{Graph, NodeInfo};
use std::alloc::Global;
use std::marker::Model;
use std::sync::ledger::Ledger;

/// The hops from a node along one transition, and the state to which that leads.
#[derive(Drop)]
pub struct Bundle<'a> {
    pub state: u32,
    pub hops: &'a [Hop],
}

impl<'a> Model for Bundle<'a> {
    ghost use Rattle.gc_prod.specs.Products.{Bundle as BundleAlone};

    ghost Value = { BundleAlone };

    ghost view = { λ b. record { state = b.state; hops = b.hops.now } };
}

/// The places of the nodes to which a bundle of hops leads, and the state to which that leads.
#[derive(Drop)]
pub struct Landing<'a> {
    pub state: u32,
    pub places: &'a [usize],
}

impl<'a> Model for Landing<'a> {
    ghost use Rattle.gc_prod.specs.Landings.{Landing as LandingAlone};

    ghost Value = { LandingAlone };

    ghost view = { λ l. record { state = l.state; places = l.places.now } };
}

/// A graph times an automaton, with segments of PATH views. Contracts see these three alone.
#[derive(Drop)]
pub struct Product<'a> {
    graph: &'a Graph,
    automaton: &'a Automaton,
    segments: &'a SegmentList,
    nodes: Vec<Id>,
    legs: ByNumber<Leg>,
    fans: Vec<Fan>,
    width: usize,
}

impl<'a> Model for Product<'a> {
    ghost use Rattle.gc_prod.specs.Products.{Setting};
    ghost use Rattle.gc_prod.specs.Preparing.{IsPrepared};

    ghost Value = { Setting };

    ghost view = { λ p. record { network = record { graph = p.graph.now; segments = p.segments.now }; machine = p.automaton.now } };

    ghost invariant = { λ p.
        IsPrepared (record { network = record { graph = p.graph.now; segments = p.segments.now }; machine = p.automaton.now }) p.nodes.items p.legs p.fans.items p.width };
}

impl<'a> Product<'a> {
    ghost use Rattle.gc_prod.specs.Products.{bundles, moves};

    /// The product of a graph, an automaton and segments of the graph. It goes over the graph once
    /// for each symbol of the automaton.
    pub fn of<L: Ledger>(
        alloc: Global,
        graph: &'a Graph,
        automaton: &'a Automaton,
        segments: &'a SegmentList,
        steps: &mut Steps<L>,
    ) -> Result<Product<'a>, Memory>
        requires { AreSegments graph.now segments.now }
        ensures { IfOk result (λ p. p ≡ record { network = record { graph = graph.now; segments = segments.now }; machine = automaton.now }) }
    {
        let nodes = node_list(alloc, graph, steps)?;
        let mut fans = Vec::new(alloc);
        let list = legs(alloc, graph, automaton, segments, &nodes, &mut fans, steps)?;
        let width = width_of(automaton.states(), &list);
        let legs = by_state(alloc, &list, width)?;
        Ok(Product {
            graph,
            automaton,
            segments,
            nodes,
            legs,
            fans,
            width,
        })
    }

    /// The identities of the nodes of the graph, ascending.
    pub fn nodes(&self) -> &[Id]
        ensures nodes { result.now ≡ node_ids self.now.network.graph.nodes }
        ensures ascend { Ascends nat_cmp (node_ids self.now.network.graph.nodes) }
        ensures graph { IsGraph self.now.network.graph }
        ensures network { IsNetwork self.now.network }
    {
        &self.nodes
    }

    /// How many states there are.
    pub fn states(&self) -> u32
        ensures { result ≡ self.now.machine.states }
    {
        self.automaton.states()
    }

    /// The segment of a number below how many there are.
    pub fn segment(&self, i: u32) -> &Segment
        requires { i < length self.now.network.segments }
        ensures { slice_get self.now.network.segments i ≡ Some result.now }
    {
        self.segments.at(i)
    }

    /// The steps of the segment of a number, or none where there is no such segment.
    pub fn segment_steps(&self, i: u32) -> &[Step]
        ensures { result.now ≡ segment_steps self.now.network.segments i }
    {
        match self.segments.as_slice().get(i as usize) {
            None => &[],
            Some(segment) => segment.walk.steps.as_slice(),
        }
    }

    /// A number above those of all states to which transitions lead, and at least that of the states.
    pub fn width(&self) -> usize
        ensures states { self.now.machine.states ≤ result }
        ensures some { 0 < result }
        ensures above { (node state : ℕ) → AllByRecursion (λ b. b.state < result) (bundles self.now node state) }
    {
        self.width
    }

    /// How many transitions leave a state, each of which has a bundle of hops at every node.
    pub fn bundle_count(&self, state: u32) -> usize
        ensures { (node : ℕ) → result ≡ length (bundles self.now node state) }
    {
        self.legs.at(state as usize).len()
    }

    /// The hops from a node along the j-th of the transitions that leave a state. Each hop takes a
    /// step. They lead to nodes of the graph.
    pub fn bundle<L: Ledger>(
        &self,
        node: Id,
        state: u32,
        j: usize,
        steps: &mut Steps<L>,
    ) -> Bundle<'_>
        requires { j < length (bundles self.now node state) }
        ensures exact { slice_get (bundles self.now node state) j ≡ Some result }
        ensures there { AllByRecursion (λ h. IsThere self.now.network h.to) result.hops }
        ensures step { steps.new ≡ steps.old + length result.hops }
    {
        let bundle = self.bundle_at(node, state, j);
        count(bundle.hops.len(), steps);
        bundle
    }

    /// Where the hops lead from the node at a place along the j-th of the transitions that leave a
    /// state: what the bundle says, by the places of the nodes. Each hop takes a step.
    pub fn landing<L: Ledger>(
        &self,
        place: usize,
        state: u32,
        j: usize,
        steps: &mut Steps<L>,
    ) -> Landing<'_>
        requires place { place < length (node_ids self.now.network.graph.nodes) }
        requires leg { j < length (bundles self.now (slice_index (node_ids self.now.network.graph.nodes) place) state) }
        ensures exact { Lands self.now place state j result }
        ensures within { AllByRecursion (λ p. p < length (node_ids self.now.network.graph.nodes)) result.places }
        ensures step { steps.new ≡ steps.old + length result.places }
    {
        let landing = self.landing_at(place, state, j);
        count(landing.places.len(), steps);
        landing
    }

    /// The i-th move of a pair of a node and a state, or `None` exactly past the last. The moves of a
    /// pair are ordered by the state moved to, and then by the number of the edge or segment. A move
    /// takes one step, and `None` takes none.
    pub fn move_at<L: Ledger>(
        &self,
        node: Id,
        state: u32,
        i: usize,
        steps: &mut Steps<L>,
    ) -> Option<Move>
        ensures exact { result ≡ slice_get (moves self.now node state) i }
        ensures step { steps.new ≡ steps.old + handed_out result }
    {
        let place = place_of(&self.nodes, node);
        let found = nth_move(&self.fans, self.legs.at(state as usize), place, i);
        if found.is_some() {
            steps.tick();
        }
        found
    }

    // The hops along a transition, uncounted.
    fn bundle_at(&self, node: Id, state: u32, j: usize) -> Bundle<'_>
        requires { j < length (bundles self.now node state) }
        ensures exact { slice_get (bundles self.now node state) j ≡ Some result }
        ensures network { IsNetwork self.now.network }
    {
        let place = place_of(&self.nodes, node);
        let legs = self.legs.at(state as usize);
        along(&self.fans, place, legs[j])
    }

    // Where the hops lead along a transition, uncounted.
    fn landing_at(&self, place: usize, state: u32, j: usize) -> Landing<'_>
        requires place { place < length (node_ids self.now.network.graph.nodes) }
        requires leg { j < length (bundles self.now (slice_index (node_ids self.now.network.graph.nodes) place) state) }
        ensures exact { Lands self.now place state j result }
        ensures within { AllByRecursion (λ p. p < length (node_ids self.now.network.graph.nodes)) result.places }
    {
        let legs = self.legs.at(state as usize);
        landed(&self.fans, place, legs[j])
    }
}

// A number above the states between which some legs lead, and at least the given one.
fn width_of(states: u32, legs: &[Leg]) -> usize
    ensures states { states ≤ result }
    ensures some { 0 < result }
    ensures above { AllByRecursion (λ leg. leg.to < result) legs.now }
    ensures left { AllByRecursion (λ leg. leg.from < result) legs.now }
{
    let mut width = (states as usize).max(1);
    for leg in legs {
        width = width.max(leg.from.max(leg.to) as usize + 1);
    }
    width
}

// The i-th move from the node at a place along some legs.
fn nth_move(fans: &[Fan], legs: &[Leg], place: usize, i: usize) -> Option<Move>
    ensures { result ≡ slice_get (flat_map moves_by (map (leg_bundle fans.now place) legs.now)) i }
{
    let mut left = i;
    for leg in legs {
        let bundle = along(fans, place, *leg);
        if left < bundle.hops.len() {
            return Some(move_by(bundle.state, bundle.hops[left]));
        }
        left -= bundle.hops.len();
    }
    None
}

fn move_by(state: u32, hop: Hop) -> Move
    ensures { result ≡ moved state hop }
{
    Move {
        node: hop.to,
        state,
        cost: hop.cost,
        by: hop.by,
    }
}

// The hops from the node at a place along a leg.
fn along(fans: &[Fan], place: usize, leg: Leg) -> Bundle<'_>
    ensures { result ≡ leg_bundle fans.now place leg }
{
    let state = leg.to;
    match fans.get(leg.fan) {
        None => Bundle { state, hops: &[] },
        Some(fan) => Bundle {
            state,
            hops: fan.hops.at(place),
        },
    }
}

// Where the hops lead from the node at a place along a leg.
fn landed(fans: &[Fan], place: usize, leg: Leg) -> Landing<'_>
    ensures { result ≡ leg_landing fans.now place leg }
{
    let state = leg.to;
    match fans.get(leg.fan) {
        None => Landing { state, places: &[] },
        Some(fan) => Landing {
            state,
            places: fan.targets.at(place),
        },
    }
}

// Counts so many steps.
fn count<L: Ledger>(n: usize, steps: &mut Steps<L>)
    ensures { steps.new ≡ steps.old + n }
{
    for _ in 0..n {
        steps.tick();
    }
}

// The identities of the nodes, ascending.
fn node_list<L: Ledger>(
    alloc: Global,
    graph: &Graph,
    steps: &mut Steps<L>,
) -> Result<Vec<Id>, Memory>
    ensures exact { IfOk result (λ nodes. nodes.items ≡ node_ids graph.now.nodes) }
    ensures valid { IsGraph graph.now }
{
    let mut nodes = Vec::with_capacity(alloc, graph.node_count())?;
    for i in 0..graph.node_count() {
        nodes.push(id_of(graph.node(i, steps)))?;
    }
    Ok(nodes)
}

fn id_of(node: &NodeInfo) -> Id
    ensures { result ≡ node.now.id }
{
    node.id
}
