ghost use Rattle.std.specs.Prelude.{◌≡◌, ◌+◌, ◌*◌, ◌^◌, ◌<◌, ◌≤◌, [], length, map, true, IfOk, IfSome, OnOk, slice_get, slice_index, replicate, false};
ghost use Rattle.std.specs.List.{AllByRecursion, filter};
ghost use Rattle.std.specs.Option.{option_map};
ghost use Rattle.std.specs.Ordering.{nat_cmp};
ghost use Rattle.gc_base.specs.Ascending.{Ascends};
ghost use Rattle.gc_spec.specs.PropertyGraph.{is_among};
ghost use Rattle.gc_prod.specs.Leading.{pair};
ghost use Rattle.gc_reach.specs.Marking.{IsSpot, pair_at};
ghost use Rattle.gc_reach.specs.Numbering.{number_of, IsNumbered};

use gc_base::{Id, Memory};
use gc_prod::{Pair, place_of};
use std::alloc::Global;
use std::marker::Model;

// The place of a node, and a state.
#[derive(Clone, Copy)]
pub(crate) struct Spot {
    pub(crate) place: usize,
    pub(crate) state: u32,
}

// Which pairs of a node and a state are marked, in the order of their marking. One mark for each pair
// that there may be stands in one array, those of one state together, by the places of their nodes.
// Contracts see the pairs; kept are the places of their nodes.
#[derive(Drop)]
pub(crate) struct Marks<'a> {
    nodes: &'a [Id],
    width: usize,
    marked: Vec<bool>,
    spots: Vec<Spot>,
}

impl<'a> Model for Marks<'a> {
    ghost use Rattle.std.specs.Prelude.{map};
    ghost use Rattle.gc_reach.specs.Marking.{Marking, AreMarks, pair_at};

    ghost Value = { Marking };

    ghost view = { λ m. record { nodes = m.nodes.now; width = m.width; pairs = map (pair_at m.nodes.now) m.spots.items } };

    ghost invariant = { λ m. AreMarks m.nodes.now m.width m.marked.items m.spots.items };
}

impl<'a> Marks<'a> {
    ghost use Rattle.gc_reach.specs.Marking.{visit, has_pair};

    // No pair of these nodes and of states below a number is marked.
    pub(crate) fn of(alloc: Global, nodes: &'a [Id], width: usize) -> Result<Marks<'a>, Memory>
        requires { Ascends nat_cmp nodes.now }
        ensures { IfOk result (λ m. m ≡ record { nodes = nodes.now; width = width; pairs = [] }) }
    {
        let Some(size) = nodes.len().checked_mul(width) else {
            return Err(Memory);
        };
        let marked = vec![in alloc; false; size]?;
        let spots = Vec::new(alloc);
        Ok(Marks {
            nodes,
            width,
            marked,
            spots,
        })
    }

    // How many pairs there may be.
    pub(crate) fn size(&self) -> usize
        ensures { result ≡ length self.now.nodes * self.now.width }
    {
        self.marked.len()
    }

    // The i-th pair that was marked, by the place of its node. There are no more marked than there
    // may be.
    pub(crate) fn at(&self, i: usize) -> Option<Spot>
        ensures exact { option_map (pair_at self.now.nodes) result ≡ slice_get self.now.pairs i }
        ensures placed { IfSome result (IsSpot self.now.nodes self.now.width) }
        ensures within { length self.now.pairs ≤ length self.now.nodes * self.now.width }
        ensures few { length self.now.pairs < 2 ^ 64 }
    {
        let _marked = self.marked.len();
        self.spots.get(i).copied()
    }

    // The marked pairs by the places of their nodes, in the order of their marking. Each has a number.
    pub(crate) fn spots(&self) -> &[Spot]
        ensures pairs { map (pair_at self.now.nodes) result.now ≡ self.now.pairs }
        ensures placed { AllByRecursion (IsSpot self.now.nodes self.now.width) result.now }
        ensures numbered { AllByRecursion (IsNumbered self.now.nodes self.now.width) self.now.pairs }
    {
        &self.spots
    }

    // The pair of the node at a place and a state.
    pub(crate) fn pair(&self, spot: Spot) -> Pair
        requires { IsSpot self.now.nodes self.now.width spot }
        ensures { result ≡ pair_at self.now.nodes spot }
    {
        pair_of(self.nodes, spot)
    }

    // The number of the pair of a node and a state.
    pub(crate) fn number(&self, node: Id, state: u32) -> usize
        requires node { is_among self.now.nodes node ≡ true }
        requires state { state < self.now.width }
        ensures { result ≡ number_of self.now.nodes self.now.width (pair node state) }
    {
        let place = place_of(self.nodes, node);
        self.number_at(Spot { place, state })
    }

    // The number of the pair of the node at a place and a state.
    pub(crate) fn number_at(&self, spot: Spot) -> usize
        requires { IsSpot self.now.nodes self.now.width spot }
        ensures { result ≡ number_of self.now.nodes self.now.width (pair_at self.now.nodes spot) }
    {
        spot.place * self.width + spot.state as usize
    }

    // Marks the pair of a node and a state, behind the others, where it is not marked yet.
    pub(crate) fn mark(&mut self, node: Id, state: u32) -> Result<(), Memory>
        requires node { is_among self.old.nodes node ≡ true }
        requires state { state < self.old.width }
        ensures { OnOk result (self.new ≡ record self.old { pairs = visit self.old.pairs (pair node state) }) }
    {
        let place = place_of(self.nodes, node);
        self.mark_at(place, state)
    }

    // Marks the pair of the node at a place and a state, behind the others, where it is not marked yet.
    pub(crate) fn mark_at(&mut self, place: usize, state: u32) -> Result<(), Memory>
        requires place { place < length self.old.nodes }
        requires state { state < self.old.width }
        ensures { OnOk result (self.new ≡ record self.old { pairs = visit self.old.pairs (pair (slice_index self.old.nodes place) state) }) }
    {
        let start = self.start_of(state);
        self.mark_from(start, place, state)
    }

    // Where the marks of the pairs of a state start.
    pub(crate) fn start_of(&self, state: u32) -> usize
        requires { state < self.now.width }
        ensures { result ≡ state * length self.now.nodes }
    {
        state as usize * self.nodes.len()
    }

    // The same as `mark_at`, where it is told at which mark those of the state start. Where many pairs
    // of one state are marked, that is found once.
    #[inline(always)]
    pub(crate) fn mark_from(&mut self, start: usize, place: usize, state: u32) -> Result<(), Memory>
        requires start { start ≡ state * length self.old.nodes }
        requires place { place < length self.old.nodes }
        requires state { state < self.old.width }
        ensures { OnOk result (self.new ≡ record self.old { pairs = visit self.old.pairs (pair (slice_index self.old.nodes place) state) }) }
    {
        let _marked = self.marked.len();
        let at = start + place;
        if !self.marked[at] {
            self.spots.push(Spot { place, state })?;
            self.marked[at] = true;
        }
        Ok(())
    }

    // Whether the pair of a node and a state is marked.
    pub(crate) fn has_pair(&self, node: Id, state: u32) -> bool
        requires node { is_among self.now.nodes node ≡ true }
        requires state { state < self.now.width }
        ensures { result ≡ has_pair self.now.pairs (pair node state) }
    {
        self.has(place_of(self.nodes, node), state)
    }

    // The nodes whose pairs with a state are marked, in their order.
    pub(crate) fn nodes_with(&self, alloc: Global, state: u32) -> Result<Vec<Id>, Memory>
        requires { state < self.now.width }
        ensures { IfOk result (λ found. found.items ≡ filter (λ node. has_pair self.now.pairs (pair node state)) self.now.nodes) }
    {
        let mut found = Vec::new(alloc);
        for place in 0..self.nodes.len() {
            if self.has(place, state) {
                found.push(self.nodes[place])?;
            }
        }
        Ok(found)
    }

    // Whether the pair of the node at a place and a state is marked.
    pub(crate) fn has(&self, place: usize, state: u32) -> bool
        requires place { place < length self.now.nodes }
        requires state { state < self.now.width }
        ensures { result ≡ has_pair self.now.pairs (pair (slice_index self.now.nodes place) state) }
    {
        self.marked[self.start_of(state) + place]
    }
}

// The pair of one of some nodes and a state.
fn pair_of(nodes: &[Id], spot: Spot) -> Pair
    requires { spot.place < length nodes.now }
    ensures { result ≡ pair_at nodes.now spot }
{
    Pair {
        node: nodes[spot.place],
        state: spot.state,
    }
}
