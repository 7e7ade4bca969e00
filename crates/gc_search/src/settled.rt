ghost use Rattle.std.specs.Prelude.{◌≡◌, ◌+◌, ◌*◌, ◌^◌, ◌<◌, ◌++◌, ◌∷◌, [], length, nat_lt, replicate, true, slice_get, slice_index, IfOk, IfSome, OnOk};
ghost use Rattle.std.specs.Option.{option_and_then};
ghost use Rattle.std.specs.Ordering.{nat_cmp};
ghost use Rattle.gc_base.specs.Ascending.{Ascends};
ghost use Rattle.gc_search.specs.Arrivals.{arrivals_at, IsNotLast, IsSeen, Told};
ghost use Rattle.gc_search.specs.Links.{walk_of, IsTold};
ghost use Rattle.gc_search.specs.Places.{place_in, number_of, places_from, IsFresh, IsNumbered};
ghost use Rattle.gc_search.specs.Ranks.{AreNoLater};

use crate::comparing::have_same_edges;
use crate::link::Link;
use crate::tree::WalkTree;
use gc_base::{Id, Memory, Sequence};
use gc_prod::{Pair, Product};
use std::alloc::Global;
use std::marker::Model;

// The walks that are settled, in the order in which they were, and for each pair of a node and a state
// the places of those that arrive at it. Contracts see the product, the nodes, the number above the
// states, and the walks.
#[derive(Drop)]
pub(crate) struct Settled<'a> {
    pub(crate) tree: WalkTree<'a>,
    nodes: &'a [Id],
    width: usize,
    places: Vec<Sequence<usize>>,
}

impl<'a> Model for Settled<'a> {
    ghost use Rattle.gc_search.specs.Places.{Listing, IsListed};

    ghost Value = { Listing };

    ghost view = { λ s. record { setting = s.tree.setting; nodes = s.nodes.now; width = s.width; walks = s.tree.walks } };

    ghost invariant = { λ s. IsListed s.nodes.now s.width s.tree.walks s.places.items };
}

impl<'a> Settled<'a> {
    // No walk is settled. There is a list for each node of a product and each state below a number.
    pub(crate) fn of(alloc: Global, product: &'a Product<'a>) -> Result<Settled<'a>, Memory>
        ensures { IfOk result (λ settled. IsFresh product.now settled) }
    {
        let nodes = product.nodes();
        let width = product.width();
        let Some(size) = nodes.len().checked_mul(width) else {
            return Err(Memory);
        };
        let places = empty_lists(alloc, size)?;
        Ok(Settled {
            tree: WalkTree::of(alloc, product),
            nodes,
            width,
            places,
        })
    }

    // Whether the edges of a walk are those of one that is settled at its pair.
    pub(crate) fn is_seen(&self, next: &Link) -> bool
        ensures { Told result (IsSeen self.now.walks (walk_of self.now.setting self.now.walks next.now))
            (IsSeen self.now.walks (walk_of self.now.setting self.now.walks next.now) → ⊥) }
    {
        let places = self.places_at(&next.at);
        for i in 0..places.len() {
            if have_same_edges(&self.tree, self.tree.at(places[i]), next) {
                return true;
            }
        }
        false
    }

    // Whether the edges of a walk are those of the last one that is settled at its pair.
    pub(crate) fn is_last(&self, next: &Link) -> bool
        ensures { Told result (IsSeen self.now.walks (walk_of self.now.setting self.now.walks next.now))
            (IsNotLast self.now.walks (walk_of self.now.setting self.now.walks next.now)) }
    {
        let places = self.places_at(&next.at);
        if places.len() == 0 {
            return false;
        }
        let last = self.tree.at(places[places.len() - 1]);
        have_same_edges(&self.tree, last, next)
    }

    // How many are settled at a pair.
    pub(crate) fn count_at(&self, at: &Pair) -> usize
        ensures exact { result ≡ length (arrivals_at self.now.walks at.now) }
        ensures few { length self.now.walks < 2 ^ 63 }
    {
        let _few = self.tree.count();
        self.places_at(at).len()
    }

    // Whether fewer than k are settled at a pair.
    pub(crate) fn has_room(&self, at: &Pair, k: u32) -> bool
        ensures { result ≡ nat_lt (length (arrivals_at self.now.walks at.now)) k }
    {
        self.count_at(at) < k as usize
    }

    // The place of the i-th of those that are settled at a pair.
    pub(crate) fn place(&self, at: &Pair, i: usize) -> Option<usize>
        ensures exact { option_and_then (slice_get self.now.walks) result ≡ slice_get (arrivals_at self.now.walks at.now) i }
        ensures within { IfSome result (λ place. place < length self.now.walks) }
    {
        match self.places_at(at).get(i) {
            None => None,
            Some(place) => Some(*place),
        }
    }

    // Settles a walk behind the others, which come no later. Its pair has a number.
    pub(crate) fn push(&mut self, next: &Link) -> Result<(), Memory>
        requires number { IsNumbered self.old.nodes self.old.width next.now.at }
        requires told { IsTold self.old.setting self.old.walks next.now }
        requires later { AreNoLater self.old.walks (walk_of self.old.setting self.old.walks next.now) }
        ensures { OnOk result (self.new ≡ record self.old { walks = self.old.walks ++ walk_of self.old.setting self.old.walks next.now ∷ [] }) }
    {
        let Some(number) = number_of(self.nodes, self.width, &next.at) else {
            unreachable!()
        };
        let place = self.tree.count();
        self.tree.push(*next)?;
        match self.places[number].push(place) {
            Ok(()) => Ok(()),
            Err(refused) => {
                self.tree.pop();
                Err(refused)
            }
        }
    }

    // The places of those that are settled at a pair.
    fn places_at(&self, at: &Pair) -> &[usize]
        ensures { result.now ≡ places_from 0 self.now.walks at.now }
    {
        match number_of(self.nodes, self.width, at) {
            None => &[],
            Some(number) => self.places[number].as_slice(),
        }
    }
}

// So many lists of no places.
fn empty_lists(alloc: Global, size: usize) -> Result<Vec<Sequence<usize>>, Memory>
    ensures { IfOk result (λ lists. lists.items ≡ replicate size []) }
{
    let mut lists = Vec::with_capacity(alloc, size)?;
    for _ in 0..size {
        lists.push(Sequence::new(alloc))?;
    }
    Ok(lists)
}

// The number of a pair, if its node is among some and its state below a number.
fn number_of(nodes: &[Id], width: usize, at: &Pair) -> Option<usize>
    requires ascend { Ascends nat_cmp nodes.now }
    requires room { length nodes.now * width < 2 ^ 64 }
    ensures exact { result ≡ number_of nodes.now width at.now }
    ensures within { IfSome result (λ n. n < length nodes.now * width) }
{
    let state = at.state as usize;
    if state < width {
        match place_of(nodes, at.node) {
            None => None,
            Some(place) => Some(place * width + state),
        }
    } else {
        None
    }
}

// The place of a node among ascending ones. Where they are close together, it is looked for first where
// it stands if none is left out.
fn place_of(nodes: &[Id], node: Id) -> Option<usize>
    requires { Ascends nat_cmp nodes.now }
    ensures exact { result ≡ place_in nodes.now node }
    ensures within { IfSome result (λ place. place < length nodes.now) }
{
    let guess = guessed(nodes, node);
    if stands_at(nodes, guess, node) {
        Some(guess)
    } else {
        halved(nodes, node)
    }
}

fn guessed(nodes: &[Id], node: Id) -> usize {
    match nodes.first() {
        None => 0,
        Some(first) => node.get().saturating_sub(first.get()) as usize,
    }
}

fn stands_at(nodes: &[Id], place: usize, node: Id) -> bool
    ensures within { result ≡ true → place < length nodes.now }
    ensures there { result ≡ true → slice_index nodes.now place ≡ node }
{
    place < nodes.len() && nodes[place] == node
}

// The same by halving.
fn halved(nodes: &[Id], node: Id) -> Option<usize>
    requires { Ascends nat_cmp nodes.now }
    ensures exact { result ≡ place_in nodes.now node }
    ensures within { IfSome result (λ place. place < length nodes.now) }
{
    match nodes.binary_search_by(|other| other.cmp(&node)) {
        Ok(place) => Some(place),
        Err(_) => None,
    }
}
