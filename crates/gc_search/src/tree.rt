ghost use Rattle.std.specs.Prelude.{◌≡◌, ◌⊎◌, ◌+◌, ◌^◌, ◌<◌, ◌≤◌, ◌++◌, ◌∷◌, [], ℕ, List, length, slice_get, true, Some, IfOk, IfSome, OnErr, OnOk};
ghost use Rattle.std.specs.Ordering.{nat_cmp};
ghost use Rattle.std.specs.Cmp.Lexicographic.{slice_cmp};
ghost use Rattle.gc_prod.specs.Products.{Setting};
ghost use Rattle.gc_search.specs.Arrivals.{FoundWalk, extended, IsLowAt, Told};
ghost use Rattle.gc_search.specs.Links.{numbered, walk_of, IsNumber, IsTold, IsWayOf};
ghost use Rattle.gc_search.specs.Ranks.{AreNoLater};
ghost use Rattle.gc_search.specs.Tails.{edges_by, edges_if, edges_told, tail_edges, IsLevelOrder, IsTail};

use crate::comparing::repeats_last;
use crate::link::Link;
use crate::tail::{Tail, edge_count};
use crate::way::add_move_back;
use gc_base::{Memory, Step};
use gc_prod::{By, Move, Pair, Product};
use std::alloc::Global;
use std::cmp::Ordering;
use std::marker::Model;

// The walks that are settled, in the order in which they were. Each extends an earlier one by a move, and
// is kept as the number of that one and the move, so walks share their beginnings. Each has a rank: where
// two have one cost and equally many edges, their ranks tell the order of these, so that nothing before
// them need be looked at. Contracts see the product and the walks.
#[derive(Drop)]
pub(crate) struct WalkTree<'a> {
    pub(crate) product: &'a Product<'a>,
    links: Vec<Link>,
    ranks: Vec<usize>,
}

impl<'a> Model for WalkTree<'a> {
    ghost use Rattle.gc_search.specs.Links.{Walks, told};
    ghost use Rattle.gc_search.specs.Ranks.{IsRankedTree};

    ghost Value = { Walks };

    ghost view = { λ t. record { setting = t.product.now; walks = told t.product.now t.links.items } };

    ghost invariant = { λ t. IsRankedTree t.product.now t.links.items t.ranks.items };
}

impl<'a> WalkTree<'a> {
    // No walk is settled.
    pub(crate) fn of(alloc: Global, product: &'a Product<'a>) -> WalkTree<'a>
        ensures { result ≡ record { setting = product.now; walks = [] } }
    {
        WalkTree {
            product,
            links: Vec::new(alloc),
            ranks: Vec::new(alloc),
        }
    }

    // How many walks are settled.
    pub(crate) fn count(&self) -> usize
        ensures exact { result ≡ length self.now.walks }
        ensures few { result < 2 ^ 63 }
    {
        self.links.len()
    }

    // The walk at a place, as it is told by an earlier one.
    pub(crate) fn at(&self, place: usize) -> &Link
        requires { place < length self.now.walks }
        ensures exact { slice_get self.now.walks place ≡ Some (walk_of self.now.setting self.now.walks result.now) }
        ensures told { IsTold self.now.setting self.now.walks result.now }
        ensures earlier { result.now.before ≤ place }
    {
        &self.links[place]
    }

    // Settles a walk behind the others, which come no later.
    pub(crate) fn push(&mut self, next: Link) -> Result<(), Memory>
        requires told { IsTold self.old.setting self.old.walks next }
        requires later { AreNoLater self.old.walks (walk_of self.old.setting self.old.walks next) }
        ensures ok { OnOk result (self.new ≡ record self.old { walks = self.old.walks ++ walk_of self.old.setting self.old.walks next ∷ [] }) }
        ensures err { OnErr result (self.new ≡ self.old) }
    {
        let rank = if repeats_last(self, &next) {
            self.ranks[self.ranks.len() - 1]
        } else {
            self.ranks.len()
        };
        self.links.push(next)?;
        match self.ranks.push(rank) {
            Ok(()) => Ok(()),
            Err(_) => {
                self.links.pop();
                Err(Memory)
            }
        }
    }

    // Takes the last walk away, if there is one.
    pub(crate) fn pop(&mut self)
        ensures setting { self.new.setting ≡ self.old.setting }
        ensures walks { (walks : List FoundWalk) (a : FoundWalk) → self.old.walks ≡ walks ++ a ∷ [] → self.new.walks ≡ walks }
    {
        self.links.pop();
        self.ranks.pop();
    }

    // The order of two settled walks with equally many edges by these, as their ranks tell it where both
    // cost the same.
    pub(crate) fn ranked(&self, one: usize, other: usize) -> Option<Ordering>
        requires first { IsNumber self.now.walks one }
        requires second { IsNumber self.now.walks other }
        requires level { length (edges_if (numbered self.now.walks one)) ≡ length (edges_if (numbered self.now.walks other)) }
        ensures { IfSome result (λ order.
            order ≡ slice_cmp nat_cmp (edges_if (numbered self.now.walks one)) (edges_if (numbered self.now.walks other))) }
    {
        if self.at(one - 1).cost == self.at(other - 1).cost {
            Some(self.ranks[one - 1].cmp(&self.ranks[other - 1]))
        } else {
            None
        }
    }

    // The order of two settled walks by their edges, as their ranks tell it where both cost the same and
    // have equally many. The number 0 is that of none.
    pub(crate) fn ranked_alike(&self, one: usize, other: usize) -> Option<Ordering>
        ensures { IfSome result (IsLevelOrder self.now.walks one other) }
    {
        if !self.has(one)
            || !self.has(other)
            || self.edges_before(one) != self.edges_before(other)
        {
            return None;
        }
        self.ranked(one, other)
    }

    // The walk that a walk repeats by moves that stay, or itself.
    pub(crate) fn moved(&self, link: &Link) -> Link
        ensures { edges_told self.now.setting self.now.walks result ≡ edges_told self.now.setting self.now.walks link.now }
    {
        let mut moved = *link;
        while stays(moved.by) && self.has(moved.before) {
            moved = *self.at(moved.before - 1);
        }
        moved
    }

    // The walk at a place, and a move behind it. A walk of 2^64 edges has no room in memory.
    pub(crate) fn extended(&self, place: usize, by: Move) -> Result<Link, Memory>
        requires within { place < length self.now.walks }
        requires low { IsLowAt self.now.walks place }
        ensures exact { IfOk result (λ longer. (a : FoundWalk) → slice_get self.now.walks place ≡ Some a
            → walk_of self.now.setting self.now.walks longer ≡ extended self.now.setting a by) }
        ensures told { IfOk result (IsTold self.now.setting self.now.walks) }
        ensures small { by.cost < 2 ^ 64 }
    {
        let _few = self.count();
        let last = *self.at(place);
        let Some(edges) = last.edges.checked_add(edge_count(self.product, by.by)) else {
            return Err(Memory);
        };
        Ok(Link {
            at: Pair {
                node: by.node,
                state: by.state,
            },
            cost: last.cost + u128::from(by.cost),
            edges,
            before: place + 1,
            by: by.by,
        })
    }

    // The whole of a walk: all edges of the move by which it extends a settled one.
    pub(crate) fn tail(&self, link: &Link) -> Tail
        ensures edges { tail_edges self.now.setting self.now.walks result ≡ edges_told self.now.setting self.now.walks link.now }
        ensures is { IsTail self.now.setting self.now.walks result }
        ensures earlier { result.before ≤ link.now.before }
    {
        if self.has(link.before) {
            Tail {
                before: link.before,
                by: link.by,
                left: edge_count(self.product, link.by),
            }
        } else {
            Tail {
                before: 0,
                by: link.by,
                left: 0,
            }
        }
    }

    // Whether a settled walk has a number.
    fn has(&self, number: usize) -> bool
        ensures { Told result (IsNumber self.now.walks number) ((number ≡ 0) ⊎ (length self.now.walks < number)) }
    {
        number > 0 && number <= self.links.len()
    }

    // The whole of the settled walk of a number above 0.
    pub(crate) fn opened(&self, number: usize) -> Tail
        requires { IsNumber self.now.walks number }
        ensures edges { tail_edges self.now.setting self.now.walks result ≡ edges_if (numbered self.now.walks number) }
        ensures is { IsTail self.now.setting self.now.walks result }
        ensures earlier { result.before < number }
    {
        self.tail(self.at(number - 1))
    }

    // How many edges the beginning of a walk has.
    pub(crate) fn length_of(&self, tail: &Tail) -> u128
        requires { IsTail self.now.setting self.now.walks tail.now }
        ensures { result ≡ length (tail_edges self.now.setting self.now.walks tail.now) }
    {
        self.edges_before(tail.before) as u128 + tail.left as u128
    }

    // How many edges the settled walk of a number has, or none where the number is 0.
    fn edges_before(&self, number: usize) -> usize
        requires { number ≤ length self.now.walks }
        ensures { result ≡ length (edges_if (numbered self.now.walks number)) }
    {
        if number == 0 {
            0
        } else {
            self.at(number - 1).edges
        }
    }

    // The steps of the walk at a place. They are met from the last to the first.
    pub(crate) fn steps(&self, place: usize) -> Result<Vec<Step>, Memory>
        requires { place < length self.now.walks }
        ensures { IfOk result (λ steps. (a : FoundWalk) → slice_get self.now.walks place ≡ Some a → a.steps ≡ steps.items) }
    {
        let mut link = *self.at(place);
        let mut steps = Vec::with_capacity(*self.links.allocator(), link.edges)?;
        while link.before > 0 {
            add_move_back(self.product, link.by, link.at.node, &mut steps)?;
            link = *self.at(link.before - 1);
        }
        steps.reverse();
        Ok(steps)
    }

    // The moves of the walk at a place, the last first, each with the walk that it leads to.
    pub(crate) fn way(&self, place: usize) -> Result<Vec<Link>, Memory>
        requires { place < length self.now.walks }
        ensures { IfOk result (λ way. IsWayOf self.now place way.items) }
    {
        let mut way = Vec::new(*self.links.allocator());
        let mut link = *self.at(place);
        while link.before > 0 {
            way.push(link)?;
            link = *self.at(link.before - 1);
        }
        Ok(way)
    }
}

// Whether a move stays at its node.
fn stays(by: By) -> bool
    ensures { result ≡ true → (setting : Setting) → edges_by setting by ≡ [] }
{
    matches!(by, By::Nothing)
}
