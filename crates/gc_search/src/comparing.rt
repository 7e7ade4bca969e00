ghost use Rattle.std.specs.Prelude.{◌≡◌, ◌<◌, IfSome};
ghost use Rattle.std.specs.Ordering.{nat_cmp};
ghost use Rattle.std.specs.Cmp.Lexicographic.{slice_cmp};
ghost use Rattle.gc_search.specs.Arrivals.{IsRepeated, Told};
ghost use Rattle.gc_search.specs.Links.{walk_of};
ghost use Rattle.gc_search.specs.Tails.{IsLevel, IsMet, compared_order, edges_order, edges_told, tail_edges, way_back};

use crate::link::Link;
use crate::tail::{Tail, edge_at};
use crate::tree::WalkTree;
use gc_prod::{By, Product};
use std::cmp::Ordering;

// Two walks with equally many edges that are gone back along: what is left of each, and the order of
// what was passed.
#[derive(Clone, Copy)]
pub(crate) struct Compared {
    pub(crate) one: Tail,
    pub(crate) other: Tail,
    pub(crate) passed: Ordering,
}

// The order of two walks, by the number of edges and then by these one after another. Most often it is
// told by the last edges and by the ranks of the settled walks before them.
pub(crate) fn edges_order(tree: &WalkTree, a: &Link, b: &Link) -> Ordering
    ensures { result ≡ edges_order tree.now.setting tree.now.walks a.now b.now }
{
    let one = tree.moved(a);
    let other = tree.moved(b);
    match ranked_before(tree, &one, &other) {
        Some(order) => order,
        None => whole_order(tree, &one, &other),
    }
}

// The same, where both pass one edge behind settled walks of which the ranks tell the order.
fn ranked_before(tree: &WalkTree, a: &Link, b: &Link) -> Option<Ordering>
    ensures { IfSome result (λ order. order ≡ edges_order tree.now.setting tree.now.walks a.now b.now) }
{
    let By::Edge(one) = a.by else {
        return None;
    };
    let By::Edge(other) = b.by else {
        return None;
    };
    match tree.ranked_alike(a.before, b.before) {
        None => None,
        Some(order) => Some(order.then(one.cmp(&other))),
    }
}

// The same, by going back along both.
fn whole_order(tree: &WalkTree, a: &Link, b: &Link) -> Ordering
    ensures { result ≡ edges_order tree.now.setting tree.now.walks a.now b.now }
{
    let one = tree.tail(a);
    let other = tree.tail(b);
    let order = tree.length_of(&one).cmp(&tree.length_of(&other));
    if order.is_eq() {
        level_order(tree, one, other)
    } else {
        order
    }
}

// Whether two walks pass the same edges.
pub(crate) fn have_same_edges(tree: &WalkTree, a: &Link, b: &Link) -> bool
    ensures { Told result (edges_told tree.now.setting tree.now.walks a.now ≡ edges_told tree.now.setting tree.now.walks b.now)
        (edges_told tree.now.setting tree.now.walks a.now ≡ edges_told tree.now.setting tree.now.walks b.now → ⊥) }
{
    edges_order(tree, a, b).is_eq()
}

// Whether a walk has the cost and the edges of the one that was settled last.
pub(crate) fn repeats_last(tree: &WalkTree, next: &Link) -> bool
    ensures { Told result (IsRepeated tree.now.walks (walk_of tree.now.setting tree.now.walks next.now))
        (IsRepeated tree.now.walks (walk_of tree.now.setting tree.now.walks next.now) → ⊥) }
{
    let count = tree.count();
    if count == 0 {
        return false;
    }
    let last = tree.at(count - 1);
    last.cost == next.cost && have_same_edges(tree, last, next)
}

// The order of two walks with equally many edges, by these one after another. Of the differences that
// are met on the way back to what both share, the last one tells.
fn level_order(tree: &WalkTree, one: Tail, other: Tail) -> Ordering
    requires { IsLevel tree.now.setting tree.now.walks one other }
    ensures { result ≡ slice_cmp nat_cmp (tail_edges tree.now.setting tree.now.walks one) (tail_edges tree.now.setting tree.now.walks other) }
{
    let mut compared = Compared {
        one,
        other,
        passed: Ordering::Equal,
    };
    while !is_met(&compared) {
        if let Some(order) = ranked_order(tree, &compared) {
            return order;
        }
        compared = gone_back(tree, compared);
    }
    compared.passed
}

// Whether both have come to the same settled walk.
fn is_met(compared: &Compared) -> bool
    ensures { Told result (IsMet compared.now) (IsMet compared.now → ⊥) }
{
    compared.one.left == 0
        && compared.other.left == 0
        && compared.one.before == compared.other.before
}

// The order of two that have been gone back along to settled walks, where the ranks of these tell it.
fn ranked_order(tree: &WalkTree, c: &Compared) -> Option<Ordering>
    requires { IsLevel tree.now.setting tree.now.walks c.now.one c.now.other }
    ensures { IfSome result (λ order. order ≡ compared_order tree.now.setting tree.now.walks c.now) }
{
    if c.one.left > 0 || c.other.left > 0 || c.one.before == 0 || c.other.before == 0 {
        return None;
    }
    match tree.ranked(c.one.before, c.other.before) {
        None => None,
        Some(order) => Some(order.then(c.passed)),
    }
}

// Goes back: along an edge of both moves; or where one of them has none left, to the move before it. Of
// two settled walks that is the one which was settled later, so that what both share is not passed.
fn gone_back(tree: &WalkTree, c: Compared) -> Compared
    requires level { IsLevel tree.now.setting tree.now.walks c.one c.other }
    requires apart { IsMet c → ⊥ }
    ensures level { IsLevel tree.now.setting tree.now.walks result.one result.other }
    ensures order { compared_order tree.now.setting tree.now.walks result ≡ compared_order tree.now.setting tree.now.walks c }
    ensures nearer { way_back tree.now.setting tree.now.walks result < way_back tree.now.setting tree.now.walks c }
{
    if c.one.left > 0 && c.other.left > 0 {
        return passed_one(tree, c);
    }
    if c.one.left == 0 && (c.other.left > 0 || c.one.before > c.other.before) {
        Compared {
            one: tree.opened(c.one.before),
            ..c
        }
    } else {
        Compared {
            other: tree.opened(c.other.before),
            ..c
        }
    }
}

// Goes back along one edge of both.
fn passed_one(tree: &WalkTree, c: Compared) -> Compared
    requires level { IsLevel tree.now.setting tree.now.walks c.one c.other }
    requires one { 0 < c.one.left }
    requires other { 0 < c.other.left }
    ensures level { IsLevel tree.now.setting tree.now.walks result.one result.other }
    ensures order { compared_order tree.now.setting tree.now.walks result ≡ compared_order tree.now.setting tree.now.walks c }
    ensures nearer { way_back tree.now.setting tree.now.walks result < way_back tree.now.setting tree.now.walks c }
{
    let one = Tail {
        left: c.one.left - 1,
        ..c.one
    };
    let other = Tail {
        left: c.other.left - 1,
        ..c.other
    };
    let last = edge_at(tree.product, one.by, one.left).cmp(&edge_at(
        tree.product,
        other.by,
        other.left,
    ));
    Compared {
        one,
        other,
        passed: last.then(c.passed),
    }
}
