ghost use Rattle.std.specs.Prelude.{◌≡◌, ◌+◌, ◌*◌, ◌<◌, ◌≤◌, ◌^◌, ◌∷◌, [], length, slice_get, true, Some, IfOk, OnOk};
ghost use Rattle.std.specs.List.{AllByRecursion};
ghost use Rattle.gc_automata.specs.Moves.{IsThere};
ghost use Rattle.gc_prod.specs.declared.moves.Pair.{Pair};
ghost use Rattle.gc_prod.specs.Leading.{pair};
ghost use Rattle.gc_prod.specs.Products.{moves, moves_by};
ghost use Rattle.gc_search.specs.Arrivals.{FoundWalk, settled_at, passages, IsAsked, IsDone, IsFree, IsLowAt, IsOld, IsSeen, IsUnknown, Told};
ghost use Rattle.gc_search.specs.Counting.{degree, most_moves};
ghost use Rattle.gc_search.specs.Finding.{IsFollowed};
ghost use Rattle.gc_search.specs.Passages.{Has, IsCounted, IsOnward, Passage, Reach, IsFirstK};
ghost use Rattle.gc_search.specs.Places.{tree_of};
ghost use Rattle.gc_search.specs.Waiting.{told_by, IsGrown};

use crate::comparing::repeats_last;
use crate::link::Link;
use crate::pending::Pending;
use crate::settled::Settled;
use gc_base::{Id, Memory, Steps};
use gc_prod::{Bundle, Move, Pair, Product};
use std::alloc::Global;
use std::sync::ledger::Ledger;

// Adds the extension of the settled walk at a place by a move, but where that leads to a pair that has k
// walks already.
fn add_extension(
    settled: &Settled,
    place: usize,
    by: Move,
    k: u32,
    more: &mut Vec<Link>,
) -> Result<(), Memory>
    requires within { place < length settled.now.walks }
    requires low { IsLowAt settled.now.walks place }
    ensures { OnOk result ((a : FoundWalk) → slice_get settled.now.walks place ≡ Some a
        → IsGrown (tree_of settled.now) k a (by ∷ []) more.old.items more.new.items) }
{
    let to = Pair {
        node: by.node,
        state: by.state,
    };
    if settled.count_at(&to) < k as usize {
        more.push(settled.tree.extended(place, by)?)?;
    }
    Ok(())
}

// Adds the extensions of a settled walk by a bundle of hops, but those to pairs that have k walks already.
fn add_extensions(
    settled: &Settled,
    place: usize,
    bundle: &Bundle,
    k: u32,
    more: &mut Vec<Link>,
) -> Result<(), Memory>
    requires within { place < length settled.now.walks }
    requires low { IsLowAt settled.now.walks place }
    ensures { OnOk result ((a : FoundWalk) → slice_get settled.now.walks place ≡ Some a
        → IsGrown (tree_of settled.now) k a (moves_by bundle.now) more.old.items more.new.items) }
{
    for i in 0..bundle.hops.len() {
        let hop = bundle.hops[i];
        let by = Move {
            node: hop.to,
            state: bundle.state,
            cost: hop.cost,
            by: hop.by,
        };
        add_extension(settled, place, by, k, more)?;
    }
    Ok(())
}

// Adds the extensions of the settled walk at a place by the moves of its pair, but those to pairs that
// have k walks already.
fn add_all_extended<L: Ledger>(
    settled: &Settled,
    place: usize,
    k: u32,
    steps: &mut Steps<L>,
    more: &mut Vec<Link>,
) -> Result<(), Memory>
    requires within { place < length settled.now.walks }
    requires low { IsLowAt settled.now.walks place }
    ensures grown { OnOk result ((a : FoundWalk) → slice_get settled.now.walks place ≡ Some a
        → IsGrown (tree_of settled.now) k a (moves settled.now.setting a.at.node a.at.state) more.old.items more.new.items) }
    ensures few { (a : FoundWalk) → slice_get settled.now.walks place ≡ Some a → steps.new ≤ steps.old + degree settled.now.setting a }
{
    let at = settled.tree.at(place).at;
    let product = settled.tree.product;
    for j in 0..product.bundle_count(at.state) {
        let bundle = product.bundle(at.node, at.state, j, steps);
        add_extensions(settled, place, &bundle, k, more)?;
    }
    Ok(())
}

// Whether the edges of a walk are those of one that is settled at its pair. Where the edges tell the cost
// of a walk, that can only be the last one.
fn is_known(settled: &Settled, next: &Link, plain: bool) -> bool
    ensures { Told result (IsSeen settled.now.walks (told_by (tree_of settled.now) next.now))
        (IsUnknown plain settled.now.walks (told_by (tree_of settled.now) next.now)) }
{
    if plain {
        is_last_again(settled, next)
    } else {
        settled.is_seen(next)
    }
}

// Whether a walk repeats the last one of all, and the edges of the last one at its pair. The first is at hand,
// and tells that most walks do not.
fn is_last_again(settled: &Settled, next: &Link) -> bool
    ensures { Told result (IsSeen settled.now.walks (told_by (tree_of settled.now) next.now))
        (IsUnknown true settled.now.walks (told_by (tree_of settled.now) next.now)) }
{
    if repeats_last(&settled.tree, next) {
        settled.is_last(next)
    } else {
        false
    }
}

// Whether a walk is to be settled: fewer than k are at its pair, and none with its edges.
fn is_new(settled: &Settled, next: &Link, k: u32, plain: bool) -> bool
    ensures told { Told result (IsFree plain settled.now.walks k (told_by (tree_of settled.now) next.now))
        (IsOld settled.now.walks k (told_by (tree_of settled.now) next.now)) }
    ensures few { length settled.now.walks < 2 ^ 63 }
{
    settled.count_at(&next.at) < k as usize && !is_known(settled, next, plain)
}

// Whether k walks are settled at the pair that is asked for, where one is.
fn is_done(settled: &Settled, target: &Option<Pair>, k: u32) -> bool
    ensures { result ≡ true → IsDone target.now settled.now.walks k }
{
    match target {
        None => false,
        Some(at) => settled.count_at(at) >= k as usize,
    }
}

// Settles the first walks to each pair, or until the first k to one pair are settled: takes the least one
// that is pending, and where fewer than k are settled at its pair and it is none of these, settles it and
// adds its extensions. In a plain product each move costs 1 for each edge.
pub(crate) fn settle<'a, L: Ledger>(
    alloc: Global,
    p: &'a Product<'a>,
    source: Id,
    target: Option<Pair>,
    k: u32,
    plain: bool,
    steps: &mut Steps<L>,
) -> Result<Settled<'a>, Memory>
    requires source { IsThere p.now.network source }
    requires costs { (q : Pair) (m : Passage Pair) → Has (passages p.now q) m → IsOnward m }
    requires plain { plain ≡ true → (q : Pair) (m : Passage Pair) → Has (passages p.now q) m → IsCounted m }
    ensures first { IfOk result (λ settled. (q : Pair) → IsAsked target q
        → IsFirstK k (Reach (passages p.now) (pair source 0) q) (settled_at settled.walks q)) }
    ensures followed { IfOk result (λ settled. AllByRecursion (IsFollowed p.now source) settled.walks) }
    ensures small { IfOk result (λ settled. (q : Pair) → length (settled_at settled.walks q) ≤ k) }
    ensures low { IfOk result (λ settled. AllByRecursion (λ a. a.cost < 2 ^ 127) settled.walks) }
    ensures few { steps.new ≤ steps.old + k * most_moves p.now }
{
    let mut settled = Settled::of(alloc, p)?;
    let mut pending = Pending::of(alloc, Link::start(source))?;
    let mut more = Vec::new(alloc);
    'turns: while !is_done(&settled, &target, k) {
        pending.fill_front(&settled, k)?;
        let Some(next) = pending.take_least() else {
            return Ok(settled);
        };
        if is_new(&settled, &next, k, plain) {
            let place = settled.tree.count();
            settled.push(&next)?;
            add_all_extended(&settled, place, k, steps, &mut more)?;
            pending.add_all(&next, &more)?;
            more.clear();
        }
    }
    Ok(settled)
}
