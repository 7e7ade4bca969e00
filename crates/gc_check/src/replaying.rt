ghost use Rattle.std.specs.Prelude.{◌≡◌, ◌-◌, MatchBool, ℕ};
ghost use Rattle.std.specs.List.{AllByRecursion, list_any};
ghost use Rattle.gc_automata.specs.Moves.{Network};
ghost use Rattle.gc_base.specs.Walks.{end_of, end_of_steps};
ghost use Rattle.gc_cert.specs.Acceptance.{IsPassed};
ghost use Rattle.gc_cert.specs.Runs.{Follows};
ghost use Rattle.gc_prod.specs.declared.moves.By.TheVariants as way;
ghost use Rattle.gc_prod.specs.SymbolHops.{segment_steps};
ghost use Rattle.gc_prod.specs.Leading.{pair};
ghost use Rattle.gc_prod.specs.Products.{moved, moves, moves_by};
ghost use Rattle.gc_check.specs.Replays.{same_by, is_move, IsAdvance};

use gc_base::{Id, Step, Steps, Walk};
use gc_cert::WalkDoc;
use gc_prod::{Bundle, By, Hop, Product, RunMove};
use std::sync::ledger::Ledger;

// Where a walk has come to, and the steps that are left of it.
#[derive(Clone, Copy)]
pub(crate) struct Spot<'a> {
    pub(crate) node: Id,
    pub(crate) left: &'a [Step],
}

// Whether the runs of some walks are moves from the start to their ends, which pass exactly the walks.
pub(crate) fn are_passed<L: Ledger>(
    p: &Product,
    start: Id,
    walks: &[WalkDoc],
    steps: &mut Steps<L>,
) -> bool
    ensures { MatchBool result (AllByRecursion (IsPassed p.now start) walks.now) (AllByRecursion (IsPassed p.now start) walks.now → ⊥) }
{
    for walk in walks {
        if !is_passed(p, start, walk, steps) {
            return false;
        }
    }
    true
}

// The same of one walk.
fn is_passed<L: Ledger>(p: &Product, start: Id, walk: &WalkDoc, steps: &mut Steps<L>) -> bool
    ensures { MatchBool result (IsPassed p.now start walk.now) (IsPassed p.now start walk.now → ⊥) }
{
    walk.walk.start == start && follows(p, walk.run.as_slice(), &walk.walk, steps)
}

// Whether the moves of a run lead from the start of a walk in the first state to its end in the last.
fn follows<L: Ledger>(p: &Product, run: &[RunMove], walk: &Walk, steps: &mut Steps<L>) -> bool
    ensures { MatchBool result
        (Follows p.now (pair walk.now.start 0) run.now (pair (end_of walk.now) (p.now.machine.states - 1)) walk.now.steps)
        (Follows p.now (pair walk.now.start 0) run.now (pair (end_of walk.now) (p.now.machine.states - 1)) walk.now.steps → ⊥) }
{
    let mut node = walk.start;
    let mut state = 0;
    let mut left = walk.steps.as_slice();
    for wanted in run {
        let Some(next) = advance(p, node, wanted.by, left) else {
            return false;
        };
        if !has_move(p, node, state, wanted, next.node, steps) {
            return false;
        }
        node = next.node;
        state = wanted.to;
        left = next.left;
    }
    left.is_empty() && node == walk.end() && state == p.states().saturating_sub(1)
}

// Where a walk goes from a node by something, along the first of some steps.
fn advance<'a>(p: &Product, node: Id, by: By, steps: &'a [Step]) -> Option<Spot<'a>>
    ensures { IsAdvance p.now.network by node steps.now result }
{
    match by {
        By::Nothing => Some(Spot { node, left: steps }),
        By::Edge(edge) => advance_along(edge, steps),
        By::Segment(i) => advance_by_all(p.segment_steps(i), node, steps),
    }
}

// The same along an edge.
fn advance_along<'a>(edge: Id, steps: &'a [Step]) -> Option<Spot<'a>>
    ensures { (network : Network) (node : ℕ) → IsAdvance network (way.Edge edge) node steps.now result }
{
    match steps.split_first() {
        None => None,
        Some((step, left)) => {
            if step.edge == edge {
                Some(Spot {
                    node: step.node,
                    left,
                })
            } else {
                None
            }
        }
    }
}

// The same by all steps of a segment.
fn advance_by_all<'a>(segment: &[Step], node: Id, steps: &'a [Step]) -> Option<Spot<'a>>
    ensures { (network : Network) (i : ℕ) → segment_steps network.segments i ≡ segment.now → IsAdvance network (way.Segment i) node steps.now result }
{
    match steps.strip_prefix(segment) {
        None => None,
        Some(left) => Some(Spot {
            node: end_from(node, segment),
            left,
        }),
    }
}

// The node after some steps from a node.
fn end_from(node: Id, steps: &[Step]) -> Id
    ensures { result ≡ end_of_steps node steps.now }
{
    match steps.last() {
        None => node,
        Some(step) => step.node,
    }
}

// Whether there is such a move from a pair.
fn has_move<L: Ledger>(
    p: &Product,
    node: Id,
    state: u32,
    wanted: &RunMove,
    to: Id,
    steps: &mut Steps<L>,
) -> bool
    ensures { result ≡ list_any (is_move wanted.now to) (moves p.now node state) }
{
    for j in 0..p.bundle_count(state) {
        let bundle = p.bundle(node, state, j, steps);
        if is_among(&bundle, wanted, to) {
            return true;
        }
    }
    false
}

// The same among the moves by a bundle.
fn is_among(bundle: &Bundle, wanted: &RunMove, to: Id) -> bool
    ensures { result ≡ list_any (is_move wanted.now to) (moves_by bundle.now) }
{
    for hop in bundle.hops {
        if is_move(bundle.state, hop, wanted, to) {
            return true;
        }
    }
    false
}

// Whether a hop to a state is such a move.
fn is_move(state: u32, hop: &Hop, wanted: &RunMove, to: Id) -> bool
    ensures { result ≡ is_move wanted.now to (moved state hop.now) }
{
    state == wanted.to && hop.to == to && same_by(hop.by, wanted.by)
}

fn same_by(a: By, b: By) -> bool
    ensures { result ≡ same_by a b }
{
    match a {
        By::Nothing => is_nothing(b),
        By::Edge(edge) => is_edge(edge, b),
        By::Segment(i) => is_segment(i, b),
    }
}

fn is_nothing(by: By) -> bool
    ensures { result ≡ same_by way.Nothing by }
{
    match by {
        By::Nothing => true,
        By::Edge(_) => false,
        By::Segment(_) => false,
    }
}

fn is_edge(edge: Id, by: By) -> bool
    ensures { result ≡ same_by (way.Edge edge) by }
{
    match by {
        By::Nothing => false,
        By::Edge(other) => edge == other,
        By::Segment(_) => false,
    }
}

fn is_segment(i: u32, by: By) -> bool
    ensures { result ≡ same_by (way.Segment i) by }
{
    match by {
        By::Nothing => false,
        By::Edge(_) => false,
        By::Segment(j) => i == j,
    }
}
