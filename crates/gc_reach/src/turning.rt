ghost use Rattle.std.specs.Prelude.{◌≡◌, ◌+◌, ◌<◌, ◌≤◌, ◌++◌, ◌∷◌, [], ℕ, length, map, true, IfOk, OnOk};
ghost use Rattle.std.specs.List.{AllByRecursion};
ghost use Rattle.gc_spec.specs.PropertyGraph.{is_among, node_ids};
ghost use Rattle.gc_prod.specs.Groups.{row_of};
ghost use Rattle.gc_prod.specs.Keys.{at_key};
ghost use Rattle.gc_prod.specs.Leading.{pair};
ghost use Rattle.gc_prod.specs.Products.{bundles, moved, moves, moves_by};
ghost use Rattle.gc_reach.specs.Exploring.{AreAll, AreApart, most_moves};
ghost use Rattle.gc_reach.specs.Marking.{visit_all};
ghost use Rattle.gc_reach.specs.Numbering.{IsNumbered};
ghost use Rattle.gc_reach.specs.Turning.{turn, turns, turns_of, before};

use crate::marks::Marks;
use gc_base::{Id, Memory, Steps};
use gc_prod::{Bundle, ByNumber, Hop, Move, Pair, Product};
use std::alloc::Global;
use std::sync::ledger::Ledger;

// A move, with the pair that it leaves and the number of the pair to which it leads.
#[derive(Clone, Copy)]
pub(crate) struct Turn {
    pub(crate) number: usize,
    pub(crate) from: Pair,
    pub(crate) to: Move,
}

// Keeps the moves of a pair by a bundle.
fn keep_bundle(
    bundle: &Bundle,
    from: &Pair,
    marks: &Marks,
    kept: &mut Vec<Turn>,
) -> Result<(), Memory>
    requires there { AllByRecursion (λ h. is_among marks.now.nodes h.to ≡ true) bundle.now.hops }
    requires state { bundle.now.state < marks.now.width }
    ensures { OnOk result (kept.new.items ≡ kept.old.items ++ map (turn marks.now.nodes marks.now.width from.now) (moves_by bundle.now)) }
{
    for hop in bundle.hops {
        let number = marks.number(hop.to, bundle.state);
        let to = move_by(bundle.state, *hop);
        kept.push(Turn {
            number,
            from: *from,
            to,
        })?;
    }
    Ok(())
}

fn move_by(state: u32, hop: Hop) -> Move
    ensures { result ≡ moved state hop }
{
    Move {
        node: hop.to,
        state,
        cost: hop.cost,
        by: hop.by,
    }
}

// Keeps the moves of a pair.
fn keep_pair<L: Ledger>(
    p: &Product,
    from: &Pair,
    marks: &Marks,
    kept: &mut Vec<Turn>,
    steps: &mut Steps<L>,
) -> Result<(), Memory>
    requires nodes { marks.now.nodes ≡ node_ids p.now.network.graph.nodes }
    requires width { (node state : ℕ) → AllByRecursion (λ b. b.state < marks.now.width) (bundles p.now node state) }
    ensures exact { OnOk result (kept.new.items ≡ kept.old.items ++ turns_of p.now marks.now.nodes marks.now.width from.now) }
    ensures few { steps.new ≤ steps.old + length (moves p.now from.now.node from.now.state) }
{
    for j in 0..p.bundle_count(from.state) {
        let bundle = p.bundle(from.node, from.state, j, steps);
        keep_bundle(&bundle, from, marks, kept)?;
    }
    Ok(())
}

// Keeps the moves of all marked pairs.
pub(crate) fn keep<L: Ledger>(
    alloc: Global,
    p: &Product,
    marks: &Marks,
    steps: &mut Steps<L>,
) -> Result<Vec<Turn>, Memory>
    requires nodes { marks.now.nodes ≡ node_ids p.now.network.graph.nodes }
    requires width { (node state : ℕ) → AllByRecursion (λ b. b.state < marks.now.width) (bundles p.now node state) }
    requires apart { AreApart marks.now.pairs }
    ensures exact { IfOk result (λ kept. kept.items ≡ turns p.now marks.now.nodes marks.now.width marks.now.pairs) }
    ensures few { steps.new ≤ steps.old + most_moves p.now }
{
    let mut kept = Vec::new(alloc);
    for spot in marks.spots() {
        keep_pair(p, &marks.pair(*spot), marks, &mut kept, steps)?;
    }
    Ok(kept)
}

// Kept moves by the number of the pair to which they lead, of which each is below a number.
pub(crate) fn by_pair(alloc: Global, kept: &[Turn], count: usize) -> Result<ByNumber<Turn>, Memory>
    requires { AllByRecursion (λ t. t.number < count) kept.now }
    ensures { IfOk result (λ sorted. (number : ℕ) → row_of sorted number ≡ at_key (λ t. t.number) number kept.now) }
{
    let numbers = numbers_of(alloc, kept)?;
    ByNumber::of(alloc, kept, &numbers, count)
}

fn numbers_of(alloc: Global, kept: &[Turn]) -> Result<Vec<usize>, Memory>
    ensures { IfOk result (λ numbers. numbers.items ≡ map (λ t. t.number) kept.now) }
{
    let numbers = kept.iter().map(|turn| turn.number).collect(alloc)?;
    Ok(numbers)
}

// Marks the pairs that some kept moves leave.
fn go_back(kept: &[Turn], marks: &mut Marks) -> Result<(), Memory>
    requires nodes { AllByRecursion (λ t. is_among marks.old.nodes t.from.node ≡ true) kept.now }
    requires states { AllByRecursion (λ t. t.from.state < marks.old.width) kept.now }
    ensures { OnOk result (marks.new ≡ record marks.old { pairs = visit_all marks.old.pairs (map (λ t. t.from) kept.now) }) }
{
    for turn in kept {
        marks.mark(turn.from.node, turn.from.state)?;
    }
    Ok(())
}

// Marks a pair, and all pairs from which one is led to it, by going back along kept moves.
pub(crate) fn settle_back(
    kept: &ByNumber<Turn>,
    node: Id,
    state: u32,
    marks: &mut Marks,
) -> Result<(), Memory>
    requires pair { IsNumbered marks.old.nodes marks.old.width (pair node state) }
    requires none { marks.old.pairs ≡ [] }
    requires nodes { (key : ℕ) → AllByRecursion (λ t. is_among marks.old.nodes t.from.node ≡ true) (row_of kept.now key) }
    requires states { (key : ℕ) → AllByRecursion (λ t. t.from.state < marks.old.width) (row_of kept.now key) }
    ensures all { OnOk result (AreAll (before marks.new.nodes marks.new.width kept.now) marks.new.nodes (pair node state) marks.new.pairs) }
    ensures nodes { OnOk result (marks.new.nodes ≡ marks.old.nodes) }
    ensures width { OnOk result (marks.new.width ≡ marks.old.width) }
{
    marks.mark(node, state)?;
    let mut i = 0;
    while let Some(at) = marks.at(i) {
        let number = marks.number_at(at);
        go_back(kept.at(number), marks)?;
        i += 1;
    }
    Ok(())
}
