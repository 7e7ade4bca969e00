ghost use Rattle.std.specs.Prelude.{◌≡◌, ◌+◌, ◌<◌, ◌≤◌, ◌∷◌, [], ℕ, length, slice_index, OnOk};
ghost use Rattle.std.specs.List.{AllByRecursion};
ghost use Rattle.gc_automata.specs.Moves.{IsNetwork, IsThere};
ghost use Rattle.gc_spec.specs.PropertyGraph.{node_ids};
ghost use Rattle.gc_prod.specs.Leading.{pair};
ghost use Rattle.gc_prod.specs.Products.{bundles, moves};
ghost use Rattle.gc_reach.specs.Exploring.{targets, landed, AreAll, most_moves};
ghost use Rattle.gc_reach.specs.Marking.{pair_at, visit_all};

use crate::marks::{Marks, Spot};
use gc_base::{Id, Memory, Steps};
use gc_prod::{Landing, Product};
use std::sync::ledger::Ledger;

// Marks the pairs of the nodes at some places and a state.
fn follow(landing: &Landing, marks: &mut Marks) -> Result<(), Memory>
    requires within { AllByRecursion (λ p. p < length marks.old.nodes) landing.now.places }
    requires state { landing.now.state < marks.old.width }
    ensures { OnOk result (marks.new ≡ record marks.old { pairs = visit_all marks.old.pairs (landed marks.old.nodes landing.now) }) }
{
    let start = marks.start_of(landing.state);
    for place in landing.places {
        marks.mark_from(start, *place, landing.state)?;
    }
    Ok(())
}

// Marks the pairs to which the moves of a pair lead, of which the place of the node is told.
fn expand<L: Ledger>(
    p: &Product,
    at: Spot,
    marks: &mut Marks,
    steps: &mut Steps<L>,
) -> Result<(), Memory>
    requires place { at.place < length marks.old.nodes }
    requires nodes { marks.old.nodes ≡ node_ids p.now.network.graph.nodes }
    requires width { (node state : ℕ) → AllByRecursion (λ b. b.state < marks.old.width) (bundles p.now node state) }
    ensures marks { OnOk result (marks.new ≡ record marks.old { pairs = visit_all marks.old.pairs (targets p.now (pair_at marks.old.nodes at)) }) }
    ensures few { steps.new ≤ steps.old + length (moves p.now (slice_index marks.old.nodes at.place) at.state) }
{
    for j in 0..p.bundle_count(at.state) {
        let landing = p.landing(at.place, at.state, j, steps);
        follow(&landing, marks)?;
    }
    Ok(())
}

// Goes over the marked pairs until all that are behind them are marked too.
pub(crate) fn settle<L: Ledger>(
    p: &Product,
    source: Id,
    marks: &mut Marks,
    steps: &mut Steps<L>,
) -> Result<(), Memory>
    requires nodes { marks.old.nodes ≡ node_ids p.now.network.graph.nodes }
    requires width { (node state : ℕ) → AllByRecursion (λ b. b.state < marks.old.width) (bundles p.now node state) }
    requires network { IsNetwork p.now.network }
    requires there { IsThere p.now.network source }
    requires start { marks.old.pairs ≡ pair source 0 ∷ [] }
    ensures all { OnOk result (AreAll (targets p.now) marks.new.nodes (pair source 0) marks.new.pairs) }
    ensures nodes { OnOk result (marks.new.nodes ≡ marks.old.nodes) }
    ensures width { OnOk result (marks.new.width ≡ marks.old.width) }
    ensures few { steps.new ≤ steps.old + most_moves p.now }
{
    let mut i = 0;
    while let Some(at) = marks.at(i) {
        expand(p, at, marks, steps)?;
        i += 1;
    }
    Ok(())
}
