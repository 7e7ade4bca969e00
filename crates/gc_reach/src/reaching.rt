ghost use Rattle.std.specs.Prelude.{◌≡◌, ◌+◌, ◌-◌, ◌<◌, ◌≤◌, ℕ, IfOk};
ghost use Rattle.gc_automata.specs.Machines.{IsAutomatonOf};
ghost use Rattle.gc_automata.specs.Moves.{IsNetwork, IsThere};
ghost use Rattle.gc_prod.specs.Leading.{Passed, pair};
ghost use Rattle.gc_regx.specs.Expressions.{HasParts};
ghost use Rattle.gc_regx.specs.Trees.{RegexTree, ARegex};
ghost use Rattle.gc_reach.specs.Exploring.{AreAll, most_moves};
ghost use Rattle.gc_reach.specs.Reached.{AreThose, IsReached};

use crate::exploring::settle;
use crate::marks::Marks;
use gc_automata::runs_pass_the_conforming_walks;
use gc_base::{Id, Memory, Sequence, Steps};
use gc_prod::Product;
use std::alloc::Global;
use std::sync::ledger::Ledger;

/// Identities.
pub type IdList = Sequence<Id>;

/// The nodes to which a walk leads from a node by a run from the first state to the last, ascending.
/// Where the automaton is that of an expression, these are exactly the nodes to which a walk leads that
/// conforms to it. It takes no more steps than there are transitions, times the number of all nodes,
/// edges and segments.
pub fn reachable<L: Ledger>(
    alloc: Global,
    p: &Product,
    source: Id,
    steps: &mut Steps<L>,
) -> Result<IdList, Memory>
    requires { IsThere p.now.network source }
    ensures runs { IfOk result (AreThose (λ target. Passed p.now (pair source 0) (pair target (p.now.machine.states - 1)))) }
    ensures conform { IfOk result (λ found. (tree : RegexTree ARegex) → HasParts tree → IsAutomatonOf tree p.now.machine
        → AreThose (IsReached p.now.network tree source) found) }
    ensures few { steps.new ≤ steps.old + most_moves p.now }
{
    runs_pass_the_conforming_walks();
    let found = reached(alloc, p, source, steps)?;
    Ok(Sequence::from_vec(found))
}

fn reached<L: Ledger>(
    alloc: Global,
    p: &Product,
    source: Id,
    steps: &mut Steps<L>,
) -> Result<Vec<Id>, Memory>
    requires { IsThere p.now.network source }
    ensures runs { IfOk result (λ found. AreThose (λ target. Passed p.now (pair source 0) (pair target (p.now.machine.states - 1))) found.items) }
    ensures network { IsNetwork p.now.network }
    ensures few { steps.new ≤ steps.old + most_moves p.now }
{
    let last = p.states().saturating_sub(1);
    let mut marks = Marks::of(alloc, p.nodes(), p.width())?;
    marks.mark(source, 0)?;
    settle(p, source, &mut marks, steps)?;
    let found = marks.nodes_with(alloc, last)?;
    Ok(found)
}
