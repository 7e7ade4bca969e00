ghost use Rattle.std.specs.Prelude.{◌≡◌, ◌+◌, ◌-◌, ◌*◌, ◌^◌, ◌<◌, ◌≤◌, [], true, ℕ, IfOk};
ghost use Rattle.std.specs.List.{AllByRecursion};
ghost use Rattle.gc_regx.specs.Expressions.{HasParts};
ghost use Rattle.gc_regx.specs.Trees.{RegexTree, ARegex};
ghost use Rattle.gc_automata.specs.Conformance.{Conforms};
ghost use Rattle.gc_automata.specs.Machines.{IsAutomatonOf};
ghost use Rattle.gc_automata.specs.Moves.{IsThere};
ghost use Rattle.gc_prod.specs.declared.moves.Pair.{Pair};
ghost use Rattle.gc_prod.specs.Segments.{AreSegments};
ghost use Rattle.gc_search.specs.Counting.{most_moves};
ghost use Rattle.gc_search.specs.Finding.{walks_to, potential_of, IsFollowed, IsPotential};
ghost use Rattle.gc_search.specs.FirstWalks.{AreFirst, IsRun};

use crate::found::Found;
use crate::settling::settle;
use gc_automata::runs_pass_the_conforming_walks;
use gc_base::{Id, Memory, Steps};
use gc_prod::{Pair, Product};
use std::alloc::Global;
use std::sync::ledger::Ledger;

/// The first k walks from a node to every node that a run passes from the first state to the last, by
/// cost, then by the number of edges, then by the edges one after another. Where the automaton is that
/// of an expression, these are exactly the first k walks that conform to it. Each is found with a run
/// that passes it at its cost, and leads to the last state; and for each node and state there is the
/// least cost at which a run reaches them. All costs are below 2^127. It takes no more steps than k
/// times the transitions, times the number of all nodes, edges and segments.
pub fn search<'a, L: Ledger>(
    alloc: Global,
    p: &'a Product<'a>,
    source: Id,
    k: u32,
    steps: &mut Steps<L>,
) -> Result<Found<'a>, Memory>
    requires source { IsThere p.now.network source }
    requires segments { AreSegments p.now.network.graph p.now.network.segments }
    requires some { 0 < k }
    ensures runs { IfOk result (λ found. (target : ℕ) → AreFirst (IsRun p.now) source target k (walks_to found target)) }
    ensures conform { IfOk result (λ found. (tree : RegexTree ARegex) → HasParts tree → IsAutomatonOf tree p.now.machine
        → (target : ℕ) → AreFirst (Conforms p.now.network tree) source target k (walks_to found target)) }
    ensures passed { IfOk result (λ found. AllByRecursion (IsFollowed p.now source) found.walks) }
    ensures potentials { IfOk result (λ found. (q : Pair) → IsPotential p.now source q (potential_of found q)) }
    ensures last { IfOk result (λ found. found.last ≡ p.now.machine.states - 1) }
    ensures low { IfOk result (λ found. AllByRecursion (λ a. a.cost < 2 ^ 127) found.walks) }
    ensures few { steps.new ≤ steps.old + k * most_moves p.now }
{
    runs_pass_the_conforming_walks();
    let _nodes = p.nodes();
    let last = p.states().saturating_sub(1);
    let walks = settle(alloc, p, source, None, k, is_plain(p), steps)?;
    Ok(Found {
        source,
        last,
        walks,
    })
}

/// The first k walks from a node to one node that a run passes from the first state to the last, as
/// `search` finds them. It ends once these are found.
pub fn search_to<'a, L: Ledger>(
    alloc: Global,
    p: &'a Product<'a>,
    source: Id,
    target: Id,
    k: u32,
    steps: &mut Steps<L>,
) -> Result<Found<'a>, Memory>
    requires source { IsThere p.now.network source }
    requires segments { AreSegments p.now.network.graph p.now.network.segments }
    requires some { 0 < k }
    ensures runs { IfOk result (λ found. AreFirst (IsRun p.now) source target k (walks_to found target)) }
    ensures conform { IfOk result (λ found. (tree : RegexTree ARegex) → HasParts tree → IsAutomatonOf tree p.now.machine
        → AreFirst (Conforms p.now.network tree) source target k (walks_to found target)) }
    ensures passed { IfOk result (λ found. AllByRecursion (IsFollowed p.now source) found.walks) }
    ensures few { steps.new ≤ steps.old + k * most_moves p.now }
{
    runs_pass_the_conforming_walks();
    let _nodes = p.nodes();
    let last = p.states().saturating_sub(1);
    let at = Pair {
        node: target,
        state: last,
    };
    let walks = settle(alloc, p, source, Some(at), k, is_plain(p), steps)?;
    Ok(Found {
        source,
        last,
        walks,
    })
}

// Whether there is no segment, so that a walk costs 1 for each edge.
fn is_plain(p: &Product) -> bool
    requires { AreSegments p.now.network.graph p.now.network.segments }
    ensures { result ≡ true → p.now.network.segments ≡ [] }
{
    p.segment_steps(0).is_empty()
}
