ghost use Rattle.std.specs.Prelude.{◌≡◌, ◌+◌, ◌-◌, ◌*◌, ◌≤◌, ◌∷◌, [], ◌++◌, map, if◌then◌else◌, IfOk, OnOk};
ghost use Rattle.std.specs.List.{Contains};
ghost use Rattle.gc_base.specs.Walks.{edges_of};
ghost use Rattle.gc_automata.specs.Machines.{IsAutomatonOf};
ghost use Rattle.gc_automata.specs.Moves.{IsNetwork, IsThere};
ghost use Rattle.gc_regx.specs.Expressions.{HasParts};
ghost use Rattle.gc_regx.specs.Trees.{RegexTree, ARegex};
ghost use Rattle.gc_prod.specs.Leading.{pair};
ghost use Rattle.gc_prod.specs.SymbolHops.{steps_by};
ghost use Rattle.gc_reach.specs.Exploring.{most_moves};
ghost use Rattle.gc_reach.specs.OnWalks.{nodes_of, IsOnRun, IsOnWalk};
ghost use Rattle.gc_reach.specs.Passing.{AreStepsBetween};
ghost use Rattle.gc_reach.specs.Reached.{AreThose};
ghost use Rattle.gc_reach.specs.Turning.{steps_along, steps_into};

use crate::exploring::settle;
use crate::marks::Marks;
use crate::reaching::IdList;
use crate::turning::{Turn, by_pair, keep, settle_back};
use gc_automata::runs_pass_the_conforming_walks;
use gc_base::{Id, Memory, Sequence, Step, Steps};
use gc_prod::{By, ByNumber, Product};
use std::alloc::Global;
use std::sync::ledger::Ledger;

// Adds the steps that a walk takes by a move to a node.
fn add_move(p: &Product, by: By, node: Id, passed: &mut Vec<Step>) -> Result<(), Memory>
    ensures { OnOk result (passed.new.items ≡ passed.old.items ++ steps_by p.now.network by node) }
{
    match by {
        By::Nothing => Ok(()),
        By::Edge(edge) => {
            passed.push(Step { edge, node })?;
            Ok(())
        }
        By::Segment(i) => add_all(p.segment_steps(i), passed),
    }
}

fn add_all(steps: &[Step], passed: &mut Vec<Step>) -> Result<(), Memory>
    ensures { OnOk result (passed.new.items ≡ passed.old.items ++ steps.now) }
{
    for step in steps {
        passed.push(*step)?;
    }
    Ok(())
}

// Adds the steps that walks take by some kept moves.
fn add_steps(p: &Product, kept: &[Turn], passed: &mut Vec<Step>) -> Result<(), Memory>
    ensures { OnOk result (passed.new.items ≡ passed.old.items ++ steps_along p.now kept.now) }
{
    for turn in kept {
        add_move(p, turn.to.by, turn.to.node, passed)?;
    }
    Ok(())
}

// The steps that walks take by the kept moves to marked pairs.
fn passed_steps(
    alloc: Global,
    p: &Product,
    kept: &ByNumber<Turn>,
    marks: &Marks,
) -> Result<Vec<Step>, Memory>
    ensures { IfOk result (λ passed. passed.items ≡ steps_into p.now marks.now.nodes marks.now.width kept.now marks.now.pairs) }
{
    let mut passed = Vec::new(alloc);
    for spot in marks.spots() {
        let number = marks.number_at(*spot);
        add_steps(p, kept.at(number), &mut passed)?;
    }
    Ok(passed)
}

// Whether walks lead from a node to a node by runs from the first state to the last, and all steps
// that they take.
#[derive(Drop)]
struct Crossed {
    some: bool,
    steps: Vec<Step>,
}

// The walks between two nodes. It goes over the moves of reached pairs twice.
fn between<L: Ledger>(
    alloc: Global,
    p: &Product,
    source: Id,
    target: Id,
    steps: &mut Steps<L>,
) -> Result<Crossed, Memory>
    requires source { IsThere p.now.network source }
    requires target { IsThere p.now.network target }
    ensures exact { IfOk result (λ found. AreStepsBetween p.now (pair source 0) (pair target (p.now.machine.states - 1)) found.some found.steps.items) }
    ensures network { IsNetwork p.now.network }
    ensures few { steps.new ≤ steps.old + 2 * most_moves p.now }
{
    let last = p.states().saturating_sub(1);
    let nodes = p.nodes();
    let width = p.width();
    let mut marks = Marks::of(alloc, nodes, width)?;
    marks.mark(source, 0)?;
    settle(p, source, &mut marks, steps)?;
    let some = marks.has_pair(target, last);
    let list = keep(alloc, p, &marks, steps)?;
    let kept = by_pair(alloc, &list, marks.size())?;
    let mut back = Marks::of(alloc, nodes, width)?;
    settle_back(&kept, target, last, &mut back)?;
    let steps = passed_steps(alloc, p, &kept, &back)?;
    Ok(Crossed { some, steps })
}

// The same identities, ascending, each once.
fn ascending(mut ids: Vec<Id>) -> Result<Vec<Id>, Memory>
    ensures { IfOk result (λ sorted. AreThose (Contains ids.items) sorted.items) }
{
    ids.sort()?;
    ids.dedup();
    Ok(ids)
}

// The nodes along some steps, and the first node where there is a walk.
fn nodes_along(alloc: Global, first: Id, found: &Crossed) -> Result<Vec<Id>, Memory>
    ensures { IfOk result (λ ids. ids.items ≡ (if found.now.some then first ∷ [] else []) ++ map (λ step. step.node) found.now.steps.items) }
{
    let mut ids = Vec::new(alloc);
    if found.some {
        ids.push(first)?;
    }
    for step in &found.steps {
        ids.push(step.node)?;
    }
    Ok(ids)
}

fn edges_along(alloc: Global, steps: &[Step]) -> Result<Vec<Id>, Memory>
    ensures { IfOk result (λ ids. ids.items ≡ map (λ step. step.edge) steps.now) }
{
    let ids = steps.iter().map(|step| step.edge).collect(alloc)?;
    Ok(ids)
}

/// What lies on walks: nodes and edges, each ascending.
#[derive(Drop)]
pub struct Parts {
    pub nodes: IdList,
    pub edges: IdList,
}

/// The nodes and the edges that lie on some walk from a node to a node that a run passes from the
/// first state to the last. Where the automaton is that of an expression, these are exactly those
/// that lie on some walk between the two that conforms to it. A walk along a segment goes through
/// all nodes and edges of the segment. It takes no more steps than twice there are transitions,
/// times the number of all nodes, edges and segments.
pub fn on_walks<L: Ledger>(
    alloc: Global,
    p: &Product,
    source: Id,
    target: Id,
    steps: &mut Steps<L>,
) -> Result<Parts, Memory>
    requires source { IsThere p.now.network source }
    requires target { IsThere p.now.network target }
    ensures nodes { IfOk result (λ parts. AreThose (IsOnRun nodes_of p.now source target) parts.nodes) }
    ensures edges { IfOk result (λ parts. AreThose (IsOnRun edges_of p.now source target) parts.edges) }
    ensures conform { IfOk result (λ parts. (tree : RegexTree ARegex) → HasParts tree → IsAutomatonOf tree p.now.machine
        → AreThose (IsOnWalk nodes_of p.now.network tree source target) parts.nodes × AreThose (IsOnWalk edges_of p.now.network tree source target) parts.edges) }
    ensures few { steps.new ≤ steps.old + 2 * most_moves p.now }
{
    runs_pass_the_conforming_walks();
    let found = between(alloc, p, source, target, steps)?;
    let nodes = ascending(nodes_along(alloc, source, &found)?)?;
    let edges = ascending(edges_along(alloc, &found.steps)?)?;
    Ok(Parts {
        nodes: Sequence::from_vec(nodes),
        edges: Sequence::from_vec(edges),
    })
}
