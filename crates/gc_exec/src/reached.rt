ghost use Rattle.std.specs.Prelude.{◌≡◌, true, IfOk, IfSome};
ghost use Rattle.gc_automata.specs.Machines.{IsAutomatonOf};
ghost use Rattle.gc_prod.specs.Segments.{AreSegments};
ghost use Rattle.gc_regx.specs.Expressions.{HasParts};
ghost use Rattle.gc_regx.specs.Trees.{RegexTree, ARegex};
ghost use Rattle.gc_walks.specs.Expressions.{is_searchable};
ghost use Rattle.gc_exec.specs.Reached.{reached_rows};
ghost use Rattle.gc_exec.specs.Runs.{IsSearched, database_of, network_at};
ghost use Rattle.gc_exec.specs.States.{AreMade, ByWalks, sought_in, sought_walks};
ghost use Rattle.gc_exec.specs.Walks.{asked};

use crate::near::{Place, know, place_of};
use crate::outward::is_free;
use crate::rows::Base;
use crate::seeking::walks_of;
use crate::task::Task;
use crate::wanted::{WalkEnds, Wanted};
use gc_alg::{Atom, PathExpression, ViewUseList};
use gc_base::{Memory, Steps, Sym};
use gc_ppg::{Graph, Kind};
use gc_prod::Product;
use gc_reach::{IdList, reachable};
use std::sync::ledger::Ledger;

/// How a reach pattern extends a row that binds the node at its left: each of some nodes is bound to the variable at its right.
#[derive(Drop)]
pub(crate) struct Reached {
    pub far: Sym,
    pub nodes: IdList,
}

/// The nodes by which an atom extends a row, where it does so. It is a reach pattern, the product in which its walks are looked
/// for is known, and the row binds the node at the left and leaves the one at the right free.
pub(crate) fn reached_of<L: Ledger>(
    task: &Task<'_>,
    base: &Base<'_>,
    atom: &Atom,
    steps: &mut Steps<L>,
) -> Result<Option<Reached>, Memory>
    requires { IsSearched atom.now.what }
    ensures { IfOk result (λ found. IfSome found (λ r. AreMade base.now.schema.now base.now.row.now
        (sought_in (database_of task.now.graphs.now) atom.now) (reached_rows base.now.row.now r))) }
{
    match walks_of(&atom.what) {
        None => Ok(None),
        Some((ends, expression, views)) => {
            reached_by(task, base, atom.graph, ends, expression, views, steps)
        }
    }
}

// The same by an expression on the graph of a number.
fn reached_by<L: Ledger>(
    task: &Task<'_>,
    base: &Base<'_>,
    number: u32,
    ends: WalkEnds,
    expression: &PathExpression,
    views: &ViewUseList,
    steps: &mut Steps<L>,
) -> Result<Option<Reached>, Memory>
    requires { is_searchable expression.now ≡ true }
    ensures { IfOk result (λ found. IfSome found (λ r. AreMade base.now.schema.now base.now.row.now
        (sought_walks (network_at task.now.graphs.now number views.now) (asked ends expression.now)) (reached_rows base.now.row.now r))) }
{
    let Some(graph) = task.graphs.at(number) else {
        return Ok(None);
    };
    match task.graphs.product(number, expression, views) {
        Some(product) => reached_near(base, graph, product, ends, steps),
        None => Ok(None),
    }
}

// The same in a product.
fn reached_near<L: Ledger>(
    base: &Base<'_>,
    graph: &Graph,
    product: &Product<'_>,
    ends: WalkEnds,
    steps: &mut Steps<L>,
) -> Result<Option<Reached>, Memory>
    requires graph { product.now.network.graph ≡ graph.now }
    requires segments { AreSegments product.now.network.graph product.now.network.segments }
    ensures { IfOk result (λ found. (tree : RegexTree ARegex) → HasParts tree → IsAutomatonOf tree product.now.machine
        → IfSome found (λ r. AreMade base.now.schema.now base.now.row.now (ByWalks product.now.network (asked ends tree)) (reached_rows base.now.row.now r))) }
{
    know(base, graph);
    let _nodes = product.nodes();
    let Wanted::Together(None) = ends.wanted else {
        return Ok(None);
    };
    let Place::At(start) = place_of(base, ends.left, Kind::Node) else {
        return Ok(None);
    };
    if !is_free(base, ends.right) {
        return Ok(None);
    }
    let Some(_node) = graph.find_node(start, steps) else {
        return Ok(None);
    };
    let nodes = reachable(base.alloc, product, start, steps)?;
    Ok(Some(Reached {
        far: ends.right,
        nodes,
    }))
}
