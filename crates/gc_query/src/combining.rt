ghost use Rattle.std.specs.Prelude.{IfOk, ℕ};
ghost use Rattle.gc_query.specs.Answered.{ComesOfBoth};
ghost use Rattle.gc_query.specs.Queries.{Combines, IsCombined};
ghost use Rattle.gc_spec.specs.Coherence.{AreCoherent};

use crate::made::Made;
use gc_ast::SetOp;
use gc_base::{Memory, Steps};
use gc_ppg::Graph;
use gc_sets::{intersect, minus, union};
use std::alloc::Global;
use std::sync::ledger::Ledger;

/// Two graphs combined that agree, of which the second was made later.
pub(crate) fn combined<L: Ledger>(
    alloc: Global,
    op: SetOp,
    left: &Graph,
    right: Made,
    steps: &mut Steps<L>,
) -> Result<Made, Memory>
    requires { AreCoherent left.now right.graph }
    ensures due { IfOk result (Combines op left.now right) }
    ensures comes { IfOk result (λ made. ComesOfBoth left.now right.graph right.next made.graph) }
{
    let graph = of_both(alloc, op, left, &right.graph, steps)?;
    Ok(Made {
        graph,
        next: right.next,
    })
}

// The union, the intersection or the difference of two graphs that agree.
fn of_both<L: Ledger>(
    alloc: Global,
    op: SetOp,
    left: &Graph,
    right: &Graph,
    steps: &mut Steps<L>,
) -> Result<Graph, Memory>
    requires { AreCoherent left.now right.now }
    ensures combined { IfOk result (IsCombined op left.now right.now) }
    ensures comes { IfOk result (λ g. (after : ℕ) → ComesOfBoth left.now right.now after g) }
{
    let _valid = (left.node_count(), right.node_count());
    match op {
        SetOp::Union => union(alloc, left, right, steps),
        SetOp::Intersect => intersect(alloc, left, right, steps),
        SetOp::Minus => minus(alloc, left, right, steps),
    }
}
