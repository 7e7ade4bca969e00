ghost use Rattle.std.specs.Prelude.{◌≡◌, true, IfOk, IfSome};
ghost use Rattle.std.specs.List.{filter};
ghost use Rattle.gc_rows.specs.Arrays.{is_distinct};
ghost use Rattle.gc_rows.specs.Rows.{lists};
ghost use Rattle.gc_alg.specs.Plans.{IsRowOfPlan, phys_tree};
ghost use Rattle.gc_alg.specs.Tables.{table_schema};
ghost use Rattle.gc_alg.specs.Views.{block_tree};
ghost use Rattle.gc_exec.specs.Found.{AreExactly};
ghost use Rattle.gc_exec.specs.Runs.{Runs, setting_on};

use crate::joins::{joined, outer_joined};
use crate::plans::{know, pour_into};
use crate::schemas::variables_of;
use crate::task::Task;
use gc_alg::Phys;
use gc_base::{Memory, Sequence, Steps, Sym};
use gc_rows::{RowArray, SymList, Table, is_listed};
use std::alloc::Global;
use std::sync::ledger::Ledger;

/// The rows of a plan that is a join, or `None` where it is another. Each side has its variables in the order of the table, so that the
/// join likely has them in it too.
pub(crate) fn joined_at_top<L: Ledger>(
    plan: &Phys,
    task: &Task<'_>,
    order: &SymList,
    steps: &mut Steps<L>,
) -> Result<Option<Table>, Memory>
    requires runs { Runs (block_tree task.now.block.now) (phys_tree plan.now) }
    requires order { order.now ≡ table_schema (setting_on task.now.graphs.now (block_tree task.now.block.now) task.now.given.now) }
    requires distinct { is_distinct order.now ≡ true }
    ensures { let s = setting_on task.now.graphs.now (block_tree task.now.block.now) task.now.given.now in
        IfOk result (λ found. IfSome found (λ whole. AreExactly (IsRowOfPlan s (phys_tree plan.now)) whole.rows)) }
{
    match plan {
        Phys::Join(left, right) => {
            let left = collect_in(left, task, order, steps)?;
            let right = collect_in(right, task, order, steps)?;
            Ok(Some(joined(task.alloc, left, right)?))
        }
        Phys::Outer(left, right) => {
            let left = collect_in(left, task, order, steps)?;
            let right = collect_in(right, task, order, steps)?;
            Ok(Some(outer_joined(task.alloc, left, right)?))
        }
        _ => Ok(None),
    }
}

// All rows of a plan, over its variables in the order of the table.
fn collect_in<L: Ledger>(
    plan: &Phys,
    task: &Task<'_>,
    order: &SymList,
    steps: &mut Steps<L>,
) -> Result<RowArray, Memory>
    requires runs { Runs (block_tree task.now.block.now) (phys_tree plan.now) }
    requires order { order.now ≡ table_schema (setting_on task.now.graphs.now (block_tree task.now.block.now) task.now.given.now) }
    requires distinct { is_distinct order.now ≡ true }
    ensures { let s = setting_on task.now.graphs.now (block_tree task.now.block.now) task.now.given.now in
        IfOk result (λ found. AreExactly (IsRowOfPlan s (phys_tree plan.now)) found.rows) }
{
    know(task.given);
    let vars = variables_of(plan, task)?;
    let schema = ordered(task.alloc, vars.as_slice(), order.as_slice())?;
    let empty = RowArray::new(task.alloc, schema);
    pour_into(plan, task, empty, steps)
}

// Those of an order that are among variables.
fn ordered(alloc: Global, vars: &[Sym], order: &[Sym]) -> Result<SymList, Memory>
    ensures { IfOk result (λ both. both ≡ filter (λ x. lists vars.now x) order.now) }
{
    let mut kept = Vec::new(alloc);
    for var in order {
        if is_listed(vars, *var) {
            kept.push(*var)?;
        }
    }
    Ok(Sequence::from_vec(kept))
}
