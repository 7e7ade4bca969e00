ghost use Rattle.std.specs.Prelude.{◌≡◌, map, slice_get, IfOk};
ghost use Rattle.gc_build_descriptions.specs.Aggregates.{aggregated, aggregations, operand_value};
ghost use Rattle.gc_build_descriptions.specs.Assigned.{assigned_values, contexts, row_at};
ghost use Rattle.gc_build_descriptions.specs.Standing.{plain};
ghost use Rattle.gc_expr.specs.Views.{numbered_expr};
ghost use Rattle.gc_build_numbers.specs.Settings.{on_row};
ghost use Rattle.gc_values.specs.ExprValues.{value_of};

use crate::aggregates::Aggregate;
use gc_base::{Memory, Steps, ValueSet};
use gc_build_numbers::Setting;
use gc_build_recipe::Assignment;
use gc_expr::Expr;
use gc_group::fold;
use gc_rows::{Row, RowView};
use gc_values::{MadeList, Val, ValList, value};
use std::sync::ledger::Ledger;

/// The row at a place in the table, if it has one there.
pub(crate) fn row_at<'a>(setting: &'a Setting<'_>, place: u64) -> Option<RowView<'a>>
    ensures { result ≡ slice_get setting.now.rows place }
{
    setting.table.get(place as usize)
}

/// The values of an assignment on the rows of a group. It takes the aggregates of its expression.
#[tactic(auto, using(crate::proofs::AssignedLaws::values_assigned))]
pub(crate) fn assigned_values<L: Ledger>(
    setting: &Setting<'_>,
    assignment: &Assignment,
    aggregates: &[Aggregate<'_>],
    places: &[u64],
    steps: &mut Steps<L>,
) -> Result<Vec<Val>, Memory>
    requires { map plain aggregates.now ≡ aggregations assignment.now.value }
    ensures { IfOk result (λ values. values.items ≡ assigned_values setting.now assignment.now places.now) }
{
    let folded = all_aggregated(setting, aggregates, places, steps)?;
    values_at(setting, &assignment.value, places, &folded, steps)
}

// The values of aggregates over the rows of a group.
fn all_aggregated<L: Ledger>(
    setting: &Setting<'_>,
    aggregates: &[Aggregate<'_>],
    places: &[u64],
    steps: &mut Steps<L>,
) -> Result<ValList, Memory>
    ensures { IfOk result (λ values. values ≡ map (aggregated (contexts setting.now places.now)) (map plain aggregates.now)) }
{
    let mut values = ValList::new(setting.alloc);
    for aggregate in aggregates {
        values.push(aggregated(setting, aggregate, places, steps)?)?;
    }
    Ok(values)
}

// The value of an aggregate over the rows of a group.
fn aggregated<L: Ledger>(
    setting: &Setting<'_>,
    aggregate: &Aggregate<'_>,
    places: &[u64],
    steps: &mut Steps<L>,
) -> Result<Val, Memory>
    ensures { IfOk result (λ v. v ≡ aggregated (contexts setting.now places.now) (plain aggregate.now)) }
{
    let operands = operands(setting, aggregate, places, steps)?;
    fold(setting.alloc, aggregate.how, &operands)
}

// The values of the operand of an aggregate on rows.
fn operands<L: Ledger>(
    setting: &Setting<'_>,
    aggregate: &Aggregate<'_>,
    places: &[u64],
    steps: &mut Steps<L>,
) -> Result<Vec<Val>, Memory>
    ensures { IfOk result (λ values. values.items ≡ map (operand_value (plain aggregate.now).operand) (contexts setting.now places.now)) }
{
    let mut values = Vec::with_capacity(setting.alloc, places.len())?;
    for place in places {
        values.push(operand_at(setting, aggregate, *place, steps)?)?;
    }
    Ok(values)
}

// The value of the operand of an aggregate on a row. COUNT(*) has none.
fn operand_at<L: Ledger>(
    setting: &Setting<'_>,
    aggregate: &Aggregate<'_>,
    place: u64,
    steps: &mut Steps<L>,
) -> Result<Val, Memory>
    ensures { IfOk result (λ v. v ≡ operand_value (plain aggregate.now).operand (on_row setting.now (row_at setting.now place))) }
{
    let alloc = setting.alloc;
    match aggregate.operand {
        None => Ok(Val::Set(ValueSet::empty(alloc))),
        Some(operand) => value_at(setting, operand, place, &ValList::new(alloc), steps),
    }
}

// The values of an expression on rows, where its aggregates have these values.
fn values_at<L: Ledger>(
    setting: &Setting<'_>,
    expr: &Expr,
    places: &[u64],
    folded: &ValList,
    steps: &mut Steps<L>,
) -> Result<Vec<Val>, Memory>
    ensures { IfOk result (λ values. values.items ≡ map (λ ctx. value_of ctx folded.now (numbered_expr expr.now)) (contexts setting.now places.now)) }
{
    let mut values = Vec::with_capacity(setting.alloc, places.len())?;
    for place in places {
        values.push(value_at(setting, expr, *place, folded, steps)?)?;
    }
    Ok(values)
}

// The value on the row at a place in the table. A place without a row is read as the empty row.
fn value_at<L: Ledger>(
    setting: &Setting<'_>,
    expr: &Expr,
    place: u64,
    folded: &ValList,
    steps: &mut Steps<L>,
) -> Result<Val, Memory>
    ensures { IfOk result (λ v. v ≡ value_of (on_row setting.now (row_at setting.now place)) folded.now (numbered_expr expr.now)) }
{
    match row_at(setting, place) {
        Some(row) => value_on(setting, expr, &row, folded, steps),
        None => {
            let empty = Row::empty(setting.alloc);
            value_on(setting, expr, &RowView::of(&empty), folded, steps)
        }
    }
}

// The value on a row.
fn value_on<L: Ledger>(
    setting: &Setting<'_>,
    expr: &Expr,
    row: &RowView<'_>,
    folded: &ValList,
    steps: &mut Steps<L>,
) -> Result<Val, Memory>
    ensures { IfOk result (λ v. v ≡ value_of (on_row setting.now row.now) folded.now (numbered_expr expr.now)) }
{
    let alloc = setting.alloc;
    let made = MadeList::new(alloc);
    value(
        alloc,
        expr,
        row,
        setting.reads,
        setting.graphs,
        &made,
        folded,
        steps,
    )
}
