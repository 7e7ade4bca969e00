ghost use Rattle.std.specs.Prelude.{◌≡◌, length, IfOk};
ghost use Rattle.gc_base.specs.declared.literal.Literal.TheVariants as literal;
ghost use Rattle.gc_values.specs.Arithmetic.{one};
ghost use Rattle.gc_values.specs.declared.val.Val.TheVariants as val;
ghost use Rattle.gc_views.specs.Namings.{view_of};
ghost use Rattle.gc_views.specs.Segments.{as_cost, cost_of, price, value_cost};

use crate::view::Viewed;
use gc_base::{Literal, Memory, Sequence, Steps, Walk};
use gc_rows::RowView;
use gc_values::{Val, value};
use std::sync::ledger::Ledger;

/// The cost of a walk on a row, if it is a good one. A walk without an edge has none.
pub(crate) fn cost_of<L: Ledger>(
    view: &Viewed<'_>,
    row: &RowView<'_>,
    walk: &Walk,
    steps: &mut Steps<L>,
) -> Result<Option<u64>, Memory>
    ensures { IfOk result (λ cost. cost ≡ cost_of (view_of view.now) row.now walk.now) }
{
    let edges = walk.steps.len();
    if edges == 0 {
        return Ok(None);
    }
    price(view, row, edges as u64, steps)
}

// The value of COST on a row, or the number of edges of a view without COST, as a cost.
fn price<L: Ledger>(
    view: &Viewed<'_>,
    row: &RowView<'_>,
    edges: u64,
    steps: &mut Steps<L>,
) -> Result<Option<u64>, Memory>
    ensures { IfOk result (λ cost. cost ≡ price (view_of view.now) row.now edges (view_of view.now).cost) }
{
    let Some(cost) = &view.cost else {
        return Ok(as_cost(edges));
    };
    let made = Sequence::new(view.alloc);
    let folded = Sequence::new(view.alloc);
    let value = value(
        view.alloc,
        cost,
        row,
        view.reads,
        view.graphs,
        &made,
        &folded,
        steps,
    )?;
    Ok(value_cost(&value))
}

// A value as a cost: one number that is a cost.
fn value_cost(value: &Val) -> Option<u64>
    ensures { result ≡ value_cost value.now }
{
    match value {
        Val::Set(values) => literals_cost(values.as_slice()),
        Val::Element(_) | Val::Walked | Val::Undefined(_) => None,
    }
}

fn literals_cost(values: &[Literal]) -> Option<u64>
    ensures { result ≡ value_cost (val.Set values.now) }
{
    match values.split_first() {
        None => None,
        Some((first, rest)) => {
            if rest.is_empty() {
                literal_cost(first)
            } else {
                None
            }
        }
    }
}

fn literal_cost(literal: &Literal) -> Option<u64>
    ensures { result ≡ value_cost (one literal.now) }
{
    match literal {
        Literal::Number(number) => number_cost(*number),
        Literal::Truth(_) | Literal::Text(_) => None,
    }
}

fn number_cost(number: i64) -> Option<u64>
    ensures { result ≡ value_cost (one (literal.Number number)) }
{
    if number < 0 {
        return None;
    }
    as_cost(number as u64)
}

// A whole number as a cost: from 1 to 9223372036854775807.
fn as_cost(number: u64) -> Option<u64>
    ensures { result ≡ as_cost number }
{
    if number > 0 && number < 1 << 63 {
        Some(number)
    } else {
        None
    }
}
