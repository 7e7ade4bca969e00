#![tactic(auto, using(crate::proofs::KleeneLaws::both_assoc, crate::proofs::KleeneLaws::both_Yes, crate::proofs::KleeneLaws::either_assoc, crate::proofs::KleeneLaws::either_No), unfolding(gc_expr::specs::Views::numbered_expr, gc_expr::specs::Views::numbered_node, crate::specs::ExprTruths::truth_of, crate::specs::ExprTruths::node_truth, crate::specs::ExprTruths::all_of, crate::specs::ExprTruths::any_of))]

ghost use Rattle.std.specs.Prelude.{◌≡◌, [], map, IfOk, slice_get};
ghost use Rattle.gc_expr.specs.Trees.{row};
ghost use Rattle.gc_expr.specs.Views.{numbered_expr};
ghost use Rattle.gc_values.specs.Contexts.{Context};
ghost use Rattle.gc_values.specs.ExprValues.{value_of};
ghost use Rattle.gc_values.specs.References.{value_seen};
ghost use Rattle.gc_values.specs.ExprTruths.{answered, truth_of, all_of, any_of};

use crate::compared::compared;
use crate::context::Context;
use crate::described::label_truth;
use crate::folded::Folded;
use crate::reads::{MadeList, Reads};
use crate::truth3::Truth3;
use crate::val_ref::ValRef;
use crate::values::{described, value_of};
use gc_base::{Memory, Steps};
use gc_expr::{Expr, ExprList, ExprNode};
use gc_ppg::GraphList;
use gc_rows::RowView;
use std::alloc::Global;
use std::sync::ledger::Ledger;

/// The truth of a condition on a row. `answers` has the answers to the EXISTS queries beside it, by
/// their numbers; one that is not told is unknown. What is no condition is unknown.
pub fn truth<L: Ledger>(
    _alloc: Global,
    expr: &Expr,
    row: &RowView<'_>,
    reads: &Reads,
    graphs: &GraphList,
    made: &MadeList,
    answers: &[bool],
    steps: &mut Steps<L>,
) -> Result<Truth3, Memory>
    ensures { let ctx : Context = record { row = row.now; reads = reads.now; graphs = graphs.now; made = made.now } in
        IfOk result (λ t. t ≡ truth_of ctx answers.now (numbered_expr expr.now)) }
{
    let context = Context {
        row,
        reads,
        graphs,
        made,
    };
    Ok(truth_of(&context, expr, answers, steps))
}

#[cycle(truth)]
fn truth_of<'a, L: Ledger>(
    context: &'a Context<'_>,
    expr: &'a Expr,
    answers: &[bool],
    steps: &mut Steps<L>,
) -> Truth3
    ensures { result ≡ truth_of context.now answers.now (numbered_expr expr.now) }
{
    match &expr.node {
        ExprNode::Labelled(of, label) => {
            label_truth(&described(context, of, &mut Folded::of(&[]), steps), label)
        }
        ExprNode::Compare(how, left, right) => {
            let left = plain_value(context, left, steps);
            let right = plain_value(context, right, steps);
            compared(*how, &left, &right)
        }
        ExprNode::Not(of) => truth_of(context, of, answers, steps).denied(),
        ExprNode::And(parts) => all_of(context, parts, answers, steps),
        ExprNode::Or(parts) => any_of(context, parts, answers, steps),
        ExprNode::Exists(number) => answered(answers, *number),
        ExprNode::Number(_)
        | ExprNode::Text(_)
        | ExprNode::Truth(_)
        | ExprNode::Var(_)
        | ExprNode::Property(_, _)
        | ExprNode::NodeAt(_, _)
        | ExprNode::EdgeAt(_, _)
        | ExprNode::Length(_)
        | ExprNode::Aggregate(_, _)
        | ExprNode::Negate(_)
        | ExprNode::Sum(_, _)
        | ExprNode::Product(_, _) => Truth3::Unknown,
    }
}

// All of the parts.
#[cycle(truth)]
fn all_of<'a, L: Ledger>(
    context: &'a Context<'_>,
    parts: &'a ExprList,
    answers: &[bool],
    steps: &mut Steps<L>,
) -> Truth3
    ensures { result ≡ all_of context.now answers.now (row (map numbered_expr parts.now.items)) }
{
    let mut all = Truth3::Yes;
    for part in parts {
        all = all.both(truth_of(context, part, answers, steps));
    }
    all
}

// One of the parts.
#[cycle(truth)]
fn any_of<'a, L: Ledger>(
    context: &'a Context<'_>,
    parts: &'a ExprList,
    answers: &[bool],
    steps: &mut Steps<L>,
) -> Truth3
    ensures { result ≡ any_of context.now answers.now (row (map numbered_expr parts.now.items)) }
{
    let mut any = Truth3::No;
    for part in parts {
        any = any.either(truth_of(context, part, answers, steps));
    }
    any
}

// The value of an operand, in which no aggregate has a value.
fn plain_value<'a, L: Ledger>(
    context: &'a Context<'_>,
    expr: &'a Expr,
    steps: &mut Steps<L>,
) -> ValRef<'a>
    ensures { value_seen result ≡ value_of context.now [] (numbered_expr expr.now) }
{
    value_of(context, expr, &mut Folded::of(&[]), steps)
}

// The answer to an EXISTS query.
fn answered(answers: &[bool], number: u32) -> Truth3
    ensures { result ≡ answered (slice_get answers.now number) }
{
    match answers.get(number as usize) {
        Some(answer) => Truth3::told(*answer),
        None => Truth3::Unknown,
    }
}
