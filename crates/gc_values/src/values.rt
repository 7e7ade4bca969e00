#![tactic(auto, unfolding(gc_expr::specs::Views::numbered_expr, gc_expr::specs::Views::numbered_node, gc_expr::specs::Views::numbered_sum_part, gc_expr::specs::Views::numbered_product_part, crate::specs::ExprValues::value_of, crate::specs::ExprValues::node_value, crate::specs::ExprValues::sum_from, crate::specs::ExprValues::product_from, crate::specs::ExprValues::aggregates))]

ghost use Rattle.std.specs.Prelude.{◌≡◌, drop, map, IfOk};
ghost use Rattle.gc_expr.specs.Trees.{row};
ghost use Rattle.gc_expr.specs.Views.{numbered_expr, numbered_node, numbered_sum_part, numbered_product_part};
ghost use Rattle.gc_values.specs.Arithmetic.{one};
ghost use Rattle.gc_values.specs.Contexts.{Context};
ghost use Rattle.gc_values.specs.Descriptions.{expr_described};
ghost use Rattle.gc_values.specs.ExprValues.{aggregates, datum_value, value_of, node_value, sum_from, product_from};
ghost use Rattle.gc_values.specs.References.{literal_seen, value_seen};
ghost use Rattle.std.specs.Option.{option_copied};

use crate::along::{edge_of, length_of, node_of, walk_of};
use crate::context::Context;
use crate::described::{Seen, expr_described, property_of, variable_described};
use crate::folded::Folded;
use crate::literal_ref::LiteralRef;
use crate::literals::Literals;
use crate::numbers::{Operation, negated};
use crate::reads::{MadeList, Reads};
use crate::val::{Val, ValList, Why};
use crate::val_ref::ValRef;
use gc_base::{Memory, Steps};
use gc_expr::{Expr, ExprNode, ProductPartList, SumPartList};
use gc_ppg::GraphList;
use gc_rows::{Datum, RowView};
use std::alloc::Global;
use std::sync::ledger::Ledger;

/// The value of an expression on a row. `folded` has the values of its aggregates in the order of
/// the text; one that is not told is the empty set. A condition has no value.
pub fn value<L: Ledger>(
    alloc: Global,
    expr: &Expr,
    row: &RowView<'_>,
    reads: &Reads,
    graphs: &GraphList,
    made: &MadeList,
    folded: &ValList,
    steps: &mut Steps<L>,
) -> Result<Val, Memory>
    ensures { let ctx : Context = record { row = row.now; reads = reads.now; graphs = graphs.now; made = made.now } in
        IfOk result (λ v. v ≡ value_of ctx folded.now (numbered_expr expr.now)) }
{
    let context = Context {
        row,
        reads,
        graphs,
        made,
    };
    made_value(alloc, &context, expr, folded.as_slice(), steps)
}

// A copy of the value of an expression.
fn made_value<'a, L: Ledger>(
    alloc: Global,
    context: &'a Context<'_>,
    expr: &'a Expr,
    folded: &'a [Val],
    steps: &mut Steps<L>,
) -> Result<Val, Memory>
    ensures { IfOk result (λ v. v ≡ value_of context.now folded.now (numbered_expr expr.now)) }
{
    value_of(context, expr, &mut Folded::of(folded), steps).to_val(alloc)
}

/// The value of an expression, whose aggregates have the values that come next.
#[cycle(value)]
pub(crate) fn value_of<'a, L: Ledger>(
    context: &'a Context<'_>,
    expr: &'a Expr,
    folded: &mut Folded<'a>,
    steps: &mut Steps<L>,
) -> ValRef<'a>
    ensures value { value_seen result ≡ value_of context.now folded.old (numbered_expr expr.now) }
    ensures rest { folded.new ≡ drop (aggregates (numbered_expr expr.now)) folded.old }
{
    match &expr.node {
        ExprNode::Number(number) => of_literal(LiteralRef::Number(*number)),
        ExprNode::Text(text) => of_literal(LiteralRef::Text(text)),
        ExprNode::Truth(truth) => of_literal(LiteralRef::Truth(*truth)),
        ExprNode::Var(var) => datum_value(context.datum_of(*var)),
        ExprNode::Property(of, name) => property_of(described(context, of, folded, steps), name),
        ExprNode::NodeAt(path, index) => {
            let index = value_of(context, index, folded, steps);
            node_of(walk_of(context, *path, steps), &index)
        }
        ExprNode::EdgeAt(path, index) => {
            let index = value_of(context, index, folded, steps);
            edge_of(walk_of(context, *path, steps), &index)
        }
        ExprNode::Length(path) => length_of(walk_of(context, *path, steps)),
        ExprNode::Aggregate(_, _) => folded.next(),
        ExprNode::Negate(of) => negated(&value_of(context, of, folded, steps)),
        ExprNode::Sum(first, rest) => {
            let first = value_of(context, first, folded, steps);
            sum_from(context, &first, rest, folded, steps)
        }
        ExprNode::Product(first, rest) => {
            let first = value_of(context, first, folded, steps);
            product_from(context, &first, rest, folded, steps)
        }
        ExprNode::Labelled(_, _)
        | ExprNode::Compare(_, _, _)
        | ExprNode::Not(_)
        | ExprNode::And(_)
        | ExprNode::Or(_)
        | ExprNode::Exists(_) => ValRef::Undefined(Why::WrongKind),
    }
}

// A literal as a value.
fn of_literal(literal: LiteralRef<'_>) -> ValRef<'_>
    ensures { value_seen result ≡ one (literal_seen literal.entry) }
{
    ValRef::Set(Literals::One(literal))
}

/// What stands before a dot or a colon. A variable's value is not needed for it.
#[cycle(value)]
pub(crate) fn described<'a, L: Ledger>(
    context: &'a Context<'_>,
    of: &'a Expr,
    folded: &mut Folded<'a>,
    steps: &mut Steps<L>,
) -> Seen<'a>
    ensures seen { result ≡ expr_described context.now (numbered_expr of.now) (value_of context.now folded.old (numbered_expr of.now)) }
    ensures rest { folded.new ≡ drop (aggregates (numbered_expr of.now)) folded.old }
{
    if let ExprNode::Var(var) = &of.node {
        return variable_described(context, *var, steps);
    }
    let value = value_of(context, of, folded, steps);
    expr_described(context, of, &value, steps)
}

// A value and the later parts of a sum, from the left.
#[cycle(value)]
fn sum_from<'a, L: Ledger>(
    context: &'a Context<'_>,
    first: &ValRef<'a>,
    rest: &'a SumPartList,
    folded: &mut Folded<'a>,
    steps: &mut Steps<L>,
) -> ValRef<'a>
    ensures value { value_seen result ≡ sum_from context.now folded.old (value_seen first.now) (row (map numbered_sum_part rest.now.items)) }
    ensures rest { folded.new ≡ drop (aggregates (row (map numbered_sum_part rest.now.items))) folded.old }
{
    let mut total = first.again();
    for part in rest {
        let value = value_of(context, &part.part, folded, steps);
        total = Operation::of_sum(part.minus).on(&total, &value);
    }
    total
}

// A value and the later parts of a product, from the left.
#[cycle(value)]
fn product_from<'a, L: Ledger>(
    context: &'a Context<'_>,
    first: &ValRef<'a>,
    rest: &'a ProductPartList,
    folded: &mut Folded<'a>,
    steps: &mut Steps<L>,
) -> ValRef<'a>
    ensures value { value_seen result ≡ product_from context.now folded.old (value_seen first.now) (row (map numbered_product_part rest.now.items)) }
    ensures rest { folded.new ≡ drop (aggregates (row (map numbered_product_part rest.now.items))) folded.old }
{
    let mut total = first.again();
    for part in rest {
        let value = value_of(context, &part.part, folded, steps);
        total = Operation::of_product(part.op).on(&total, &value);
    }
    total
}

// The value of a variable that stands for this.
fn datum_value(datum: Option<&Datum>) -> ValRef<'_>
    ensures { value_seen result ≡ datum_value (option_copied datum.entry) }
{
    match datum {
        None => ValRef::Set(Literals::Empty),
        Some(Datum::Node(id)) => ValRef::Element(*id),
        Some(Datum::Edge(id)) => ValRef::Element(*id),
        Some(Datum::Stored(id)) => ValRef::Element(*id),
        Some(Datum::Found(_)) => ValRef::Walked,
        Some(Datum::Span { from: _, to: _ }) => ValRef::Walked,
        Some(Datum::Value(values)) => ValRef::Set(Literals::Many(values.get())),
        Some(Datum::PastRange) => ValRef::Undefined(Why::Overflow),
    }
}
