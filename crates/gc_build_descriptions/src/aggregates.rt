#![tactic(auto, unfolding(gc_expr::specs::Views::numbered_expr, gc_expr::specs::Views::numbered_node, gc_expr::specs::Views::numbered_sum_part, gc_expr::specs::Views::numbered_product_part, crate::specs::Aggregates::aggregations))]

ghost use Rattle.std.specs.Prelude.{◌≡◌, ◌++◌, ◌∷◌, [], map, IfOk, OnOk};
ghost use Rattle.gc_build_descriptions.specs.Aggregates.{aggregations};
ghost use Rattle.gc_build_descriptions.specs.Standing.{plain};
ghost use Rattle.gc_expr.specs.Trees.{maybe, row};
ghost use Rattle.gc_expr.specs.Views.{unboxed, numbered_expr, numbered_sum_part, numbered_product_part};

use gc_base::Memory;
use gc_expr::{Expr, ExprNode, Fold, ProductPartList, SumPartList};
use std::alloc::Global;

/// An aggregate where it stands, and its operand if it has one.
#[derive(Drop)]
pub(crate) struct Aggregate<'a> {
    pub how: Fold,
    pub operand: Option<&'a Expr>,
}

/// The aggregates of an expression, in the order of the text. None is inside another.
pub(crate) fn aggregations(alloc: Global, expr: &Expr) -> Result<Vec<Aggregate<'_>>, Memory>
    ensures { IfOk result (λ found. map plain found.items ≡ aggregations (numbered_expr expr.now)) }
{
    let mut found = Vec::new(alloc);
    collect(&mut found, expr)?;
    Ok(found)
}

// Adds the aggregates of an expression.
#[cycle(collect)]
fn collect<'a>(found: &mut Vec<Aggregate<'a>>, expr: &'a Expr) -> Result<(), Memory>
    ensures { OnOk result (map plain found.new.items ≡ map plain found.old.items ++ aggregations (numbered_expr expr.now)) }
{
    match &expr.node {
        ExprNode::Aggregate(how, operand) => add(found, *how, operand),
        ExprNode::Property(of, _) => collect(found, of),
        ExprNode::NodeAt(_, index) => collect(found, index),
        ExprNode::EdgeAt(_, index) => collect(found, index),
        ExprNode::Negate(of) => collect(found, of),
        ExprNode::Sum(first, rest) => {
            collect(found, first)?;
            collect_sum(found, rest)
        }
        ExprNode::Product(first, rest) => {
            collect(found, first)?;
            collect_product(found, rest)
        }
        ExprNode::Number(_)
        | ExprNode::Text(_)
        | ExprNode::Truth(_)
        | ExprNode::Var(_)
        | ExprNode::Length(_)
        | ExprNode::Labelled(_, _)
        | ExprNode::Compare(_, _, _)
        | ExprNode::Not(_)
        | ExprNode::And(_)
        | ExprNode::Or(_)
        | ExprNode::Exists(_) => Ok(()),
    }
}

// Adds the aggregates of the later parts of a sum.
#[cycle(collect)]
fn collect_sum<'a>(found: &mut Vec<Aggregate<'a>>, rest: &'a SumPartList) -> Result<(), Memory>
    ensures { OnOk result (map plain found.new.items ≡ map plain found.old.items ++ aggregations (row (map numbered_sum_part rest.now.items))) }
{
    for part in rest {
        collect(found, &part.part)?;
    }
    Ok(())
}

// Adds the aggregates of the later parts of a product.
#[cycle(collect)]
fn collect_product<'a>(
    found: &mut Vec<Aggregate<'a>>,
    rest: &'a ProductPartList,
) -> Result<(), Memory>
    ensures { OnOk result (map plain found.new.items ≡ map plain found.old.items ++ aggregations (row (map numbered_product_part rest.now.items))) }
{
    for part in rest {
        collect(found, &part.part)?;
    }
    Ok(())
}

// Adds an aggregate.
fn add<'a>(
    found: &mut Vec<Aggregate<'a>>,
    how: Fold,
    operand: &'a Option<Box<Expr>>,
) -> Result<(), Memory>
    ensures { OnOk result (map plain found.new.items ≡ map plain found.old.items
        ++ record { how = how; operand = maybe (unboxed (λ e. numbered_expr e.value) operand.now) } ∷ []) }
{
    let operand = match operand {
        None => None,
        Some(operand) => Some(&**operand),
    };
    found.push(Aggregate { how, operand })?;
    Ok(())
}
