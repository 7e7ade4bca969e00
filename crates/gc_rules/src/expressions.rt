#![tactic(auto, unfolding(gc_expr::specs::Views::numbered_expr, gc_expr::specs::Views::numbered_node, gc_expr::specs::Views::numbered_sum_part, gc_expr::specs::Views::numbered_product_part, crate::specs::ExpressionVariables::in_expression))]

ghost use Rattle.std.specs.Prelude.{◌≡◌, ◌++◌, ◌∷◌, [], map, OnOk};
ghost use Rattle.gc_expr.specs.Trees.{maybe, row};
ghost use Rattle.gc_expr.specs.Views.{unboxed, numbered_expr, numbered_sum_part, numbered_product_part};
ghost use Rattle.gc_rules.specs.ExpressionVariables.{in_expression};

use gc_base::{Memory, Sym};
use gc_expr::{Expr, ExprNode, ProductPart, SumPart};

/// Adds the variables in an expression, in the order of the text.
#[cycle(expressions)]
pub(crate) fn push_expression(vars: &mut Vec<Sym>, expr: &Expr) -> Result<(), Memory>
    ensures { OnOk result (vars.new.items ≡ vars.old.items ++ in_expression (numbered_expr expr.now)) }
{
    match &expr.node {
        ExprNode::Var(var) => push_one(vars, *var),
        ExprNode::Property(of, _) => push_expression(vars, of),
        ExprNode::Labelled(of, _) => push_expression(vars, of),
        ExprNode::NodeAt(path, at) => {
            push_one(vars, *path)?;
            push_expression(vars, at)
        }
        ExprNode::EdgeAt(path, at) => {
            push_one(vars, *path)?;
            push_expression(vars, at)
        }
        ExprNode::Length(path) => push_one(vars, *path),
        ExprNode::Aggregate(_, operand) => push_if(vars, operand),
        ExprNode::Negate(of) => push_expression(vars, of),
        ExprNode::Sum(first, rest) => {
            push_expression(vars, first)?;
            push_sum(vars, rest)
        }
        ExprNode::Product(first, rest) => {
            push_expression(vars, first)?;
            push_product(vars, rest)
        }
        ExprNode::Compare(_, left, right) => {
            push_expression(vars, left)?;
            push_expression(vars, right)
        }
        ExprNode::Not(of) => push_expression(vars, of),
        ExprNode::And(parts) => push_parts(vars, parts),
        ExprNode::Or(parts) => push_parts(vars, parts),
        ExprNode::Number(_) | ExprNode::Text(_) | ExprNode::Truth(_) | ExprNode::Exists(_) => Ok(
            (),
        ),
    }
}

// Adds the variables in the operand of an aggregate, if it has one.
#[cycle(expressions)]
fn push_if(vars: &mut Vec<Sym>, operand: &Option<Box<Expr>>) -> Result<(), Memory>
    ensures { OnOk result (vars.new.items ≡ vars.old.items ++ in_expression (maybe (unboxed (λ e. numbered_expr e.value) operand.now))) }
{
    match operand {
        None => Ok(()),
        Some(of) => push_expression(vars, of),
    }
}

// Adds the variables in several expressions.
#[cycle(expressions)]
fn push_parts(vars: &mut Vec<Sym>, parts: &[Expr]) -> Result<(), Memory>
    ensures { OnOk result (vars.new.items ≡ vars.old.items ++ in_expression (row (map numbered_expr parts.now))) }
{
    for part in parts {
        push_expression(vars, part)?;
    }
    Ok(())
}

// Adds the variables in the later parts of a sum.
#[cycle(expressions)]
fn push_sum(vars: &mut Vec<Sym>, parts: &[SumPart]) -> Result<(), Memory>
    ensures { OnOk result (vars.new.items ≡ vars.old.items ++ in_expression (row (map numbered_sum_part parts.now))) }
{
    for part in parts {
        push_expression(vars, &part.part)?;
    }
    Ok(())
}

// Adds the variables in the later parts of a product.
#[cycle(expressions)]
fn push_product(vars: &mut Vec<Sym>, parts: &[ProductPart]) -> Result<(), Memory>
    ensures { OnOk result (vars.new.items ≡ vars.old.items ++ in_expression (row (map numbered_product_part parts.now))) }
{
    for part in parts {
        push_expression(vars, &part.part)?;
    }
    Ok(())
}

// Adds a variable.
fn push_one(vars: &mut Vec<Sym>, var: Sym) -> Result<(), Memory>
    ensures { OnOk result (vars.new.items ≡ vars.old.items ++ var ∷ []) }
{
    vars.push(var)?;
    Ok(())
}
