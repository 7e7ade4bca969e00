ghost use Rattle.std.specs.Prelude.{◌≡◌, ◌+◌, map, IfOk};
ghost use Rattle.gc_expr.specs.Trees.{row};
ghost use Rattle.gc_expr.specs.Views.{numbered_expr, numbered_node, numbered_sum_part, numbered_product_part};
ghost use Rattle.gc_lower.specs.Conditions.{exists_count};

use gc_base::Memory;
use gc_expr::{Expr, ExprNode, ProductPart, SumPart};

/// How many EXISTS an expression has. A number past its type is want of memory.
#[tactic(auto, unfolding(crate::specs::Conditions::exists_count, gc_expr::specs::Views::numbered_expr, gc_expr::specs::Views::numbered_node))]
#[cycle(counted)]
pub(crate) fn exists_count(expr: &Expr) -> Result<u32, Memory>
    ensures { IfOk result (λ count. count ≡ exists_count (numbered_expr expr.now)) }
{
    in_node(&expr.node)
}

#[tactic(auto, unfolding(crate::specs::Conditions::exists_count, gc_expr::specs::Views::numbered_expr, gc_expr::specs::Views::numbered_node, gc_expr::specs::Views::numbered_sum_part, gc_expr::specs::Views::numbered_product_part))]
#[cycle(counted)]
fn in_node(node: &ExprNode) -> Result<u32, Memory>
    ensures { IfOk result (λ count. count ≡ exists_count (numbered_node node.now)) }
{
    match node {
        ExprNode::Number(_) => Ok(0),
        ExprNode::Text(_) => Ok(0),
        ExprNode::Truth(_) => Ok(0),
        ExprNode::Var(_) => Ok(0),
        ExprNode::Property(of, _) => exists_count(of),
        ExprNode::Labelled(of, _) => exists_count(of),
        ExprNode::NodeAt(_, at) => exists_count(at),
        ExprNode::EdgeAt(_, at) => exists_count(at),
        ExprNode::Length(_) => Ok(0),
        ExprNode::Aggregate(_, operand) => match operand {
            None => Ok(0),
            Some(of) => exists_count(of),
        },
        ExprNode::Negate(of) => exists_count(of),
        ExprNode::Sum(first, rest) => sum(exists_count(first)?, in_sum(rest)?),
        ExprNode::Product(first, rest) => sum(exists_count(first)?, in_product(rest)?),
        ExprNode::Compare(_, left, right) => sum(exists_count(left)?, exists_count(right)?),
        ExprNode::Not(of) => exists_count(of),
        ExprNode::And(parts) => in_parts(parts),
        ExprNode::Or(parts) => in_parts(parts),
        ExprNode::Exists(_) => Ok(1),
    }
}

#[tactic(auto, unfolding(crate::specs::Conditions::exists_count))]
#[cycle(counted)]
fn in_parts(parts: &[Expr]) -> Result<u32, Memory>
    ensures { IfOk result (λ count. count ≡ exists_count (row (map numbered_expr parts.now))) }
{
    let mut count = 0;
    for part in parts {
        count = sum(count, exists_count(part)?)?;
    }
    Ok(count)
}

#[tactic(auto, unfolding(crate::specs::Conditions::exists_count, gc_expr::specs::Views::numbered_expr, gc_expr::specs::Views::numbered_sum_part))]
#[cycle(counted)]
fn in_sum(parts: &[SumPart]) -> Result<u32, Memory>
    ensures { IfOk result (λ count. count ≡ exists_count (row (map numbered_sum_part parts.now))) }
{
    let mut count = 0;
    for part in parts {
        count = sum(count, exists_count(&part.part)?)?;
    }
    Ok(count)
}

#[tactic(auto, unfolding(crate::specs::Conditions::exists_count, gc_expr::specs::Views::numbered_expr, gc_expr::specs::Views::numbered_product_part))]
#[cycle(counted)]
fn in_product(parts: &[ProductPart]) -> Result<u32, Memory>
    ensures { IfOk result (λ count. count ≡ exists_count (row (map numbered_product_part parts.now))) }
{
    let mut count = 0;
    for part in parts {
        count = sum(count, exists_count(&part.part)?)?;
    }
    Ok(count)
}

/// A sum. One past its type is want of memory.
pub(crate) fn sum(a: u32, b: u32) -> Result<u32, Memory>
    ensures { IfOk result (λ c. c ≡ a + b) }
{
    match a.checked_add(b) {
        None => Err(Memory),
        Some(c) => Ok(c),
    }
}
