ghost use Rattle.std.specs.Prelude.{◌≡◌, map, IfOk};
ghost use Rattle.gc_expr.specs.Views.{numbered_expr, numbered_node, numbered_sum_part, numbered_product_part};
ghost use Rattle.gc_expr.specs.Trees.{renamed};
ghost use Rattle.gc_views.specs.Namings.{variable_in};

use crate::naming::Naming;
use gc_base::{Duplicate, Memory};
use gc_expr::{Expr, ExprList, ExprNode, ProductPart, ProductPartList, SumPart, SumPartList};

/// A copy of an expression over the variables of its names.
#[tactic(auto, unfolding(gc_expr::specs::Trees::renamed, gc_expr::specs::Views::numbered_expr, gc_expr::specs::Views::numbered_node))]
#[cycle(renamed)]
pub(crate) fn renamed(expr: &Expr, naming: &Naming<'_>) -> Result<Expr, Memory>
    ensures { IfOk result (λ made. numbered_expr made ≡ renamed (variable_in naming.now) (numbered_expr expr.now)) }
{
    let node = renamed_node(&expr.node, naming)?;
    Ok(Expr {
        token: expr.token,
        node,
    })
}

#[tactic(auto, unfolding(gc_expr::specs::Trees::renamed, gc_expr::specs::Views::numbered_expr, gc_expr::specs::Views::numbered_node, gc_expr::specs::Views::numbered_sum_part, gc_expr::specs::Views::numbered_product_part))]
#[cycle(renamed)]
fn renamed_node(node: &ExprNode, naming: &Naming<'_>) -> Result<ExprNode, Memory>
    ensures { IfOk result (λ made. numbered_node made ≡ renamed (variable_in naming.now) (numbered_node node.now)) }
{
    match node {
        ExprNode::Number(number) => Ok(ExprNode::Number(*number)),
        ExprNode::Text(text) => Ok(ExprNode::Text(text.copy()?)),
        ExprNode::Truth(truth) => Ok(ExprNode::Truth(*truth)),
        ExprNode::Var(var) => Ok(ExprNode::Var(naming.named(*var))),
        ExprNode::Property(of, key) => { Ok(ExprNode::Property(boxed(of, naming)?, key.copy()?)) }
        ExprNode::Labelled(of, label) => {
            Ok(ExprNode::Labelled(boxed(of, naming)?, label.copy()?))
        }
        ExprNode::NodeAt(path, at) => {
            Ok(ExprNode::NodeAt(naming.named(*path), boxed(at, naming)?))
        }
        ExprNode::EdgeAt(path, at) => {
            Ok(ExprNode::EdgeAt(naming.named(*path), boxed(at, naming)?))
        }
        ExprNode::Length(path) => Ok(ExprNode::Length(naming.named(*path))),
        ExprNode::Aggregate(fold, operand) => match operand {
            None => Ok(ExprNode::Aggregate(*fold, None)),
            Some(of) => Ok(ExprNode::Aggregate(*fold, Some(boxed(of, naming)?))),
        },
        ExprNode::Negate(of) => Ok(ExprNode::Negate(boxed(of, naming)?)),
        ExprNode::Sum(first, rest) => {
            Ok(ExprNode::Sum(boxed(first, naming)?, sum_parts(rest, naming)?))
        }
        ExprNode::Product(first, rest) => {
            Ok(ExprNode::Product(boxed(first, naming)?, product_parts(rest, naming)?))
        }
        ExprNode::Compare(how, left, right) => {
            Ok(ExprNode::Compare(*how, boxed(left, naming)?, boxed(right, naming)?))
        }
        ExprNode::Not(of) => Ok(ExprNode::Not(boxed(of, naming)?)),
        ExprNode::And(parts) => Ok(ExprNode::And(listed(parts, naming)?)),
        ExprNode::Or(parts) => Ok(ExprNode::Or(listed(parts, naming)?)),
        ExprNode::Exists(number) => Ok(ExprNode::Exists(*number)),
    }
}

#[tactic(auto, unfolding(gc_expr::specs::Views::numbered_expr))]
#[cycle(renamed)]
fn boxed(expr: &Box<Expr>, naming: &Naming<'_>) -> Result<Box<Expr>, Memory>
    ensures { IfOk result (λ made. numbered_expr made.value ≡ renamed (variable_in naming.now) (numbered_expr expr.now.value)) }
{
    let alloc = *Box::allocator(expr);
    Ok(Box::new(alloc, renamed(expr, naming)?)?)
}

#[cycle(renamed)]
fn listed(parts: &ExprList, naming: &Naming<'_>) -> Result<ExprList, Memory>
    ensures { IfOk result (λ made. map numbered_expr made.items ≡ map (λ e. renamed (variable_in naming.now) (numbered_expr e)) parts.now.items) }
{
    let mut made = Vec::with_capacity(*parts.allocator(), parts.len())?;
    for part in parts {
        made.push(renamed(part, naming)?)?;
    }
    Ok(made)
}

#[tactic(auto, unfolding(gc_expr::specs::Trees::renamed, gc_expr::specs::Views::numbered_expr, gc_expr::specs::Views::numbered_sum_part))]
#[cycle(renamed)]
fn sum_parts(parts: &SumPartList, naming: &Naming<'_>) -> Result<SumPartList, Memory>
    ensures { IfOk result (λ made. map numbered_sum_part made.items ≡ map (λ p. renamed (variable_in naming.now) (numbered_sum_part p)) parts.now.items) }
{
    let mut made = Vec::with_capacity(*parts.allocator(), parts.len())?;
    for part in parts {
        made.push(SumPart {
            minus: part.minus,
            part: renamed(&part.part, naming)?,
        })?;
    }
    Ok(made)
}

#[tactic(auto, unfolding(gc_expr::specs::Trees::renamed, gc_expr::specs::Views::numbered_expr, gc_expr::specs::Views::numbered_product_part))]
#[cycle(renamed)]
fn product_parts(parts: &ProductPartList, naming: &Naming<'_>) -> Result<ProductPartList, Memory>
    ensures { IfOk result (λ made. map numbered_product_part made.items
        ≡ map (λ p. renamed (variable_in naming.now) (numbered_product_part p)) parts.now.items) }
{
    let mut made = Vec::with_capacity(*parts.allocator(), parts.len())?;
    for part in parts {
        made.push(ProductPart {
            op: part.op,
            part: renamed(&part.part, naming)?,
        })?;
    }
    Ok(made)
}
