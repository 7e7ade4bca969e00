ghost use Rattle.std.specs.Prelude.{◌≡◌, map, IfOk};
ghost use Rattle.gc_expr.specs.Views.{numbered_expr, numbered_node, numbered_sum_part, numbered_product_part};
ghost use Rattle.gc_lower.specs.Conditions.{moved};
ghost use Rattle.gc_lower.specs.Namings.{variable_in};

use crate::naming::Naming;
use gc_base::{Duplicate, Memory};
use gc_expr::{Expr, ExprList, ExprNode, ProductPart, ProductPartList, SumPart, SumPartList};

/// A copy of an expression over the variables of its names, the numbers of whose EXISTS are less by some.
#[tactic(auto, unfolding(crate::specs::Conditions::counted_from, gc_expr::specs::Trees::renamed, gc_expr::specs::Views::numbered_expr, gc_expr::specs::Views::numbered_node))]
#[cycle(renumbered)]
pub(crate) fn renumbered(expr: &Expr, naming: &Naming<'_>, before: u32) -> Result<Expr, Memory>
    ensures { IfOk result (λ made. numbered_expr made ≡ moved (variable_in naming.now) before (numbered_expr expr.now)) }
{
    let node = renumbered_node(&expr.node, naming, before)?;
    Ok(Expr {
        token: expr.token,
        node,
    })
}

#[tactic(auto, unfolding(crate::specs::Conditions::counted_from, gc_expr::specs::Trees::renamed, gc_expr::specs::Views::numbered_expr, gc_expr::specs::Views::numbered_node, gc_expr::specs::Views::numbered_sum_part, gc_expr::specs::Views::numbered_product_part))]
#[cycle(renumbered)]
fn renumbered_node(node: &ExprNode, naming: &Naming<'_>, before: u32) -> Result<ExprNode, Memory>
    ensures { IfOk result (λ made. numbered_node made ≡ moved (variable_in naming.now) before (numbered_node node.now)) }
{
    match node {
        ExprNode::Number(number) => Ok(ExprNode::Number(*number)),
        ExprNode::Text(text) => Ok(ExprNode::Text(text.copy()?)),
        ExprNode::Truth(truth) => Ok(ExprNode::Truth(*truth)),
        ExprNode::Var(var) => Ok(ExprNode::Var(naming.named(*var))),
        ExprNode::Property(of, key) => {
            Ok(ExprNode::Property(boxed(of, naming, before)?, key.copy()?))
        }
        ExprNode::Labelled(of, label) => {
            Ok(ExprNode::Labelled(boxed(of, naming, before)?, label.copy()?))
        }
        ExprNode::NodeAt(path, at) => {
            Ok(ExprNode::NodeAt(naming.named(*path), boxed(at, naming, before)?))
        }
        ExprNode::EdgeAt(path, at) => {
            Ok(ExprNode::EdgeAt(naming.named(*path), boxed(at, naming, before)?))
        }
        ExprNode::Length(path) => Ok(ExprNode::Length(naming.named(*path))),
        ExprNode::Aggregate(fold, operand) => match operand {
            None => Ok(ExprNode::Aggregate(*fold, None)),
            Some(of) => Ok(ExprNode::Aggregate(*fold, Some(boxed(of, naming, before)?))),
        },
        ExprNode::Negate(of) => Ok(ExprNode::Negate(boxed(of, naming, before)?)),
        ExprNode::Sum(first, rest) => {
            Ok(ExprNode::Sum(
                boxed(first, naming, before)?,
                sum_parts(rest, naming, before)?,
            ))
        }
        ExprNode::Product(first, rest) => {
            Ok(ExprNode::Product(
                boxed(first, naming, before)?,
                product_parts(rest, naming, before)?,
            ))
        }
        ExprNode::Compare(how, left, right) => {
            Ok(ExprNode::Compare(
                *how,
                boxed(left, naming, before)?,
                boxed(right, naming, before)?,
            ))
        }
        ExprNode::Not(of) => Ok(ExprNode::Not(boxed(of, naming, before)?)),
        ExprNode::And(parts) => Ok(ExprNode::And(listed(parts, naming, before)?)),
        ExprNode::Or(parts) => Ok(ExprNode::Or(listed(parts, naming, before)?)),
        ExprNode::Exists(number) => Ok(ExprNode::Exists(number.saturating_sub(before))),
    }
}

#[tactic(auto, unfolding(gc_expr::specs::Views::numbered_expr))]
#[cycle(renumbered)]
fn boxed(expr: &Box<Expr>, naming: &Naming<'_>, before: u32) -> Result<Box<Expr>, Memory>
    ensures { IfOk result (λ made. numbered_expr made.value ≡ moved (variable_in naming.now) before (numbered_expr expr.now.value)) }
{
    let alloc = *Box::allocator(expr);
    Ok(Box::new(alloc, renumbered(expr, naming, before)?)?)
}

#[cycle(renumbered)]
fn listed(parts: &ExprList, naming: &Naming<'_>, before: u32) -> Result<ExprList, Memory>
    ensures { IfOk result (λ made. map numbered_expr made.items ≡ map (λ e. moved (variable_in naming.now) before (numbered_expr e)) parts.now.items) }
{
    let mut made = Vec::with_capacity(*parts.allocator(), parts.len())?;
    for part in parts {
        made.push(renumbered(part, naming, before)?)?;
    }
    Ok(made)
}

#[tactic(auto, unfolding(crate::specs::Conditions::counted_from, gc_expr::specs::Trees::renamed, gc_expr::specs::Views::numbered_expr, gc_expr::specs::Views::numbered_sum_part))]
#[cycle(renumbered)]
fn sum_parts(parts: &SumPartList, naming: &Naming<'_>, before: u32) -> Result<SumPartList, Memory>
    ensures { IfOk result (λ made. map numbered_sum_part made.items ≡ map (λ p. moved (variable_in naming.now) before (numbered_sum_part p)) parts.now.items) }
{
    let mut made = Vec::with_capacity(*parts.allocator(), parts.len())?;
    for part in parts {
        made.push(SumPart {
            minus: part.minus,
            part: renumbered(&part.part, naming, before)?,
        })?;
    }
    Ok(made)
}

#[tactic(auto, unfolding(crate::specs::Conditions::counted_from, gc_expr::specs::Trees::renamed, gc_expr::specs::Views::numbered_expr, gc_expr::specs::Views::numbered_product_part))]
#[cycle(renumbered)]
fn product_parts(
    parts: &ProductPartList,
    naming: &Naming<'_>,
    before: u32,
) -> Result<ProductPartList, Memory>
    ensures { IfOk result (λ made. map numbered_product_part made.items
        ≡ map (λ p. moved (variable_in naming.now) before (numbered_product_part p)) parts.now.items) }
{
    let mut made = Vec::with_capacity(*parts.allocator(), parts.len())?;
    for part in parts {
        made.push(ProductPart {
            op: part.op,
            part: renumbered(&part.part, naming, before)?,
        })?;
    }
    Ok(made)
}
