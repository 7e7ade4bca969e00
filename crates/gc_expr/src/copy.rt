ghost use Rattle.std.specs.Prelude.{◌≡◌, map, IfOk};
ghost use Rattle.gc_expr.specs.Views.{numbered_expr, numbered_node, numbered_sum_part, numbered_product_part};

use crate::expr::{Expr, ExprList, ExprNode, ProductPart, ProductPartList, SumPart, SumPartList};
use gc_base::{Duplicate, Memory};

impl Expr {
    /// An expression with the same tree, whatever names its numbers stand for.
    pub fn copy(&self) -> Result<Expr, Memory>
        ensures { IfOk result (λ copied. numbered_expr copied ≡ numbered_expr self.now) }
    {
        copy(self)
    }
}

#[tactic(auto, unfolding(crate::specs::Views::numbered_expr, crate::specs::Views::numbered_node))]
#[cycle(copy)]
fn copy(expr: &Expr) -> Result<Expr, Memory>
    ensures { IfOk result (λ copied. numbered_expr copied ≡ numbered_expr expr.now) }
{
    let node = copy_node(&expr.node)?;
    Ok(Expr {
        token: expr.token,
        node,
    })
}

#[tactic(auto, unfolding(crate::specs::Views::numbered_expr, crate::specs::Views::numbered_node, crate::specs::Views::numbered_sum_part, crate::specs::Views::numbered_product_part))]
#[cycle(copy)]
fn copy_node(node: &ExprNode) -> Result<ExprNode, Memory>
    ensures { IfOk result (λ copied. numbered_node copied ≡ numbered_node node.now) }
{
    match node {
        ExprNode::Number(number) => Ok(ExprNode::Number(*number)),
        ExprNode::Text(text) => Ok(ExprNode::Text(text.copy()?)),
        ExprNode::Truth(truth) => Ok(ExprNode::Truth(*truth)),
        ExprNode::Var(var) => Ok(ExprNode::Var(*var)),
        ExprNode::Property(of, key) => Ok(ExprNode::Property(copy_boxed(of)?, key.copy()?)),
        ExprNode::Labelled(of, label) => Ok(ExprNode::Labelled(copy_boxed(of)?, label.copy()?)),
        ExprNode::NodeAt(path, at) => Ok(ExprNode::NodeAt(*path, copy_boxed(at)?)),
        ExprNode::EdgeAt(path, at) => Ok(ExprNode::EdgeAt(*path, copy_boxed(at)?)),
        ExprNode::Length(path) => Ok(ExprNode::Length(*path)),
        ExprNode::Aggregate(fold, operand) => match operand {
            None => Ok(ExprNode::Aggregate(*fold, None)),
            Some(of) => Ok(ExprNode::Aggregate(*fold, Some(copy_boxed(of)?))),
        },
        ExprNode::Negate(of) => Ok(ExprNode::Negate(copy_boxed(of)?)),
        ExprNode::Sum(first, rest) => Ok(ExprNode::Sum(copy_boxed(first)?, copy_sum(rest)?)),
        ExprNode::Product(first, rest) => {
            Ok(ExprNode::Product(copy_boxed(first)?, copy_product(rest)?))
        }
        ExprNode::Compare(how, left, right) => {
            Ok(ExprNode::Compare(*how, copy_boxed(left)?, copy_boxed(right)?))
        }
        ExprNode::Not(of) => Ok(ExprNode::Not(copy_boxed(of)?)),
        ExprNode::And(parts) => Ok(ExprNode::And(copy_parts(parts)?)),
        ExprNode::Or(parts) => Ok(ExprNode::Or(copy_parts(parts)?)),
        ExprNode::Exists(number) => Ok(ExprNode::Exists(*number)),
    }
}

#[tactic(auto, unfolding(crate::specs::Views::numbered_expr))]
#[cycle(copy)]
fn copy_boxed(expr: &Box<Expr>) -> Result<Box<Expr>, Memory>
    ensures { IfOk result (λ copied. numbered_expr copied.value ≡ numbered_expr expr.now.value) }
{
    let alloc = *Box::allocator(expr);
    Ok(Box::new(alloc, copy(expr)?)?)
}

#[cycle(copy)]
fn copy_parts(parts: &ExprList) -> Result<ExprList, Memory>
    ensures { IfOk result (λ copied. map numbered_expr copied.items ≡ map numbered_expr parts.now.items) }
{
    let mut copied = Vec::with_capacity(*parts.allocator(), parts.len())?;
    for part in parts {
        copied.push(copy(part)?)?;
    }
    Ok(copied)
}

#[tactic(auto, unfolding(crate::specs::Views::numbered_expr, crate::specs::Views::numbered_sum_part))]
#[cycle(copy)]
fn copy_sum(parts: &SumPartList) -> Result<SumPartList, Memory>
    ensures { IfOk result (λ copied. map numbered_sum_part copied.items ≡ map numbered_sum_part parts.now.items) }
{
    let mut copied = Vec::with_capacity(*parts.allocator(), parts.len())?;
    for part in parts {
        copied.push(SumPart {
            minus: part.minus,
            part: copy(&part.part)?,
        })?;
    }
    Ok(copied)
}

#[tactic(auto, unfolding(crate::specs::Views::numbered_expr, crate::specs::Views::numbered_product_part))]
#[cycle(copy)]
fn copy_product(parts: &ProductPartList) -> Result<ProductPartList, Memory>
    ensures { IfOk result (λ copied. map numbered_product_part copied.items ≡ map numbered_product_part parts.now.items) }
{
    let mut copied = Vec::with_capacity(*parts.allocator(), parts.len())?;
    for part in parts {
        copied.push(ProductPart {
            op: part.op,
            part: copy(&part.part)?,
        })?;
    }
    Ok(copied)
}
