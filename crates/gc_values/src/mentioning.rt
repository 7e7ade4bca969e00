ghost use Rattle.std.specs.Prelude.{◌≡◌, map};
ghost use Rattle.gc_expr.specs.Trees.{row};
ghost use Rattle.gc_expr.specs.Views.{numbered_expr, numbered_node, numbered_sum_part, numbered_product_part};
ghost use Rattle.gc_values.specs.Mentions.{mentions};

use gc_base::Sym;
use gc_expr::{Expr, ExprNode, ProductPart, SumPart};

/// Whether a variable occurs in an expression.
#[tactic(auto, unfolding(crate::specs::Mentions::mentions, gc_expr::specs::Views::numbered_expr, gc_expr::specs::Views::numbered_node))]
#[cycle(mentioned)]
pub fn mentions(expr: &Expr, var: Sym) -> bool
    ensures { result ≡ mentions var (numbered_expr expr.now) }
{
    in_node(&expr.node, var)
}

#[tactic(auto, unfolding(crate::specs::Mentions::mentions, gc_expr::specs::Views::numbered_expr, gc_expr::specs::Views::numbered_node, gc_expr::specs::Views::numbered_sum_part, gc_expr::specs::Views::numbered_product_part))]
#[cycle(mentioned)]
fn in_node(node: &ExprNode, var: Sym) -> bool
    ensures { result ≡ mentions var (numbered_node node.now) }
{
    match node {
        ExprNode::Number(_) => false,
        ExprNode::Text(_) => false,
        ExprNode::Truth(_) => false,
        ExprNode::Var(name) => name.0 == var.0,
        ExprNode::Property(of, _) => mentions(of, var),
        ExprNode::Labelled(of, _) => mentions(of, var),
        ExprNode::NodeAt(path, at) => path.0 == var.0 || mentions(at, var),
        ExprNode::EdgeAt(path, at) => path.0 == var.0 || mentions(at, var),
        ExprNode::Length(path) => path.0 == var.0,
        ExprNode::Aggregate(_, operand) => match operand {
            None => false,
            Some(of) => mentions(of, var),
        },
        ExprNode::Negate(of) => mentions(of, var),
        ExprNode::Sum(first, rest) => mentions(first, var) || in_sum(rest, var),
        ExprNode::Product(first, rest) => mentions(first, var) || in_product(rest, var),
        ExprNode::Compare(_, left, right) => mentions(left, var) || mentions(right, var),
        ExprNode::Not(of) => mentions(of, var),
        ExprNode::And(parts) => in_parts(parts, var),
        ExprNode::Or(parts) => in_parts(parts, var),
        ExprNode::Exists(_) => false,
    }
}

#[tactic(auto, unfolding(crate::specs::Mentions::mentions))]
#[cycle(mentioned)]
fn in_parts(parts: &[Expr], var: Sym) -> bool
    ensures { result ≡ mentions var (row (map numbered_expr parts.now)) }
{
    for part in parts {
        if mentions(part, var) {
            return true;
        }
    }
    false
}

#[tactic(auto, unfolding(crate::specs::Mentions::mentions, gc_expr::specs::Views::numbered_expr, gc_expr::specs::Views::numbered_sum_part))]
#[cycle(mentioned)]
fn in_sum(parts: &[SumPart], var: Sym) -> bool
    ensures { result ≡ mentions var (row (map numbered_sum_part parts.now)) }
{
    for part in parts {
        if mentions(&part.part, var) {
            return true;
        }
    }
    false
}

#[tactic(auto, unfolding(crate::specs::Mentions::mentions, gc_expr::specs::Views::numbered_expr, gc_expr::specs::Views::numbered_product_part))]
#[cycle(mentioned)]
fn in_product(parts: &[ProductPart], var: Sym) -> bool
    ensures { result ≡ mentions var (row (map numbered_product_part parts.now)) }
{
    for part in parts {
        if mentions(&part.part, var) {
            return true;
        }
    }
    false
}
