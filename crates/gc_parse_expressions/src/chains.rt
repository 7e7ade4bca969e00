ghost use Rattle.std.specs.Prelude.{◌≡◌, map, IfOk};
ghost use Rattle.gc_expr.specs.Trees as tree;
ghost use Rattle.gc_expr.specs.Views.{Names, expr_tree, sum_part_tree, product_part_tree};
ghost use Rattle.gc_grammar.specs.Expressions.{chained, multiplied as multiplied_tree, summed as summed_tree};

use gc_base::Memory;
use gc_expr::{Expr, ExprList, ProductOp, ProductPart, ProductPartList, SumPart, SumPartList};
use std::alloc::Global;

#[tactic(auto, unfolding(gc_expr::specs::Views::product_part_tree, gc_expr::specs::Views::expr_tree, gc_expr::specs::Views::numbered_product_part, gc_expr::specs::Views::numbered_expr, gc_expr::specs::Trees::renamed))]
// A later part of a product.
pub(crate) fn product_part(op: ProductOp, part: Expr) -> ProductPart
    ensures { (names : Names) → product_part_tree names result ≡ tree.ProductPart op (expr_tree names part) }
{
    ProductPart { op, part }
}

#[tactic(auto, unfolding(gc_expr::specs::Views::sum_part_tree, gc_expr::specs::Views::expr_tree, gc_expr::specs::Views::numbered_sum_part, gc_expr::specs::Views::numbered_expr, gc_expr::specs::Trees::renamed))]
// A later part of a sum.
pub(crate) fn sum_part(minus: bool, part: Expr) -> SumPart
    ensures { (names : Names) → sum_part_tree names result ≡ tree.SumPart minus (expr_tree names part) }
{
    SumPart { minus, part }
}

// A product; of one part the part itself.
pub(crate) fn multiplied(
    alloc: Global,
    token: u32,
    first: Expr,
    rest: ProductPartList,
) -> Result<Expr, Memory>
    ensures { IfOk result (λ e. (names : Names) → expr_tree names e ≡ multiplied_tree token (expr_tree names first)
        (map (product_part_tree names) rest.items)) }
{
    if rest.is_empty() {
        return Ok(first);
    }
    Expr::product(alloc, token, first, rest)
}

// A sum; of one part the part itself.
pub(crate) fn summed(
    alloc: Global,
    token: u32,
    first: Expr,
    rest: SumPartList,
) -> Result<Expr, Memory>
    ensures { IfOk result (λ e. (names : Names) → expr_tree names e ≡ summed_tree token (expr_tree names first) (map (sum_part_tree names) rest.items)) }
{
    if rest.is_empty() {
        return Ok(first);
    }
    Expr::sum(alloc, token, first, rest)
}

// All of some parts; of one part the part itself.
pub(crate) fn all_of(token: u32, mut parts: ExprList) -> Expr
    ensures { (names : Names) → expr_tree names result ≡ chained tree.And token (map (expr_tree names) parts.items) }
{
    if parts.len() == 1 {
        return parts.swap_remove(0);
    }
    Expr::and(token, parts)
}

// One of some parts; of one part the part itself.
pub(crate) fn any_of(token: u32, mut parts: ExprList) -> Expr
    ensures { (names : Names) → expr_tree names result ≡ chained tree.Or token (map (expr_tree names) parts.items) }
{
    if parts.len() == 1 {
        return parts.swap_remove(0);
    }
    Expr::or(token, parts)
}
