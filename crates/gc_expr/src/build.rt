ghost use Rattle.std.specs.Prelude.{◌≡◌, map, IfOk, Some, None};
ghost use Rattle.gc_expr.specs.Trees as tree;
ghost use Rattle.gc_expr.specs.Trees.{row, maybe, At};
ghost use Rattle.gc_expr.specs.Views.{Names, name_of, expr_tree, sum_part_tree, product_part_tree};

use crate::expr::{Comparison, Expr, ExprList, ExprNode, Fold, ProductPartList, SumPartList};
use gc_base::{Memory, Name, Str, Sym};
use std::alloc::Global;

#[tactic(auto, unfolding(crate::specs::Views::expr_tree, crate::specs::Views::sum_part_tree, crate::specs::Views::product_part_tree, crate::specs::Views::numbered_expr, crate::specs::Views::numbered_sum_part, crate::specs::Views::numbered_product_part, crate::specs::Trees::renamed))]
impl Expr {
    /// A number.
    pub fn number(token: u32, number: i64) -> Expr
        ensures { (names : Names) → expr_tree names result ≡ At token (tree.Number number) }
    {
        Expr {
            token,
            node: ExprNode::Number(number),
        }
    }

    /// A text.
    pub fn text(token: u32, text: Str) -> Expr
        ensures { (names : Names) → expr_tree names result ≡ At token (tree.Text text) }
    {
        Expr {
            token,
            node: ExprNode::Text(text),
        }
    }

    /// `TRUE` or `FALSE`.
    pub fn truth(token: u32, truth: bool) -> Expr
        ensures { (names : Names) → expr_tree names result ≡ At token (tree.Truth truth) }
    {
        Expr {
            token,
            node: ExprNode::Truth(truth),
        }
    }

    /// A variable.
    pub fn var(token: u32, var: Sym) -> Expr
        ensures { (names : Names) → expr_tree names result ≡ At token (tree.Var (name_of names var)) }
    {
        Expr {
            token,
            node: ExprNode::Var(var),
        }
    }

    /// `x.k`
    pub fn property(alloc: Global, token: u32, of: Expr, name: Name) -> Result<Expr, Memory>
        ensures { IfOk result (λ e. (names : Names) → expr_tree names e ≡ At token (tree.Property (expr_tree names of) name)) }
    {
        let of = Box::new(alloc, of)?;
        Ok(Expr {
            token,
            node: ExprNode::Property(of, name),
        })
    }

    /// `x:l`
    pub fn labelled(alloc: Global, token: u32, of: Expr, label: Name) -> Result<Expr, Memory>
        ensures { IfOk result (λ e. (names : Names) → expr_tree names e ≡ At token (tree.Labelled (expr_tree names of) label)) }
    {
        let of = Box::new(alloc, of)?;
        Ok(Expr {
            token,
            node: ExprNode::Labelled(of, label),
        })
    }

    /// `nodes(p)[i]`
    pub fn node_at(alloc: Global, token: u32, path: Sym, index: Expr) -> Result<Expr, Memory>
        ensures { IfOk result (λ e. (names : Names) → expr_tree names e ≡ At token (tree.NodeAt (name_of names path) (expr_tree names index))) }
    {
        let index = Box::new(alloc, index)?;
        Ok(Expr {
            token,
            node: ExprNode::NodeAt(path, index),
        })
    }

    /// `edges(p)[i]`
    pub fn edge_at(alloc: Global, token: u32, path: Sym, index: Expr) -> Result<Expr, Memory>
        ensures { IfOk result (λ e. (names : Names) → expr_tree names e ≡ At token (tree.EdgeAt (name_of names path) (expr_tree names index))) }
    {
        let index = Box::new(alloc, index)?;
        Ok(Expr {
            token,
            node: ExprNode::EdgeAt(path, index),
        })
    }

    /// `length(p)`
    pub fn length(token: u32, path: Sym) -> Expr
        ensures { (names : Names) → expr_tree names result ≡ At token (tree.Length (name_of names path)) }
    {
        Expr {
            token,
            node: ExprNode::Length(path),
        }
    }

    /// `COUNT(*)`
    pub fn rows(token: u32) -> Expr
        ensures { (names : Names) → expr_tree names result ≡ At token (tree.Aggregate Fold.Rows (maybe None)) }
    {
        Expr {
            token,
            node: ExprNode::Aggregate(Fold::Rows, None),
        }
    }

    /// An aggregate of an operand.
    pub fn aggregate(alloc: Global, token: u32, fold: Fold, operand: Expr) -> Result<Expr, Memory>
        ensures { IfOk result (λ e. (names : Names) → expr_tree names e ≡ At token (tree.Aggregate fold (maybe (Some (expr_tree names operand))))) }
    {
        let operand = Box::new(alloc, operand)?;
        Ok(Expr {
            token,
            node: ExprNode::Aggregate(fold, Some(operand)),
        })
    }

    /// `-a`
    pub fn negate(alloc: Global, token: u32, operand: Expr) -> Result<Expr, Memory>
        ensures { IfOk result (λ e. (names : Names) → expr_tree names e ≡ At token (tree.Negate (expr_tree names operand))) }
    {
        let operand = Box::new(alloc, operand)?;
        Ok(Expr {
            token,
            node: ExprNode::Negate(operand),
        })
    }

    #[tactic(auto, using(crate::proofs::Lists::sum_tree))]
    /// A chain of `+` and `-`.
    pub fn sum(alloc: Global, token: u32, first: Expr, rest: SumPartList) -> Result<Expr, Memory>
        ensures { IfOk result (λ e. (names : Names) → expr_tree names e ≡ At token (tree.Sum (expr_tree names first) (row (map (sum_part_tree names) rest.items)))) }
    {
        let first = Box::new(alloc, first)?;
        Ok(Expr {
            token,
            node: ExprNode::Sum(first, rest),
        })
    }

    #[tactic(auto, using(crate::proofs::Lists::product_tree))]
    /// A chain of `*`, `/` and `%`.
    pub fn product(
        alloc: Global,
        token: u32,
        first: Expr,
        rest: ProductPartList,
    ) -> Result<Expr, Memory>
        ensures { IfOk result (λ e. (names : Names) → expr_tree names e ≡ At token (tree.Product (expr_tree names first) (row (map (product_part_tree names) rest.items)))) }
    {
        let first = Box::new(alloc, first)?;
        Ok(Expr {
            token,
            node: ExprNode::Product(first, rest),
        })
    }

    /// A comparison.
    pub fn compare(
        alloc: Global,
        token: u32,
        how: Comparison,
        left: Expr,
        right: Expr,
    ) -> Result<Expr, Memory>
        ensures { IfOk result (λ e. (names : Names) → expr_tree names e ≡ At token (tree.Compare how (expr_tree names left) (expr_tree names right))) }
    {
        let left = Box::new(alloc, left)?;
        let right = Box::new(alloc, right)?;
        Ok(Expr {
            token,
            node: ExprNode::Compare(how, left, right),
        })
    }

    /// `NOT a`
    pub fn negation(alloc: Global, token: u32, operand: Expr) -> Result<Expr, Memory>
        ensures { IfOk result (λ e. (names : Names) → expr_tree names e ≡ At token (tree.Not (expr_tree names operand))) }
    {
        let operand = Box::new(alloc, operand)?;
        Ok(Expr {
            token,
            node: ExprNode::Not(operand),
        })
    }

    #[tactic(auto, using(crate::proofs::Lists::and_tree))]
    /// All of the parts.
    pub fn and(token: u32, parts: ExprList) -> Expr
        ensures { (names : Names) → expr_tree names result ≡ At token (tree.And (row (map (expr_tree names) parts.items))) }
    {
        Expr {
            token,
            node: ExprNode::And(parts),
        }
    }

    #[tactic(auto, using(crate::proofs::Lists::or_tree))]
    /// One of the parts.
    pub fn or(token: u32, parts: ExprList) -> Expr
        ensures { (names : Names) → expr_tree names result ≡ At token (tree.Or (row (map (expr_tree names) parts.items))) }
    {
        Expr {
            token,
            node: ExprNode::Or(parts),
        }
    }

    /// The EXISTS query of a number.
    pub fn exists(token: u32, number: u32) -> Expr
        ensures { (names : Names) → expr_tree names result ≡ At token (tree.Exists number) }
    {
        Expr {
            token,
            node: ExprNode::Exists(number),
        }
    }
}
