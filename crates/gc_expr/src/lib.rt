//! Expressions as trees. Others rely on the tree alone. This crate knows of no token list, no query
//! and no graph: a variable is a number of a name table, and an EXISTS query a number of the list
//! that stands beside the expression.
#![tactic(auto)]

mod build;
mod copy;
mod expr;

pub use expr::{
    Comparison, Expr, ExprList, ExprNode, Fold, ProductOp, ProductPart, ProductPartList, SumPart,
    SumPartList,
};
