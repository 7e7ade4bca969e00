//! Expressions, from OR down to what stands in parentheses. Others rely on `expression`, which gives exactly
//! what the reader of expressions gives. The queries of EXISTS it reads by what its caller hands it, so this
//! crate knows no clause of a query, and no graph.
#![tactic(auto)]

mod chains;
mod expressions;
mod literals;
mod operators;
mod primaries;
mod queries;

pub use expressions::expression;
pub use queries::QueryRead;
