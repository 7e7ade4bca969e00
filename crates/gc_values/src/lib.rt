//! Values and truths of expressions. Others rely on two calls: `value` gives the value of an
//! expression on a row, and `truth` the three-valued truth of a condition, each exactly as the
//! definitions say; and on the law that rows which agree on the variables in a condition give it one
//! truth. `mentions` tells which these are. Values are read where they lie, in the graph, the row or
//! the expression: a condition makes none, and `value` copies its answer alone. This crate knows of no
//! query, no token and no group: the values of aggregates and the answers to EXISTS queries are handed in.
#![tactic(auto)]

mod along;
mod compared;
mod context;
mod described;
mod folded;
mod graphs;
mod laws;
mod literal_ref;
mod literals;
mod mentioning;
mod numbers;
mod rank;
mod reads;
mod truth3;
mod truths;
mod val;
mod val_ref;
mod values;

pub use graphs::{own_graph, walk_graph};
pub use laws::the_truth_of_a_condition_hangs_on_the_variables_in_it;
pub use mentioning::mentions;
pub use reads::{Made, MadeList, ReadUse, Reads};
pub use truth3::Truth3;
pub use truths::truth;
pub use val::{Val, ValList, Why};
pub use values::value;
