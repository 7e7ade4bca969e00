//! By what walks are looked for: the automaton of an expression, and the segments of the views that it
//! names. Others rely on `machine_of` and `is_searchable`, and on the definition of the graphs and
//! segments that a query is matched on. This crate looks for no walk.
#![tactic(auto)]

mod machine;
mod searchable;

pub use machine::{Machine, machine_of};
pub use searchable::is_searchable;
