//! The first walks, in order. Others rely on this: the walks that are found to a node are exactly the
//! first ones that conform to an expression, by cost, number of edges and edges. This crate knows of no
//! query.
#![tactic(auto)]

mod comparing;
mod found;
mod link;
mod pending;
mod searching;
mod settled;
mod settling;
mod tail;
mod tree;
mod way;

pub use found::Found;
pub use searching::{search, search_to};
