//! The segments of a PATH view on a graph, from the rows of its block. Others rely on `segments`: it gives
//! the walk of each row along the first chain, at its cost, or the walk of the first row whose cost is bad.
//! This crate knows of no plan and finds no rows.
#![tactic(auto)]

mod fault;
mod head;
mod listing;
mod naming;
mod order;
mod price;
mod reading;
mod renaming;
mod trail;
mod view;

pub use fault::ViewFault;
pub use head::segments;
