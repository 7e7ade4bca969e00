//! What a block of a checked query file asks for: its patterns as atoms, the parts of its conditions as
//! conjuncts with their EXISTS queries, and its tree in the order of the text. Others rely on
//! `lower`, `variable` and `is_found`. This crate knows of no rows and runs nothing.
#![tactic(auto)]

mod around;
mod blocks;
mod chains;
mod conjuncts;
mod counting;
mod elements;
mod lowering;
mod naming;
mod occurring;
mod paths;
mod reads;
mod renumbering;
mod variables;

pub use lowering::{LoweredBlock, lower};
pub use variables::{is_found, variable};
