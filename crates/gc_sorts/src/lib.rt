//! The sort rules of query files: whether names, graphs, views and expressions stand where they may.
//! Others rely on `check`, which gives the first breach of a rule and its place, or a checked file.
//! This crate knows of no token list, no text and no graph, only of the names that graphs have.
#![tactic(auto)]

mod basics;
mod block_tokens;
mod blocking;
mod breach;
mod checked;
mod checker;
mod checking;
mod constructs;
mod existence;
mod expressions;
mod file_block;
mod first_sorts;
mod following;
mod form;
mod found;
mod graphs;
mod index;
mod laws;
mod link;
mod links;
mod loose;
mod makes;
mod making;
mod match_links;
mod matches;
mod numbers;
mod occurring;
mod patterns;
mod reached;
mod reading;
mod refusal;
mod rules;
mod sight;
mod sizes;
mod sort;
mod standing;
mod statements;
mod step;
mod tokens;
mod uses;
mod variables;
mod way_walk;

pub use breach::{Breach, SortRule};
pub use checked::Checked;
pub use checking::check;
pub use file_block::{FileBlock, PartAround, part_of};
pub use laws::the_first_breach_is_the_first;
pub use refusal::SortRefusal;
pub use sort::Sort;
pub use statements::first_breach;
