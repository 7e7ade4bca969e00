//! Graphs that are made from numbers: rings, and graphs whose edges are drawn. Others rely on `make`, which gives
//! exactly the graph of its definition. This crate reads no file and knows of no query.
#![tactic(auto)]

mod draws;
mod elements;
mod making;

pub use making::{MOST_START, MakeRefusal, make, most_size};
