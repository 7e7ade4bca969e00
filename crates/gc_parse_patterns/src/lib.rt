//! The parts of a parser that hold no expression: regular path expressions, and the patterns of a MATCH and
//! of a PATH. Others rely on `patterns`, `path_chains` and `regex`, which give exactly what their readers
//! give. This crate knows of no expression, no query and no graph.
#![tactic(auto)]

mod edges;
mod elements;
mod labels;
mod links;
mod lists;
mod part;
mod paths;
mod regex_part;
mod regexes;
mod unplaced;

pub use lists::{path_chains, patterns};
pub use regex_part::Part;
pub use regexes::regex;
