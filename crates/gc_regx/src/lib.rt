//! Regular path expressions as trees. Others rely on the tree alone, which a copy equals. This crate
//! knows of no token, no graph and no automaton.
#![tactic(auto)]

mod build;
mod copy;
mod regex;

pub use regex::{Regex, RegexList};
