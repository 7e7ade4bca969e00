//! Trees as texts. Others rely on this: the text of a regular path expression is the one that is
//! defined, and its tokens spell that expression. This crate knows of no parser and no graph.
#![tactic(auto)]

mod laws;
mod looseness;
mod regexes;
#[cfg(test)]
mod tests;

pub use laws::{printed_expressions_read_back, texts_spell_such_expressions};
pub use regexes::print_regex;
