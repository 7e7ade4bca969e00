//! The parser: the one file, or the one regular path expression, that a token list spells, or the
//! exact refusal. Others rely on `parse`, `parse_regex` and two laws on what a parse is. This crate knows the grammar, and
//! no text and no graph.
#![tactic(auto)]

mod blocks;
mod depth;
mod files;
mod formulas;
mod laws;
mod parsing;
mod path_heads;
mod queries;
mod refusal;

pub use laws::{a_parse_is_what_tokens_spell, an_expression_is_what_tokens_spell};
pub use parsing::{parse, parse_regex};
pub use refusal::ParseRefusal;
