//! Tokens of query files. Others rely on `lex` alone, which gives exactly the tokens of a text with
//! their places, or exactly its first refusal. This crate knows of no grammar.
#![tactic(auto)]

mod fronts;
mod items;
mod laws;
mod lexer;
mod numbers;
mod places;
mod refusal;
mod symbols;
mod texts;
mod token;
mod tokens;
mod words;

pub use laws::no_text_is_cut;
pub use lexer::lex;
pub use refusal::LexRefusal;
pub use token::{Mark, Token};
pub use tokens::Tokens;
