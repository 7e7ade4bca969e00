//! The readers of the grammar, as definitions: for each production a function from a list of tokens to the
//! value that the list begins with, or to the token that it cannot go past. The laws say that they are
//! right about the grammar: what they give is spelled, they are stuck at the first token with which no
//! list begins so that is spelled, and what is spelled they read. The crates above cite it. This crate has
//! no code, and knows of no parser.
#![tactic(auto)]

mod laws;

pub use laws::{
    a_list_spells_one_expression, a_list_spells_one_file, the_reader_of_files_is_right,
};
