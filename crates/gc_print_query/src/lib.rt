//! Query files as texts. Others rely on this: the text of a file is the one that is defined, and what
//! its tokens spell is that file, but for the numbers of the tokens. This crate knows of no parser.
#![tactic(auto)]

mod constructs;
mod expressions;
mod files;
mod laws;
mod lists;
mod names;
mod patterns;
mod pieces;
mod queries;

pub use files::print_query;
pub use laws::{printed_files_read_back, tokens_can_be_written};
