//! The grammar of query files, as a definition: which list of tokens spells which tree, production by
//! production. The crates above cite it. This crate has no code, and knows of no parser.
#![tactic(auto)]

mod laws;

pub use laws::{
    a_name_in_parentheses_is_that_name, a_name_is_a_file, and_binds_tighter_than_or,
    differences_are_taken_from_the_left, labels_are_spelled, labels_are_spelled_so_alone,
};
