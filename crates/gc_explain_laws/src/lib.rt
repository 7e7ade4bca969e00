//! What explained plans mean for the blocks of a query file: the plan whose steps are printed for a MATCH has exactly
//! its rows. This crate has laws alone, and no code. Blocks are gc_lower's, steps gc_explain's, and what is printed is
//! gc_explain_query's.
#![tactic(auto)]

mod laws;

pub use laws::{blocks_of_query_files_are_sound, printed_plan_means_the_rows_of_its_match};
