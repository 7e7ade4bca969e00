//! The lines that explain a CONSTRUCT: for each view that it uses, for its MATCH, for each OPTIONAL block and for
//! each EXISTS query the steps of its plan. Others rely on `query_lines`, which gives exactly the text of its
//! definition. Steps and estimates are those of gc_explain and gc_stats; this crate knows of no query file, chooses
//! no step and runs nothing.
#![tactic(auto)]

mod laws;
mod lines;
mod nesting;
mod parts;
mod queries;
mod views;

pub use laws::printed_steps_are_those_of_a_plan_that_means_its_block;
pub use queries::query_lines;
pub use views::ExplainedView;
