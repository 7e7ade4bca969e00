//! The plan of a part of a block as it is explained: in which order its atoms are met, by a fixed rule, and where
//! its conditions are tested. Others rely on `plan_steps`, which gives exactly the steps of its definition, and on
//! `push_lines`, which writes them. By which plan a query is run is another matter (gc_plan). This crate knows of no
//! query file and runs nothing.
#![tactic(auto)]

mod choosing;
mod laws;
mod needing;
mod planning;
mod step;
mod text;
mod wording;

pub use laws::{
    explained_steps_and_those_of_exists_queries_mean_their_block, explained_steps_mean_their_block,
};
pub use needing::needs_of;
pub use planning::plan_steps;
pub use step::{Step, StepWord};
pub use text::push_lines;
