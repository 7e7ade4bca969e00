//! What the statements of a query file come to. Others rely on `step`, which evaluates one statement over the
//! graphs of a session as the definitions say. This crate reads no text and knows of no folder.
#![tactic(auto)]

mod basics;
mod combining;
mod costs;
mod explaining;
mod fault;
mod graph_views;
mod laws;
mod log;
mod lowered;
mod made;
mod naming;
mod path_heads;
mod path_views;
mod queries;
mod segments;
mod session;
mod standing;
mod steps;
mod tables;
mod used_views;

pub use fault::{Fault, QueryRefusal};
pub use laws::{
    a_file_that_breaks_no_rule_is_built, a_statement_comes_to_one_answer,
    what_a_log_gains_in_turn_it_gains_together, what_is_in_order_is_so_between_wider_numbers,
};
pub use log::{RunLog, Wants};
pub use steps::step;
