//! Automata of regular path expressions. Others rely on this: the runs of an automaton pass exactly
//! the walks that conform to its expression, at their costs. This crate knows of no query.
#![tactic(auto)]

mod automaton;
mod building;
mod counting;
mod laws;
#[cfg(test)]
mod tests;
mod transition;

pub use automaton::{Automaton, RegexRefusal};
pub use counting::state_count;
pub use laws::runs_pass_the_conforming_walks;
pub use transition::{On, Transition};
