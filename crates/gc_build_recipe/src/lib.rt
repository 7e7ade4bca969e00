//! What a CONSTRUCT asks to be made, by number: its variables and by what the rows are grouped for
//! each, the labels and properties that they are given or lose, and what an instance of each chain has.
//! These are types alone; they know of no text, no row and no graph.
#![tactic(auto)]

mod by_variable;
mod chain;
mod change;
mod grouped;
mod recipe;
mod variable;

pub use by_variable::{ByVariable, OfVariable};
pub use chain::{Chain, ChainList};
pub use change::{Assignment, AssignmentList, LabelOf, LabelOfList, PropertyOf, PropertyOfList};
pub use grouped::Grouped;
pub use recipe::{GraphNumbers, Recipe};
pub use variable::{Grouping, Term, TermList, Variable, VariableList};
