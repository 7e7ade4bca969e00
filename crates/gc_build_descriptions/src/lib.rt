//! The labels and properties of the elements that a CONSTRUCT makes. Others rely on one call:
//! `describe` gives them for each element, or the first assignment that is undefined on a row, exactly
//! as the definition says. This crate groups no rows and knows of no graph that is made.
#![tactic(auto)]

mod aggregates;
mod assigned;
mod changes;
mod described;
mod describing;
mod fault;
mod faults;
mod givens;
mod said;
mod starts;

pub use described::{Described, DescribedList, Description, DescriptionList};
pub use describing::describe;
pub use fault::{Fault, Refusal};
