//! Which rows make one element of a variable of a CONSTRUCT, and how new elements are numbered. Others
//! rely on one call: `number` gives the elements of each variable with their rows, and for each row the
//! number of its element, exactly as the definition says; and on `ReadGraphs`, which finds the graphs of a
//! variable. This crate makes no identity and reads no assignment.
#![tactic(auto)]

mod element_rows;
mod elements;
mod keys;
mod numbered;
mod numbering;
mod read_graphs;
mod setting;
mod terms;
mod whole_rows;

pub use numbered::{Element, Numbered, NumberedList, Numbering};
pub use numbering::number;
pub use read_graphs::ReadGraphs;
pub use setting::Setting;
