//! Set operations on graphs: union, intersection and difference of two, and the union of many elements
//! that are claimed in any order. Each gives exactly what the definition says of every identity. This
//! crate knows of no query and no row.
#![tactic(auto)]

mod additions;
mod agreed;
mod claim;
mod common;
mod descriptions;
mod difference;
mod gathering;
mod intersection;
mod laws;
mod lists;
mod part;
#[cfg(test)]
mod tests;
mod union_of;
mod uniting;
mod whole;

pub use agreed::unite_agreed;
pub use difference::minus;
pub use intersection::intersect;
pub use laws::{
    a_graph_stands_with_those_that_it_comes_from, graphs_that_are_made_in_turn_agree,
    what_comes_from_made_graphs_comes_from_theirs, what_is_combined_comes_from_where_its_graphs_do,
};
pub use union_of::union;
pub use uniting::unite;
