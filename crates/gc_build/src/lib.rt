//! What a CONSTRUCT makes of a table. Others rely on one call: `construct` gives the graph and the
//! next identity, or the fault that comes first, exactly as the definition says. What is asked for comes
//! as a recipe. This crate knows of no text, finds no rows, groups none and describes no new element; of
//! the walks of an ALL path it looks for what lies on them.
#![tactic(auto)]

mod all_paths;
mod built;
mod claiming;
mod constructing;
mod edges;
mod elements;
mod graphs;
mod instances;
mod kept;
mod laws;
mod listed;
mod made;
mod making;
mod names;
mod nodes;
mod paths;
mod patterns;
mod spans;
mod standing;
mod walks;

pub use built::{Built, Refusal};
pub use constructing::construct;
pub use laws::{
    a_recipe_with_the_links_of_its_block_fits_whole, the_rows_of_a_block_bind_nodes_of_its_graphs,
    what_is_built_comes_from_the_graphs, what_is_claimed_where_a_recipe_fits_is_of_one_graph,
};
