//! What a parser reads from: the tokens of a file with the number of each name among them, one token taken
//! at a time. Others rely on `Source`, whose calls give exactly what the readers of single tokens give, on
//! the questions which of two alternatives begins at a place, and on `Refusal`. This crate builds
//! no tree, and knows no text and no graph.
#![tactic(auto)]

mod forks;
mod lists;
mod numbering;
mod refusal;
mod source;

pub use forks::{
    is_count_of_rows_at, is_link_at, is_path_at, is_projected_at, is_property_at, is_view_at,
};
pub use lists::{alone, one};
pub use refusal::Refusal;
pub use source::Source;
