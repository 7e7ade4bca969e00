//! Graph files: a graph from JSON, and the canonical text of a graph. Others rely on this:
//! `load` gives exactly the graph of a file or the file's first refusal, and `print` exactly the
//! canonical text, which loads as the graph again. This crate knows of no query and opens no file.
#![tactic(auto)]

mod checking;
mod collected;
mod edges;
mod element;
mod elements;
mod fault;
mod finding;
mod first_pass;
mod frame;
mod labels;
mod laws;
mod listing;
mod literals;
mod loading;
mod member;
mod nodes;
mod numbers;
mod one_pass;
mod parts;
mod paths;
mod properties;
mod refusal;
mod text;
mod token_values;
mod unread;
mod values;
mod walks;

pub use elements::write_walk;
pub use laws::{canonical_texts_load_back, canonical_texts_read_back};
pub use loading::load;
pub use refusal::{GraphRefusal, Part, Spot};
pub use text::{print, write_graph};
