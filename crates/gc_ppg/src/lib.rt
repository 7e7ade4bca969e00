//! The graph store: path property graphs in memory. Others rely on this: every `Graph` is a valid
//! graph by its type, and is read only through counted reads, by ascending identity. This crate
//! knows of no file and no query.
#![tactic(auto)]

mod builder;
mod by_id;
mod coherence;
mod element;
mod graph;
mod index;
mod kind;
mod label_index;
mod laws;
mod node_edges;
mod places;
mod search;
mod shape;
mod tested;

pub use builder::{BuildRefusal, GraphBuilder};
pub use coherence::Coherence;
pub use element::{EdgeInfo, NodeInfo, PathInfo};
pub use graph::{Graph, GraphList};
pub use laws::a_graph_that_agrees_is_coherent;
pub use node_edges::{FarEnd, NodeEdges, Side};
pub use shape::{Kind, Shape};
