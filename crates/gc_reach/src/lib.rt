//! Which nodes walks reach, and what lies on walks. Others rely on this: the nodes that are given are
//! exactly those to which a walk leads that conforms to an expression, and the parts of the walks
//! between two nodes are exactly the nodes and edges that lie on some of them. This crate knows of no
//! query, and hands out no walk.
#![tactic(auto)]

mod exploring;
mod marks;
mod passing;
mod reaching;
mod turning;

pub use passing::{Parts, on_walks};
pub use reaching::{IdList, reachable};
