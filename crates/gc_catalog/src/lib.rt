//! The graphs of a session, by name. Others rely on this: all graphs of a `Catalog` are coherent, and
//! every identity in them is below `next`, both by its type. This crate knows of no file and no
//! query.
#![tactic(auto)]

mod catalog;

pub use catalog::{AddRefusal, Catalog};
