//! The document of a search for shortest walks, and when it is accepted. Others rely on this: `Accepts` says
//! what is right of a document in terms of potentials and moves alone, with no word of how walks are found.
//! This crate knows of no search, no checker and no text.
#![tactic(auto)]

mod document;

pub use document::{Potential, PotentialList, SearchDoc, WalkDoc, WalkDocList};
