//! The certificates of the shortest walks that the MATCH of a CONSTRUCT finds. Others rely on this: the
//! documents of its searches are told exactly, and each of them is accepted. This crate knows of no query
//! file, no plan and no text.
#![tactic(auto)]

mod block;
mod documents;
mod ends;
mod potentials;
mod segments;
mod walks;

pub use block::searches_of;
