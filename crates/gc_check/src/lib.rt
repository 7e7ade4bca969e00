//! The checker of the document of one search. Others rely on this: a document is accepted exactly where all six
//! rules hold, else the first that does not is told; and the walks of a document that is accepted are shortest
//! ones. It takes no memory. This crate knows of no search and no text.
#![tactic(auto)]

mod checking;
mod laws;
mod leading;
mod listing;
mod lookup;
mod pricing;
mod replaying;
mod rule;

pub use checking::check_search;
pub use laws::{accepted_walks_are_shortest, verdicts_are_exact};
pub use rule::{KRule, Verdict};
