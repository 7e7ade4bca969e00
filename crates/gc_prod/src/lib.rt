//! A graph times an automaton, in which walks are looked for: pairs of a node and a state, and the
//! moves between them. Others rely on this: the moves of a pair are a list by definition, and are
//! handed out one by one in its order. This crate knows of no query and of no search.
#![tactic(auto)]

mod by_number;
mod hop_lists;
mod keyed;
mod laws;
mod moves;
mod places;
mod preparing;
mod product;
mod segment;

pub use by_number::ByNumber;
pub use keyed::{ByKey, Keyed};
pub use laws::moves_make_the_runs;
pub use moves::{By, Hop, Move, Pair, Run, RunMove};
pub use places::place_of;
pub use product::{Bundle, Landing, Product};
pub use segment::{Segment, SegmentList, SegmentTable, SegmentsOn};
