use gc_base::{Cost, Id, Sequence, Walk};
use gc_ppg::Graph;
use gc_prod::{Run, SegmentList};
use gc_regx::Regex;

/// The cost that a document gives to a node and a state, as the least at which a run reaches them.
#[derive(Clone, Copy)]
pub struct Potential {
    pub node: Id,
    pub state: u32,
    pub cost: Cost,
}

/// The potentials of a document.
pub type PotentialList = Sequence<Potential>;

/// A walk, as a shortest one: its cost, and a run that passes it.
#[derive(Drop)]
pub struct WalkDoc {
    pub cost: Cost,
    pub run: Run,
    pub walk: Walk,
}

/// The walks of a document.
pub type WalkDocList = Sequence<WalkDoc>;

/// What a search from a node says that it found: on which graph and segments and by which expression it
/// looked for walks, the potentials, and walks that are the shortest to where they end.
#[derive(Drop)]
pub struct SearchDoc {
    pub expression: Regex,
    pub graph: Graph,
    pub potentials: PotentialList,
    pub segments: SegmentList,
    pub start: Id,
    pub walks: WalkDocList,
}
