use gc_base::{Id, Sequence};

/// What a move goes by.
#[derive(Clone, Copy)]
pub enum By {
    /// Nothing: the walk stays at its node.
    Nothing,
    /// An edge, along it or against it.
    Edge(Id),
    /// The segment of this number.
    Segment(u32),
}

/// A way from a node to a node along a symbol, at a cost.
#[derive(Clone, Copy)]
pub struct Hop {
    pub from: Id,
    pub to: Id,
    pub cost: u64,
    pub by: By,
}

/// A node and a state.
#[derive(Clone, Copy)]
pub struct Pair {
    pub node: Id,
    pub state: u32,
}

/// A move to a node and a state, at a cost.
#[derive(Clone, Copy)]
pub struct Move {
    pub node: Id,
    pub state: u32,
    pub cost: u64,
    pub by: By,
}

/// A move of a run: what it goes by, and the state that it goes to.
#[derive(Clone, Copy)]
pub struct RunMove {
    pub by: By,
    pub to: u32,
}

/// A run, as the list of its moves.
pub type Run = Sequence<RunMove>;
