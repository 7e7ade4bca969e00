/// A rule that the document of a search has to keep.
#[derive(Clone, Copy, Debug, PartialEq, Eq)]
pub enum KRule {
    /// Potentials strictly ascend by node, then by state, and each is of a node and a state that there are.
    PotentialsListed,
    /// The start is a node, at which the potential of the first state is 0.
    StartFree,
    /// Moves from a pair that has a potential lead to pairs that have one.
    MovesCovered,
    /// By a move the potential grows by at most the cost of the move.
    MovesBounded,
    /// A run is a list of moves from the start to the end of its walk, which pass exactly the walk.
    RunsPassWalks,
    /// The costs of a run add up to the stated cost, which is the potential of its last pair.
    CostsLeast,
}

/// What a checker says of the document of a search.
#[derive(Clone, Copy)]
pub enum Verdict {
    /// All rules hold.
    Accepted,
    /// This is the first rule that does not hold.
    Rejected(KRule),
}
